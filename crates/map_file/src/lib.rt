//! The map of an image as text: its base, size and entry, and a line for each module, section, piece and public symbol.
//! It takes the rows from the crate that makes images and gives it the file. Its contract promises the text, byte for
//! byte, with the rows in the order in which they stand. Which rows there are is left to its caller.
#![tactic(auto)]

mod field;
mod rows;
mod text;

pub use rows::{MapModule, MapPiece, MapPublic, MapRows, MapSection};
pub use text::map_text;
