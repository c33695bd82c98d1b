//! Bytes of an image as they stand in memory at a base, as a printed line: from an RVA on, or from where a public symbol
//! stands. It takes the bytes of an image and of a program database, has `pe_loader` load the one and `pdb_publics` search
//! the other, and gives the line to the program that prints it. Its contracts promise the line byte by byte, and of what
//! is wrong with the image, the base, the program database, the name and the range the first that stands. The files are
//! read elsewhere.
#![tactic(auto)]

mod at;
mod line;
mod loading;
mod place;
mod symbol;

pub use at::shown_at;
pub use symbol::shown_symbol;
