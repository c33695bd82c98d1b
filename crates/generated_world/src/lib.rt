//! A small program of so many functions as the input of a link: for each function one object, in files in memory, and the
//! words that link these. It takes how many there are from `linker_program`, which links them.
//! Its contracts promise the bytes of each object, that no other file is there, and the words. What comes of the link is
//! left to others.
#![tactic(auto)]

mod laws;
mod names;
mod object;
mod world;

pub use laws::world_holds_its_objects;
pub use world::{world_files, world_words};
