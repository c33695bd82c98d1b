//! What the image of a link says of its PDB: the entry of the debug directory and the data that the entry names. It takes the
//! options and the places of sections, has `debug_entry` write the bytes, and gives them and their sizes to the crates that
//! lay out and write the image. Its contracts promise what each holds, and that nothing is said where no PDB is asked for.
//! Where the two stand, and the identifier, are left to those crates.
#![tactic(auto)]

mod debug;

pub use debug::LinkDebug;
