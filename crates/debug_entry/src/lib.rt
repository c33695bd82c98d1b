//! What an image says of its PDB: the entry of its debug directory and the data that the entry names, and the identifier by
//! which a debugger tells that the two belong together. It takes the places of these and the name of the PDB from the crate
//! that makes images, and gives it their bytes. Its contracts promise each byte. The PDB itself is left to others.
#![tactic(auto)]

mod directory;
mod identity;

pub use directory::{ENTRY_SIZE, data_length, debug_data, debug_entry};
pub use identity::image_identifier;
