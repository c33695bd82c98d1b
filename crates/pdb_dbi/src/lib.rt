//! The streams of a program database that say where an image comes from: modules, section contributions and sections, the
//! identifier, and types, of which there are none. It takes rows from the crate that makes images and gives it the bytes of
//! these streams, and it reads the contributions of a multi-stream file. Its contracts promise each byte, and that the
//! contributions which are read from what was written are those that were given. The file is made by `pdb_msf`; public
//! symbols are left to others.
#![tactic(auto)]

mod fixed;
mod form;
mod format;
mod laws;
mod modules;
mod reading;
mod records;
mod rows;
mod sections;
mod writing;

pub use fixed::{write_info, write_types};
pub use laws::{
    contributions_of_the_first_form_are_read, module_records_are_aligned, size_of_a_written_stream,
    written_contributions_are_read,
};
pub use reading::{DbiError, contributions};
pub use rows::{Contribution, ModuleName};
pub use writing::write_dbi;
