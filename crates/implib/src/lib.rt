//! Writes the import library of a DLL: an archive with one short import for each symbol that the DLL exports, and the two
//! directories of the names that these list. It takes rows of symbols in order, the name of the DLL and a time, and gives
//! the file's bytes. Its contracts promise each byte, and the length beforehand; that lib_reader finds each name in them,
//! at the first row that lists it, and that short_import reads the row there, are laws. Which symbols a DLL exports, and
//! where the file goes, are left to others.
#![tactic(auto)]

mod constants;
mod directories;
mod header;
mod import;
mod laws;
mod library;
mod linker_members;
mod listing;
mod numbers;
mod row;
mod row_members;
mod sizes;
mod texts;

pub use laws::{members_are_read_back, names_are_found_in_their_library};
pub use library::{import_library, library_length};
pub use row::LibraryRow;
