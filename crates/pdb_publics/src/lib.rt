//! The public symbols of a program database: their records, and the hash table by which one is found by its name. It takes
//! rows and gives the streams of globals, of publics and of symbol records to the crate that makes images, and it finds a
//! public in a multi-stream file of `pdb_msf` for those that read images. Its contracts promise each byte of the streams,
//! and that a search answers what the table of a file says of the name, or that the table is malformed; by its laws it
//! finds in the streams of some rows each row by its name, and nothing else. Other symbols are left to others.
#![tactic(auto)]

mod finding;
mod format;
mod fronts;
mod hash_part;
mod hashing;
mod keys;
mod laws;
mod orders;
mod pushing;
mod range;
mod record;
mod rows;
mod stream;
mod writing;

pub use finding::find;
pub use hashing::bucket;
pub use laws::{publics_have_one_order, written_publics_are_found};
pub use rows::{Public, PublicRow, PublicStreams};
pub use writing::write_publics;
