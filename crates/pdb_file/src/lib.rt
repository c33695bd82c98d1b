//! A program database as a file: its nine streams, in a multi-stream file. It takes the rows of modules, contributions and
//! public symbols and the section headers of an image, has the streams written by `pdb_dbi` and `pdb_publics`, and gives the
//! bytes to the crate that makes images. Its contract promises the file that these streams make, or that it would be too
//! large, with its size. Which rows there are is left to its caller.
#![tactic(auto)]

mod format;
mod joined;
mod sizes;
mod writing;

pub use writing::{PdbParts, write_pdb};
