//! Multi-stream files, the container of a program database: a file of blocks in which several streams stand, each in
//! blocks of its own that a directory lists. It takes streams and gives the file, and it takes a file and gives its
//! streams, to the crates that write and read them. Its contracts promise each byte of a written file, that a reader gives
//! the bytes of the blocks that the directory lists, and that the streams of a written file are those that were given.
//! What the streams of a program database hold is left to others.
#![tactic(auto)]

mod blocks;
mod directory;
mod extent;
mod format;
mod judging;
mod laws;
mod msf;
mod streams;
mod superblock;
mod tables;
mod writing;

pub use laws::{blocks_stand_at_their_numbers, written_streams_are_read};
pub use msf::{Msf, StreamError};
pub use writing::{MsfError, write_msf};
