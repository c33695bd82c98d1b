//! Runs of the whole linker over files in memory, as a user sees them: words in, a status, one line and files
//! out. It takes names, bytes and words, runs `linker_program` on them, and holds the tests of the most modules, which
//! take more words than a row of `row_walker` does. Its contracts promise that the run is one of these words over these
//! files. It serves no other crate.
#![tactic(auto)]

mod world;

pub use world::{Ended, NamedFile, run_over, run_without_failures};

#[cfg(test)]
mod tests;
