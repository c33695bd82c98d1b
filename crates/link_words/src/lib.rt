//! The command line: the linker's four commands, and the options of a link.
//! Takes the words, and gives the command with every option's value or default, or the least word that is
//! refused with the first kind that holds of it, for the crates that carry the command out.
//! The contract of `read_words` says exactly which: what a word says stands in `specs/Setting`, what all of
//! them give in `specs/Options`. What an option does to a link is left to the crates above.
#![tactic(auto)]

mod commands;
mod effect;
mod errors;
mod extension;
mod field;
mod finish;
mod given;
mod known;
mod options;
mod values;
mod words;

pub use commands::read_words;
pub use errors::{UsageKind, WordsError, usage_word};
pub use options::{Command, Options};
