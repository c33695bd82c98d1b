//! What the directives of all modules of a link say together: keys whose values differ, merges of sections, and alignments of
//! commons. It takes modules from `module_view`, and gives what they say to the crates that make pieces and plans. Its contracts
//! promise that all directives count, in the order of the modules and of their sections. Names and alternates are left to
//! `symbol_table`, libraries and exports to others.
#![tactic(auto)]

mod alignments;
mod merges;
mod mismatch;

pub use alignments::CommonAlignments;
pub use merges::link_merges;
pub use mismatch::{Mismatch, first_mismatch};
