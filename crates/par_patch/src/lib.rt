//! The fields of a link's pieces, patched in the file of its image by several threads. It takes jobs, each a piece with the
//! place of its bytes and its fixups from `relocate`, and a layout of `address_layout`; it changes the file for the crate
//! that makes images.
//! Its contract promises the bytes that patching one job after the other leaves, and of the values that do not fit the one
//! of the least module and section, however many parts the jobs are dealt to. What a field holds is left to `relocate`.
#![tactic(auto)]

mod job;
mod laws;
mod least;
mod parts;
mod patching;
#[cfg(test)]
mod tests;

pub use job::{Job, JobRange};
pub use laws::{one_least_range, patching_jobs_keeps_the_length};
pub use link_files::{Gate, OpenGate};
pub use patching::patch_all;
