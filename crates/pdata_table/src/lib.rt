//! The exception table of an image: a row for each function that has unwind information. It takes the bytes of a table and
//! puts its rows in the order in which a loader looks them up, for the crate that makes images. Its contract promises that
//! the bytes are those of the one ascending list of the same rows. Where a table stands and what its RVAs mean is left to
//! others.
#![tactic(auto)]

mod laws;
mod row;
mod sorting;

pub use laws::{pieces_hold_the_sorted_table, rows_of_sorted_table, sorted_table_is_the_only_one};
pub use sorting::sort_rows;
