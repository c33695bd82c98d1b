//! The exports of a link: the rows of its export table, their ordinals and the size of the table. It takes the exports of the
//! command line from `link_words` and those of modules from `module_view`, and has `export_tables` assign ordinals and say how
//! long the table is. Its contracts promise each export once, in the order in which they first stand, the ordinal of each or the
//! first that is wrong with them, and names that a table can hold. What an export stands for in the link, and the bytes of the
//! table, are left to others.
#![tactic(auto)]

mod exports;
mod rows;
mod table_rows;

pub use exports::{LinkExports, link_exports};
pub use table_rows::table_row;
