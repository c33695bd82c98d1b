//! Base relocation blocks: the table of an image that lists the fields which hold addresses, so that the image can
//! stand at another base. It takes the fields and gives the table to the crate that makes images, and it raises the
//! fields of a table in the bytes of a mapped image. Its contracts promise that what the table of some fields raises is
//! those fields, once each, and nothing else.
#![tactic(auto)]

mod entry;
mod field;
mod format;
mod judging;
mod laws;
mod loading;
mod raising;
mod writing;

pub use field::BaseField;
pub use laws::{
    pages_ascend, raised_numbers_settle_a_memory, raising_changes_its_fields_alone,
    table_lists_its_fields,
};
pub use loading::{BadBlocks, apply};
pub use writing::blocks;
