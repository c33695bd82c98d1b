//! The exports of an image: their ordinals, the bytes of an export directory with its tables, and what such a directory says.
//! It takes the exports that words and directives ask for, from `directives`, and gives their ordinals, or the first fault, to
//! the crates that link; it gives these the size and the bytes of the directory; and it finds what a mapped image exports by a
//! name or an ordinal, for those that read images. Its contracts promise the one list of ordinals, each byte of a directory,
//! exactly what the fields of a directory say of any memory, an address, the text of a forwarder or that there is no such
//! entry, and that what is written is found again. What a forwarder's text means is left to others.
#![tactic(auto)]

mod clashes;
mod directory;
mod error;
mod exported;
mod filling;
mod laws;
mod lookup;
mod name_hints;
mod names;
mod ordinals;
mod row;
mod row_order;
mod sizes;
mod table_texts;
mod tables;
mod targets;
mod texts;

pub use error::ExportError;
pub use exported::Exported;
pub use filling::fill;
pub use laws::{
    assigned_ordinals_differ, filled_table_is_read_back, size_is_that_of_rows_without_places,
    table_has_its_size,
};
pub use link_base::ExportFault;
pub use lookup::{by_name, by_ordinal};
pub use name_hints::hints;
pub use ordinals::assign;
pub use row::{ExportRow, ExportTo};
pub use row_order::name_order;
pub use sizes::length;
