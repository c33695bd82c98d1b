//! The fields of an image that hold addresses. It takes the sections of an image, the RVAs of its pieces and the fields of each,
//! and gives the list from which `base_reloc` writes the table of base relocations. Its contract promises each such field, and no
//! other, in the order of the sections and of their pieces. Whether the image has the table is left to its caller.
#![tactic(auto)]

mod listing;

pub use listing::{base_fields, hold_address};
