//! Address assignment: where output sections and their pieces stand in the image, and sections in the file.
//! It takes pieces and the sections that `section_group` gave for them; it gives a layout, and judges
//! bases of images.
//! Its contracts promise least places: each piece at the least RVA of its alignment at or above the end of the piece
//! before it, each section at the least page, and that each refusal comes exactly at its limit.
//! Headers and contents are left to `image_writer`.
#![tactic(auto)]

mod base;
mod extent;
mod laws;
mod layout;
mod places;
mod reloc;
mod round;

pub use base::{BaseRule, check_base, permitted};
pub use laws::{layouts_are_shared, one_image_size, one_layout, other_pieces_may_be_written};
pub use layout::{Layout, LayoutError, Placed};
pub use places::place;
pub use reloc::append_reloc;
