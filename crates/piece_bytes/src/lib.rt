//! Where pieces stand: the section of each, and its bytes in the file of an image, what pieces of one section hold there, one
//! after another, and other bytes in their place. It takes the file of `image_writer`, the layout of `address_layout` and the
//! pieces and sections of `section_group`, for the crates that make images and list what is in them. Its contracts promise that
//! each piece is read and written where the layout has it in the file, and that no other byte changes. What the bytes mean is
//! left to others.
#![tactic(auto)]

mod extent;
mod owners;
mod place;
mod reading;
mod writing;

pub use extent::{extent_of, rva_in, rva_of};
pub use owners::owners_of;
pub use place::place_in_section;
pub use reading::read_pieces;
pub use writing::write_pieces;
