//! Writes the image file of a link: the headers, and after them the raw data of each section.
//! It takes what the headers say, the layout of `address_layout`, and the sections and pieces of `section_group`; it gives
//! the bytes of the file.
//! Its contract promises that the bytes are those of the plan that the layout means; laws add that such a file loads as
//! planned, at each permitted base and at no other, and where the bytes of a piece stand in it.
//! Contents of sections that the linker makes, and relocated fields, are left to their own crates.
#![tactic(auto)]

mod bytes_out;
mod header_sums;
mod headers;
mod laws;
mod raw_data;
mod section_table;
mod writing;

pub use headers::Headers;
pub use laws::{
    file_loads_as_planned, layouts_can_be_written, one_file_means_a_plan, pieces_stand_in_the_file,
    written_file_loads_as_planned,
};
pub use writing::image;
