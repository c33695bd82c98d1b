//! What the name and the flags of a section of an object say of it: its base name, whether it
//! is one that is looked for by its name, and whether it comes into the image.
//! It takes names and flags, which `coff_object` reads of a section, and answers those that open modules and make pieces. Its
//! contracts promise each of these exactly. What sections hold is left to the crates above.
#![tactic(auto)]

mod base_name;
mod placed_section;
mod sought_names;

pub use base_name::has_base_name;
pub use placed_section::comes_in;
pub use sought_names::{
    LINKER_NAME_START, NAME_START, begins_sought, is_linker_section, is_resources, may_be_sought,
};
