//! The image of a link. It takes the plan of `link_plan` and the options, has `section_group` order the pieces that are
//! kept, `address_layout` place them, `import_tables` fill the import tables, `image_writer` write all, `par_patch`
//! patch the fields of the pieces where they stand and `pdata_table` put the rows of the exception table in order, and
//! gives the bytes to the program that stores them. Its contract promises the image that the definitions give, whose
//! file loads as planned at every permitted base, or the first fault of the stages from tables to range. Reading, the
//! meaning of names, and which fields there are, are left to the crates below.
#![tactic(auto)]

mod exports;
mod file;
mod identity;
mod laws;
mod make;
mod map;
mod patching;
mod pdata;
mod pdb;
mod placement;
mod sections;
mod tables;

pub use laws::{another_base_moves_addresses_alone, one_list_of_base_fields};
pub use make::{Built, build};
