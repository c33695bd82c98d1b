//! The import tables of an image, by which a loader finds what each import stands for in its DLL. It takes the bytes of a
//! mapped image and gives the imports that its directory names; and it takes imports and gives the sizes of their tables,
//! where each slot stands, and the bytes of the tables, to the crates that make images. Its contracts promise that all
//! imports are read, in order, that a directory is refused exactly where it leaves the memory, and each byte of the tables,
//! where the imports of a DLL stand together. Which imports an image has, and where its tables stand, is left to others.
#![tactic(auto)]

mod extent;
mod filling;
mod format;
mod found;
mod laws;
mod lookup;
mod reading;
mod row;
mod shaping;

pub use filling::fill;
pub use found::{ImportFound, TableError};
pub use laws::{
    each_import_is_found_with_its_slot, filled_tables_are_read_back, more_is_never_read,
    slots_stand_apart,
};
pub use reading::read_imports;
pub use row::{ImportRow, ImportShape};
pub use shaping::shape;
pub use short_import::ImportBy;
