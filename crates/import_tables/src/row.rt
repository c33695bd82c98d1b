//! An import that is to be written, and the sizes of its tables.

use link_base::Name;
use short_import::ImportBy;

/// An import: its DLL, and how the loader finds it there.
#[derive(Drop)]
pub struct ImportRow<'a> {
    pub dll: Name<'a>,
    pub by: ImportBy<'a>,
}

/// The sizes of the import tables of some imports, and where each import's slot stands.
#[derive(Drop)]
pub struct ImportShape {
    /// The sizes of the directory, the lookup tables, the slots, the hints with names, and the names of DLLs.
    pub lengths: [u32; 5],
    /// The offset of each import's slot in the table of slots.
    pub slots: Vec<u32>,
}
