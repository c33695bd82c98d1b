//! What is found in the import tables of a mapped image.

use link_base::{Memory, Name};
use short_import::ImportBy;

/// An import: its DLL, how the loader finds it there, and the RVA of the slot that is to hold its address.
#[derive(Drop)]
pub struct ImportFound<'m> {
    pub dll: Name<'m>,
    pub by: ImportBy<'m>,
    pub slot: u32,
}

/// Why import tables are not read.
#[derive(Clone, Copy, Debug, PartialEq, Eq)]
pub enum TableError {
    /// The first thing that leaves the memory: a descriptor, the name of its DLL, an entry, its slot, or its hint and
    /// name. Its RVA, or that of the entry where this RVA is not below 2^32.
    Range(u32),
    /// Want of memory.
    Memory,
}

impl From<Memory> for TableError {
    ghost use Rattle.std.specs.Prelude.{◌≡◌};
    ghost use Rattle.import_tables.specs.declared.found.TableError.TheVariants.{Memory};

    ghost from_gives = { λ _ error. error ≡ Memory };

    fn from(_error: Memory) -> TableError {
        TableError::Memory
    }
}
