//! What a module defines.

use link_base::Name;

/// Where a definition stands.
#[derive(Clone, Copy, Debug, PartialEq, Eq)]
pub enum Place {
    /// In a section of its module, by its number from 1, at an offset.
    Section { section: u32, value: u32 },
    /// At no place: a number.
    Absolute(u32),
    /// The entry of the import address table of an import.
    Slot,
    /// The code that jumps through it.
    Thunk,
}

/// A symbol that other modules can name.
#[derive(Drop)]
pub struct Definition<'a> {
    pub name: Name<'a>,
    /// The record that the symbol starts at.
    pub symbol: u32,
    pub place: Place,
}

/// Zeroed memory that modules share under a name: each says a size, and the greatest counts.
#[derive(Drop)]
pub struct Common<'a> {
    pub name: Name<'a>,
    /// The record that the symbol starts at.
    pub symbol: u32,
    /// In bytes.
    pub size: u32,
}
