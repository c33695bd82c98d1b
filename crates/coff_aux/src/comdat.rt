//! What COMDAT sections say of themselves.

use link_base::Name;

/// A COMDAT section: how one of several is selected (1 to 6, as the PE Format specification numbers selections), the name that
/// it goes by, where its leader is external, and the section that it is selected with, where its selection is 5.
#[derive(Drop)]
pub struct Comdat<'a> {
    pub selection: u8,
    pub leader: Option<Name<'a>>,
    pub parent: Option<u32>,
}

/// Stands where no symbol is noted. None has it as its index.
pub const NO_SYMBOL: u32 = u32::MAX;

/// The records of the first two symbols of a section, `NO_SYMBOL` where there is none.
#[derive(Clone, Copy)]
pub struct NotedSymbols {
    pub first: u32,
    pub second: u32,
}

/// What the section symbol of a COMDAT section says.
#[derive(Clone, Copy)]
pub struct ComdatRecord {
    /// It is a static symbol with an auxiliary record.
    pub has_symbol: bool,
    pub selection: u8,
    /// The section that it is selected with, where its selection is 5.
    pub associated: u32,
}
