//! The keys of the orders, each deciding only where those before it are equal.

use link_base::Name;

/// The keys of the order inside a section.
#[derive(PartialEq, Eq, PartialOrd, Ord, Drop)]
pub(crate) struct PieceKey<'a> {
    pub uninitialised: bool,
    pub merged: bool,
    pub merged_name: Name<'a>,
    pub suffix: Name<'a>,
    pub module: u32,
    pub number: u32,
    pub index: u32,
}

/// The keys of the order of sections. The module, the number and the index are those of the section's first piece.
#[derive(PartialEq, Eq, PartialOrd, Ord, Drop)]
pub(crate) struct SectionKey {
    pub rank: u32,
    pub module: u32,
    pub number: u32,
    pub index: u32,
    pub section: usize,
}
