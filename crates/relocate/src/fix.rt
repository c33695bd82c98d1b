//! A relocation with what its symbol means.

use link_base::TargetFault;

/// What a relocation's symbol means.
#[derive(Clone, Copy, Debug, PartialEq, Eq)]
pub enum Target {
    /// A place in a piece: the piece's index, and an offset from its start.
    Piece { piece: u32, value: u32 },
    /// A number that does not change with the base.
    Absolute(u32),
    /// The start of the image.
    ImageBase,
}

/// A relocation of a section.
#[derive(Clone, Copy, Debug, PartialEq, Eq)]
pub struct Fix {
    /// The index among the section's relocations.
    pub index: u32,
    /// The offset of the field in the section's bytes.
    pub at: u32,
    /// The type (PE Format, "Type Indicators", x64 Processors).
    pub kind: u16,
    /// What the symbol means, or why it has no address; nothing where the index is that of no symbol.
    pub target: Option<Result<Target, TargetFault>>,
}
