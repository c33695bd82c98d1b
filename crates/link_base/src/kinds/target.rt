//! Why a field cannot be written: its target, or the relocation itself.

/// Why a relocation's or the entry's target has no address that can be used.
#[derive(Clone, Copy, Debug, PartialEq, Eq)]
pub enum TargetFault {
    /// A local symbol that stands in no section.
    Local,
    /// A local symbol in a section that was not selected.
    Discarded,
    /// A place in a section that does not come into the image.
    Unplaced,
    /// A relative field to an absolute value.
    AbsRelative,
    /// A section number or offset of what lies in no section.
    NoSection,
    /// An address of 32 bits in an image that may lie above them.
    NeedsLow,
    /// A field of the exception table that is no RVA.
    PdataField,
}

/// What is wrong with a relocation, in the order of the tests.
#[derive(Clone, Copy, Debug, PartialEq, Eq)]
pub enum RelocKind {
    /// The type is none that is linked.
    Kind,
    /// The field does not lie in the section's bytes.
    Field,
    /// The index is that of no symbol.
    Index,
    /// The field shares a byte with a field of an earlier relocation.
    Overlap,
}
