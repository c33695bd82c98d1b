//! A value out of its range.

/// The relocation of this index has a value that lies out of the range of its type.
#[derive(Clone, Copy, Debug, PartialEq, Eq)]
pub struct RelocRange {
    pub index: u32,
    pub value: i128,
}
