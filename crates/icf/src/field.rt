//! Fields, and what they name.

/// Whose section a piece is.
#[derive(Clone, Copy)]
pub(crate) struct Owner {
    /// The number of the candidate.
    pub candidate: u32,
    /// The place of the section: 0 for the candidate itself, and then its children.
    pub rank: usize,
}

/// What a field's symbol means.
#[derive(Clone, Copy, PartialEq, Eq, Hash)]
pub(crate) enum Place {
    /// A place in a section of a candidate: the candidate's number, or that of its class.
    Section {
        candidate: u32,
        rank: usize,
        value: u32,
    },
    /// A place in another piece.
    Piece {
        piece: u32,
        value: u32,
    },
    /// A number that does not change with the base.
    Absolute(u32),
    /// The start of the image.
    ImageBase,
}

/// A field of a section of a candidate.
#[derive(Clone, Copy, PartialEq, Eq, Hash)]
pub(crate) struct Field {
    /// The place of the section among those of the candidate.
    pub rank: usize,
    /// The offset in the section.
    pub at: u32,
    /// The type of the relocation.
    pub kind: u16,
    pub place: Place,
}
