//! Candidates of folding.

ghost use Rattle.std.specs.Prelude.{◌≡◌, ◌<◌, length, slice_get, Some};
ghost use Rattle.icf.specs.Sections.{sections_of};

/// A function that may be folded, with the sections that go with it (PE Format, "COMDAT Sections (Object Only)").
#[derive(Drop)]
pub struct FoldCandidate {
    /// The index of its piece.
    pub piece: u32,
    /// The indexes of the pieces of its associative sections, by their section numbers.
    pub children: Vec<u32>,
}

impl FoldCandidate {
    /// How many sections it has: its own, and its children.
    pub(crate) fn sections(&self) -> usize
        ensures { result ≡ length (sections_of self.now) }
    {
        self.children.len() + 1
    }

    /// The piece of a rank: its own, and then its children.
    pub(crate) fn section(&self, rank: usize) -> u32
        requires { rank < length (sections_of self.now) }
        ensures { slice_get (sections_of self.now) rank ≡ Some result }
    {
        if rank == 0 {
            self.piece
        } else {
            self.children[rank - 1]
        }
    }
}
