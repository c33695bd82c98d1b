//! What is put into sections, with each piece's name cut.

ghost use Rattle.std.specs.Prelude.{◌≡◌, ◌≤◌, ◌^◌, ◌<◌, IsTrue, length, IfOk, OnOk, IfErr};
ghost use Rattle.section_group.specs.Merging.{HasNoBadMerge, IsRefusal};
ghost use Rattle.section_group.specs.Steps.{AreCuts, piece_cut, share_name};
ghost use Rattle.section_group.specs.SectionOrder.{input_from};

use crate::bad_merge::resolve;
use crate::cut::{Cut, cut_all};
use crate::piece::{GroupError, Piece};
use link_base::Name;
use std::alloc::Global;

/// The pieces, which of them are used, and the given merges; beside them the names of the pieces, cut.
#[derive(Drop)]
pub(crate) struct Parts<'w, 'a> {
    pub pieces: &'w [Piece<'a>],
    pub used: &'w [bool],
    pub merges: &'w [(Name<'a>, Name<'a>)],
    cuts: Vec<Cut<'a>>,
    /// The number of each piece's cut.
    numbers: Vec<u32>,
    ghost few: { length pieces.now < 2 ^ 32 },
    ghost all_told: { length pieces.now ≤ length used.now },
    ghost cut: { AreCuts (input_from pieces.now used.now merges.now) cuts.items numbers.items },
}

impl<'w, 'a> Parts<'w, 'a> {
    /// Cuts the names, unless a merge is refused.
    pub(crate) fn new(
        alloc: Global,
        pieces: &'w [Piece<'a>],
        used: &'w [bool],
        merges: &'w [(Name<'a>, Name<'a>)],
    ) -> Result<Parts<'w, 'a>, GroupError<'a>>
        requires few { length pieces.now < 2 ^ 32 }
        requires all_told { length pieces.now ≤ length used.now }
        ensures accepted { OnOk result (HasNoBadMerge merges.now) }
        ensures refused { IfErr result (IsRefusal merges.now) }
        ensures pieces { IfOk result (λ parts. parts.pieces.now ≡ pieces.now) }
        ensures used { IfOk result (λ parts. parts.used.now ≡ used.now) }
        ensures merges { IfOk result (λ parts. parts.merges.now ≡ merges.now) }
    {
        let renames = resolve(alloc, merges)?;
        let (cuts, numbers) = cut_all(alloc, pieces, &renames)?;
        Ok(Parts {
            pieces,
            used,
            merges,
            cuts,
            numbers,
        })
    }

    /// A piece's name, cut.
    pub(crate) fn cut(&self, index: usize) -> &Cut<'a>
        requires { index < length self.now.pieces.now }
        ensures { result.now ≡ piece_cut (input_from self.now.pieces.now self.now.used.now self.now.merges.now) index }
    {
        &self.cuts[self.numbers[index] as usize]
    }

    /// Whether two pieces have one name, and so one cut.
    pub(crate) fn share_name(&self, index: usize, other: usize) -> bool
        requires index { index < length self.now.pieces.now }
        requires other { other < length self.now.pieces.now }
        ensures name { result ≡ share_name (input_from self.now.pieces.now self.now.used.now self.now.merges.now) index other }
        ensures cut { IsTrue result → piece_cut (input_from self.now.pieces.now self.now.used.now self.now.merges.now) index
            ≡ piece_cut (input_from self.now.pieces.now self.now.used.now self.now.merges.now) other }
    {
        self.numbers[index] == self.numbers[other]
    }
}
