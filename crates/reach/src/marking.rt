//! Pieces that were marked.

ghost use Rattle.std.specs.Prelude.{◌≡◌, ℕ, ◌<◌, [], length, Contains, IfOk, OnOk};
ghost use Rattle.reach.specs.Marking.{IsMarked, Marks};

use link_base::Memory;
use std::alloc::Global;

/// Which pieces were marked, and those among them whose edges are still to be followed.
#[derive(Drop)]
pub(crate) struct Marking {
    pub kept: Vec<bool>,
    pub pending: Vec<u32>,
}

impl Marking {
    /// No piece is marked.
    pub(crate) fn new(alloc: Global, pieces: u32) -> Result<Marking, Memory>
        ensures length { IfOk result (λ marking. length marking.kept.items ≡ pieces) }
        ensures none { IfOk result (λ marking. (piece : ℕ) → ¬ IsMarked marking.kept.items piece) }
        ensures none_pending { IfOk result (λ marking. marking.pending.items ≡ []) }
    {
        let kept = vec![in alloc; false; pieces as usize]?;
        Ok(Marking {
            kept,
            pending: Vec::new(alloc),
        })
    }

    /// Marks a piece, which makes it pending where it was not marked before. A number that is no piece is passed over.
    pub(crate) fn mark(&mut self, piece: u32) -> Result<(), Memory>
        ensures marks { OnOk result (Marks (λ other. other ≡ piece) self.old self.new) }
        ensures marked { OnOk result (piece < length self.old.kept.items → IsMarked self.new.kept.items piece) }
    {
        let place = piece as usize;
        if place < self.kept.len() && !self.kept[place] {
            self.pending.push(piece)?;
            self.kept[place] = true;
        }
        Ok(())
    }

    /// Marks each piece of a list.
    pub(crate) fn mark_all(&mut self, pieces: &[u32]) -> Result<(), Memory>
        ensures marks { OnOk result (Marks (Contains pieces.now) self.old self.new) }
        ensures marked { OnOk result ((piece : ℕ) → Contains pieces.now piece → piece < length self.old.kept.items
            → IsMarked self.new.kept.items piece) }
    {
        for piece in pieces {
            self.mark(*piece)?;
        }
        Ok(())
    }
}
