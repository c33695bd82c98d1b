//! Rows of pieces by numbers, one row for each module.

ghost use Rattle.std.specs.Prelude.{◌≡◌, ◌<◌, ◌+◌, ◌==◌, ◌&&◌, ℕ, None, Some, length, slice_index_or, slice_set, if◌then◌else◌, replicate, IfOk};
ghost use Rattle.std.specs.Option.{option_or};
ghost use Rattle.link_pieces.specs.PieceIndex.{row_start, indexed};
ghost use Rattle.link_pieces.specs.Rows.{AreRows};

use link_base::Memory;
use std::alloc::Global;
use std::marker::Model;

/// The piece of each number of each module, where there is one. The rows of the modules stand one after the other in one
/// list.
#[derive(Drop)]
pub(crate) struct PieceRows {
    /// Where the row of each module starts, by its position, and where the last row ends.
    starts: Vec<u32>,
    pieces: Vec<Option<u32>>,
}

impl Model for PieceRows {
    ghost use Rattle.link_pieces.specs.PieceIndex.{RowsView};

    ghost Value = { RowsView };

    ghost use Rattle.link_pieces.specs.Rows.{rows_of};

    ghost view = { λ rows. rows_of rows.starts.items rows.pieces.items };
}

impl PieceRows {
    /// Rows that start at these places, without a piece.
    pub(crate) fn empty(alloc: Global, starts: Vec<u32>, end: u32) -> Result<PieceRows, Memory>
        ensures starts { IfOk result (λ rows. rows.starts ≡ starts.items) }
        ensures pieces { IfOk result (λ rows. rows.pieces ≡ replicate end None) }
    {
        let pieces = no_pieces(alloc, end)?;
        Ok(PieceRows { starts, pieces })
    }

    /// The piece of a number of the module at a position, where there is one.
    pub(crate) fn at(&self, position: u32, number: u32) -> Option<u32>
        ensures { result ≡ indexed self.now position number }
    {
        let start = *self.starts.get(position as usize)?;
        let end = *self.starts.get(position as usize + 1)?;
        let place = start as usize + number as usize;
        if place >= end as usize {
            return None;
        }
        *self.pieces.get(place)?
    }

    /// Notes a piece at its number, where none is noted there.
    pub(crate) fn note(&mut self, position: u32, number: u32, index: u32)
        requires rows { AreRows self.old }
        requires place { row_start self.old position + number < row_start self.old (position + 1) }
        ensures noted { (m s : ℕ) → indexed self.new m s ≡ option_or (indexed self.old m s)
            (if (position == m) && (number == s) then Some index else None) }
        ensures starts { self.new.starts ≡ self.old.starts }
        ensures len { length self.new.pieces ≡ length self.old.pieces }
    {
        let place = self.starts[position as usize] as usize + number as usize;
        put_first(&mut self.pieces, place, index);
    }
}

/// So many places without a piece.
pub(crate) fn no_pieces(alloc: Global, places: u32) -> Result<Vec<Option<u32>>, Memory>
    ensures { IfOk result (λ pieces. pieces.items ≡ replicate places None) }
{
    Ok(vec![in alloc; None; places as usize]?)
}

/// Notes a piece at a place, where none is noted there.
pub(crate) fn put_first(pieces: &mut Vec<Option<u32>>, at: usize, index: u32)
    requires { at < length pieces.old.items }
    ensures { pieces.new.items ≡ slice_set pieces.old.items at (option_or (slice_index_or pieces.old.items at None) (Some index)) }
{
    if pieces[at].is_none() {
        pieces[at] = Some(index);
    }
}
