//! The pieces that the linker makes, by their numbers.

ghost use Rattle.std.specs.Prelude.{◌≡◌, ◌≤◌, ◌<◌, ◌+◌, ◌==◌, ℕ, None, Some, length, if◌then◌else◌, IfOk};
ghost use Rattle.std.specs.Option.{option_or};
ghost use Rattle.link_base.specs.Limits.{MODULE_LIMIT};
ghost use Rattle.link_pieces.specs.Commons.{FIRST_COMMON};
ghost use Rattle.link_pieces.specs.LinkerPieces.{numbers_below};
ghost use Rattle.link_pieces.specs.PieceIndex.{linker_indexed};
ghost use Rattle.link_pieces.specs.Rows.{HasLinkerRoom, HasLinkerRows};

use crate::piece_rows::{no_pieces, put_first};
use link_base::Memory;
use std::alloc::Global;
use std::marker::Model;
use synthetic_sections::{FIRST_LOCAL_SLOT, FIRST_THUNK};

/// The piece of each number that the linker makes, where there is one.
#[derive(Drop)]
pub(crate) struct LinkerRows {
    /// Of the jumps, by their numbers.
    made: Vec<Option<u32>>,
    /// Of the local slots, from the number of the first one on.
    slots: Vec<Option<u32>>,
}

impl Model for LinkerRows {
    ghost use Rattle.link_pieces.specs.PieceIndex.{LinkerView};

    ghost Value = { LinkerView };

    ghost use Rattle.link_pieces.specs.Rows.{linker_rows_of};

    ghost view = { λ rows. linker_rows_of rows.made.items rows.slots.items };
}

impl LinkerRows {
    /// Rows for so many modules and local slots, without a piece.
    pub(crate) fn empty(alloc: Global, modules: usize, slots: usize) -> Result<LinkerRows, Memory>
        requires modules { modules ≤ MODULE_LIMIT }
        requires slots { numbers_below slots ≤ FIRST_COMMON }
        ensures { IfOk result (HasLinkerRows modules slots) }
    {
        let made = no_pieces(alloc, FIRST_THUNK + modules as u32)?;
        let slots = no_pieces(alloc, slots as u32)?;
        Ok(LinkerRows { made, slots })
    }

    /// The piece of a number, where there is one.
    pub(crate) fn at(&self, number: u64) -> Option<u32>
        ensures { result ≡ linker_indexed self.now number }
    {
        let first = u64::from(FIRST_LOCAL_SLOT);
        if number < first {
            *self.made.get(number as usize)?
        } else {
            *self.slots.get((number - first) as usize)?
        }
    }

    /// Notes a piece at its number, where none is noted there.
    pub(crate) fn note(&mut self, number: u32, index: u32)
        requires { HasLinkerRoom self.old number }
        ensures noted { (n : ℕ) → linker_indexed self.new n ≡ option_or (linker_indexed self.old n) (if number == n then Some index else None) }
        ensures made { length self.new.made ≡ length self.old.made }
        ensures slots { length self.new.slots ≡ length self.old.slots }
    {
        if number < FIRST_LOCAL_SLOT {
            put_first(&mut self.made, number as usize, index);
        } else {
            put_first(&mut self.slots, (number - FIRST_LOCAL_SLOT) as usize, index);
        }
    }
}
