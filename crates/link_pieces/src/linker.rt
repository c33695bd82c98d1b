//! The local slots as pieces.

ghost use Rattle.std.specs.Prelude.{◌≡◌, ◌≤◌, ◌++◌, map, OnOk};
ghost use Rattle.section_group.specs.BarePieces.{bare};
ghost use Rattle.section_group.specs.PieceContents.{piece_contents};
ghost use Rattle.link_pieces.specs.Commons.{FIRST_COMMON};
ghost use Rattle.link_pieces.specs.LinkerPieces.{slots_below, pointers_below, numbers_below};

use link_base::Memory;
use section_group::Piece;
use synthetic_sections::push_slot;

/// Appends so many local slots, as pieces of the module at a position.
pub(crate) fn push_slots(
    pieces: &mut Vec<Piece<'_>>,
    position: u32,
    slots: usize,
) -> Result<(), Memory>
    requires { numbers_below slots ≤ FIRST_COMMON }
    ensures pieces { OnOk result (map bare pieces.new.items ≡ map bare pieces.old.items ++ slots_below position slots) }
    ensures contents { OnOk result (map piece_contents pieces.new.items ≡ map piece_contents pieces.old.items ++ pointers_below slots) }
{
    for slot in 0..slots {
        push_slot(pieces, position, slot as u32)?;
    }
    Ok(())
}
