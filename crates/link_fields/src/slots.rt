//! What the local slots point to.

ghost use Rattle.std.specs.Prelude.{◌≡◌, ◌≤◌, ◌-◌, None, Some, length, OnOk, IfErr};
ghost use Rattle.synthetic_sections.specs.LinkerPieces as slot;
ghost use Rattle.link_pieces.specs.Commons.{FIRST_COMMON};
ghost use Rattle.link_pieces.specs.LinkerPieces.{numbers_below};
ghost use Rattle.link_pieces.specs.LocalSlots.{slot_names};
ghost use Rattle.link_pieces.specs.PieceIndex.{IsPieceIndex};
ghost use Rattle.link_fields.specs.Fixes.{slot_fault, slots_fault};

use crate::entry::bad_entry;
use crate::targets::meant_target;
use link_base::Fault;
use link_pieces::{LinkNames, PieceIndex};
use synthetic_sections::FIRST_LOCAL_SLOT;

/// Checks what the local slots point to, of which there are so many, in the order of their names. The first that points to what
/// does not come into the image is refused.
pub(crate) fn check_slots<'a>(
    names: &LinkNames<'a>,
    index: &PieceIndex<'a>,
    count: usize,
) -> Result<(), Fault<'a>>
    requires indexed { IsPieceIndex names.now index.now }
    requires count { count ≡ length (slot_names names.now) }
    requires few { numbers_below count ≤ FIRST_COMMON }
    ensures accepted { OnOk result (slots_fault names.now ≡ None) }
    ensures refused { IfErr result (λ fault. slots_fault names.now ≡ Some fault) }
{
    for slot in 0..count {
        check_slot(names, index, FIRST_LOCAL_SLOT + slot as u32)?;
    }
    Ok(())
}

/// Checks what a local slot points to, by the number of its piece.
fn check_slot<'a>(
    names: &LinkNames<'a>,
    index: &PieceIndex<'a>,
    number: u32,
) -> Result<(), Fault<'a>>
    requires indexed { IsPieceIndex names.now index.now }
    requires number { slot.FIRST_LOCAL_SLOT ≤ number }
    ensures accepted { OnOk result (slot_fault names.now (number - slot.FIRST_LOCAL_SLOT) ≡ None) }
    ensures refused { IfErr result (λ fault. slot_fault names.now (number - slot.FIRST_LOCAL_SLOT) ≡ Some fault) }
{
    let meaning = names.resolve(index.slot_name(number));
    match meant_target(index, meaning) {
        Ok(_) => Ok(()),
        Err(kind) => Err(bad_entry(kind)),
    }
}
