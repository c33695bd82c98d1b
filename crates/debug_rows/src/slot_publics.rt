//! The public symbols of the local slots of a link.

ghost use Rattle.std.specs.Prelude.{◌≡◌, ◌<◌, ◌^◌, ◌++◌, [], length, map, filter_map, OnOk};
ghost use Rattle.std.specs.List.{cons_option, enumerate_from};
ghost use Rattle.section_group.specs.BarePieces.{bare};
ghost use Rattle.link_pieces.specs.PieceIndex.{IsPieceIndex};
ghost use Rattle.debug_rows.specs.Publics.{slot_public};

use crate::link_publics::{PublicPlace, push_at};
use link_base::{Memory, Name};
use link_pieces::{LinkNames, PieceIndex};
use section_group::Piece;
use synthetic_sections::FIRST_LOCAL_SLOT;

/// Appends those of the local slots among these pieces.
pub(crate) fn push_slots<'a>(
    publics: &mut Vec<PublicPlace<'a>>,
    names: &LinkNames<'a>,
    index: &PieceIndex<'a>,
    modules: u32,
    pieces: &[Piece<'a>],
) -> Result<(), Memory>
    requires indexed { IsPieceIndex names.now index.now }
    requires modules { modules ≡ length names.now.modules }
    requires few { length pieces.now < 2 ^ 32 }
    ensures { OnOk result (publics.new.items ≡ publics.old.items ++ filter_map (slot_public names.now) (enumerate_from 0 (map bare pieces.now))) }
{
    for (k, piece) in pieces.iter().enumerate() {
        push_slot(publics, names, index, modules, k as u32, piece)?;
    }
    Ok(())
}

/// Appends that of the piece of an index, where it is a local slot.
fn push_slot<'a>(
    publics: &mut Vec<PublicPlace<'a>>,
    names: &LinkNames<'a>,
    index: &PieceIndex<'a>,
    modules: u32,
    k: u32,
    piece: &Piece<'a>,
) -> Result<(), Memory>
    requires indexed { IsPieceIndex names.now index.now }
    requires modules { modules ≡ length names.now.modules }
    ensures { OnOk result (publics.new.items ≡ publics.old.items ++ cons_option (slot_public names.now (k, bare piece.now)) []) }
{
    if piece.module != modules || piece.number < FIRST_LOCAL_SLOT {
        return Ok(());
    }
    let target = index.slot_name(piece.number);
    push_at(
        publics,
        &Name::import(target.rest()),
        modules,
        false,
        Some(k),
    )
}
