//! The fields and the exports of what is kept, once the imports that are kept have slots.

ghost use Rattle.std.specs.Prelude.{◌≡◌, ◌≤◌, ◌<◌, ◌&&◌, ◌==◌, ◌+◌, ◌^◌, ◌++◌, [], ℕ, true, false, length, map, replicate, slice_index_or, unwrap_or, option_map, Option, List, Bool, IfOk, OnOk};
ghost use Rattle.std.specs.List.{range_with_len};
ghost use Rattle.section_group.specs.BarePieces.{bare};
ghost use Rattle.link_base.specs.Bytes.{first_below};
ghost use Rattle.link_pieces.specs.PieceIndex.{is_numbered, holds};
ghost use Rattle.relocate.specs.Redirected.{redirected, redirected_fix};
ghost use Rattle.synthetic_sections.specs.LinkerPieces as number;
ghost use Rattle.link_plan.specs.Planned.{fixes_if, placed_entry};

use link_base::Memory;
use link_fields::EntryPlace;
use relocate::{Fixups, Target, place_of, redirected};
use section_group::Piece;
use std::alloc::Global;
use synthetic_sections::SLOTS;

/// Where the pieces of a link stand, and the imports that are kept: the piece at whose place each piece does, the number of the first
/// import behind the pieces, the piece that is the table of their slots, and the offset of each slot in it.
#[derive(Drop)]
pub(crate) struct SlotPlaces<'b> {
    pub(crate) places: &'b [u32],
    pub(crate) first: u32,
    pub(crate) table: u32,
    pub(crate) offsets: &'b [u32],
}

/// Whether the fields of what is kept have their places already: none means an import, and nothing folds.
pub(crate) fn fields_stay(no_import: bool, places: &[u32]) -> bool
    ensures { result ≡ (no_import && (length places.now == 0)) }
{
    no_import && places.is_empty()
}

/// Drops the fields of pieces that are not kept, and gives those of the others the places of imports, where they mean any, and of
/// pieces that fold.
pub(crate) fn keep_fields(
    alloc: Global,
    fixups: &mut Vec<Fixups>,
    kept: &[bool],
    places: &SlotPlaces<'_>,
    no_import: bool,
)
    requires count { length fixups.old.items ≤ length kept.now }
    requires no_import { no_import ≡ true → (k : ℕ) → k < length fixups.old.items → slice_index_or kept.now k false ≡ true
        → map (redirected_fix places.now.places.now places.now.first places.now.table places.now.offsets.now) (slice_index_or fixups.old.items k []) ≡ slice_index_or fixups.old.items k [] }
    ensures { fixups.new.items ≡ map (λ k. fixes_if (slice_index_or kept.now k false) (map (redirected_fix places.now.places.now places.now.first places.now.table places.now.offsets.now) (slice_index_or fixups.old.items k []))) (range_with_len 0 (length fixups.old.items)) }
{
    for k in 0..fixups.len() {
        keep_field(alloc, &mut fixups[k], kept[k], places, no_import);
    }
}

/// Drops the fields of a piece where it is not kept, and else gives them the places of imports, where they mean any, and of pieces
/// that fold.
fn keep_field(
    alloc: Global,
    fixups: &mut Fixups,
    kept: bool,
    places: &SlotPlaces<'_>,
    no_import: bool,
)
    requires { no_import ≡ true → kept ≡ true
        → map (redirected_fix places.now.places.now places.now.first places.now.table places.now.offsets.now) fixups.old ≡ fixups.old }
    ensures { fixups.new ≡ fixes_if kept (map (redirected_fix places.now.places.now places.now.first places.now.table places.now.offsets.now) fixups.old) }
{
    if !kept {
        *fixups = Fixups::none(alloc);
        return;
    }
    if !no_import {
        fixups.redirect(places.places, places.first, places.table, places.offsets);
    }
}

/// Appends so many times no fields.
pub(crate) fn push_none(alloc: Global, fixups: &mut Vec<Fixups>, count: usize) -> Result<(), Memory>
    ensures { OnOk result (fixups.new.items ≡ fixups.old.items ++ replicate count []) }
{
    for _ in 0..count {
        fixups.push(Fixups::none(alloc))?;
    }
    Ok(())
}

/// Gives the exports the places of imports and of pieces that fold.
pub(crate) fn place_exports(targets: &mut Vec<Option<Target>>, places: &SlotPlaces<'_>)
    ensures { targets.new.items ≡ map (option_map (redirected places.now.places.now places.now.first places.now.table places.now.offsets.now)) targets.old.items }
{
    for k in 0..targets.len() {
        targets[k] = placed(targets[k], places);
    }
}

/// What an export stands for, with the place of an import or of a piece that folds.
fn placed(target: Option<Target>, places: &SlotPlaces<'_>) -> Option<Target>
    ensures { result ≡ option_map (redirected places.now.places.now places.now.first places.now.table places.now.offsets.now) target }
{
    match target {
        Some(target) => Some(redirected(
            target,
            places.places,
            places.first,
            places.table,
            places.offsets,
        )),
        None => None,
    }
}

/// A place in a piece, at the place where that one stands.
pub(crate) fn placed_entry(entry: Option<EntryPlace>, places: &[u32]) -> Option<EntryPlace>
    ensures { result ≡ option_map (placed_entry places.now) entry }
{
    match entry {
        Some(EntryPlace { piece, value }) => Some(EntryPlace {
            piece: place_of(places, piece),
            value,
        }),
        None => None,
    }
}

/// The piece that is the table of slots, of the tables from an index on; the first piece where there is none.
pub(crate) fn slot_table(pieces: &[Piece<'_>], first: usize, position: u32) -> u32
    requires few { length pieces.now < 2 ^ 31 }
    requires others { (k : ℕ) → k < first → holds (is_numbered position number.SLOTS) (map bare pieces.now) k ≡ false }
    ensures { result ≡ unwrap_or (first_below (length pieces.now) (holds (is_numbered position number.SLOTS) (map bare pieces.now))) 0 }
{
    for k in first..pieces.len() {
        if is_slot_table(&pieces[k], position) {
            return k as u32;
        }
    }
    0
}

/// Whether a piece is the table of slots of the module at a position.
fn is_slot_table(piece: &Piece<'_>, position: u32) -> bool
    ensures { result ≡ is_numbered position number.SLOTS piece.now }
{
    piece.module == position && piece.number == SLOTS
}
