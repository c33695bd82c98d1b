//! The first piece of each base name, which decides the section of what is merged into that name.

ghost use Rattle.std.specs.Prelude.{◌≡◌, ◌+◌, ◌<◌, IsTrue, ◌≤◌, length, OnOk, IfOk, bit_and, Some, true, List, ℕ};
ghost use Rattle.std.specs.Option.{option_map_or};
ghost use Rattle.std.specs.Ordering.{is_lt};
ghost use Rattle.indexmap.specs.IndexMap.{get};
ghost use Rattle.section_group.specs.SectionOrder.{is_used, place_cmp, base_name, piece_at};
ghost use Rattle.section_group.specs.Placement.{section_attributes, deciding_piece};
ghost use Rattle.section_group.specs.Merging.{same_name};
ghost use Rattle.section_group.specs.Steps.{FollowsItsLike};
ghost use Rattle.section_group.specs.Gathering.{input_of, AreOwners, IsFirstUpTo, FollowsAnOwner};

use crate::parts::Parts;
use indexmap::IndexMap;
use link_base::pe_format::SCN_MEM_ATTRIBUTES;
use link_base::{Memory, Name};
use std::alloc::Global;

/// Whether a piece comes before another by module and number.
pub(crate) fn precedes(parts: &Parts<'_, '_>, index: usize, other_index: usize) -> bool
    requires index { index < length parts.now.pieces.now }
    requires other { other_index < length parts.now.pieces.now }
    ensures { result ≡ is_lt (place_cmp (input_of parts.now) index other_index) }
{
    let piece = &parts.pieces[index];
    let other = &parts.pieces[other_index];
    (piece.module, piece.number, index) < (other.module, other.number, other_index)
}

/// The first used piece of each base name, by module and number.
pub(crate) fn first_owners<'a>(
    alloc: Global,
    parts: &Parts<'_, 'a>,
) -> Result<IndexMap<Name<'a>, usize>, Memory>
    ensures { IfOk result (λ owners. AreOwners (input_of parts.now) owners.entries) }
{
    let mut owners = IndexMap::new(alloc);
    for index in 0..parts.pieces.len() {
        if parts.used[index] {
            take_owner(&mut owners, parts, index)?;
        }
    }
    Ok(owners)
}

/// Notes a used piece as the owner of its base name, where it comes before the one that is noted.
fn take_owner<'a>(
    owners: &mut IndexMap<Name<'a>, usize>,
    parts: &Parts<'_, 'a>,
    index: usize,
) -> Result<(), Memory>
    requires used { IsTrue (is_used (input_of parts.now) index) }
    requires so_far { (name : List ℕ) → IsFirstUpTo (input_of parts.now) index name (get same_name owners.old name) }
    ensures { OnOk result ((name : List ℕ) → IsFirstUpTo (input_of parts.now) (index + 1) name (get same_name owners.new name)) }
{
    if follows_its_like(parts, index) {
        return Ok(());
    }
    let base = &parts.cut(index).base;
    if is_first(owners, parts, index) {
        owners.insert(base.again(), index)?;
    }
    Ok(())
}

/// Whether the piece before it is used, has its name and comes before it: then it is not the first of its base name.
fn follows_its_like(parts: &Parts<'_, '_>, index: usize) -> bool
    requires { index < length parts.now.pieces.now }
    ensures follows { IsTrue result → FollowsAnOwner (input_of parts.now) index }
    ensures found { FollowsItsLike (input_of parts.now) index → IsTrue result }
{
    if index == 0 || !parts.used[index - 1] {
        return false;
    }
    if !parts.share_name(index - 1, index) {
        return false;
    }
    precedes(parts, index - 1, index)
}

/// Whether a piece comes before the owner that is noted for its base name.
fn is_first<'a>(owners: &IndexMap<Name<'a>, usize>, parts: &Parts<'_, 'a>, index: usize) -> bool
    requires within { index < length parts.now.pieces.now }
    requires so_far { (name : List ℕ) → IsFirstUpTo (input_of parts.now) index name (get same_name owners.now name) }
    ensures { result ≡ option_map_or (λ first. is_lt (place_cmp (input_of parts.now) index first))
        (get same_name owners.now (base_name (piece_at (input_of parts.now) index).name)) true }
{
    match owners.get(&parts.cut(index).base) {
        Some(first) => precedes(parts, index, *first),
        None => true,
    }
}

/// The attributes of the section of a used piece.
pub(crate) fn attributes<'a>(
    parts: &Parts<'_, 'a>,
    owners: &IndexMap<Name<'a>, usize>,
    index: usize,
) -> u32
    requires within { index < length parts.now.pieces.now }
    requires owners { AreOwners (input_of parts.now) owners.now.entries }
    ensures { result ≡ section_attributes (input_of parts.now) index }
{
    let deciding = deciding_piece(parts, owners, index);
    parts.pieces[deciding].flags & SCN_MEM_ATTRIBUTES
}

/// The piece whose attributes decide: the first owner of the section's name, for a merged piece and for the exception
/// table, and else the piece itself.
fn deciding_piece<'a>(
    parts: &Parts<'_, 'a>,
    owners: &IndexMap<Name<'a>, usize>,
    index: usize,
) -> usize
    requires within { index < length parts.now.pieces.now }
    requires owners { AreOwners (input_of parts.now) owners.now.entries }
    ensures piece { result ≡ deciding_piece (input_of parts.now) index }
    ensures within { result < length parts.now.pieces.now }
{
    let cut = parts.cut(index);
    if !cut.follows_owner {
        return index;
    }
    match owners.get(&cut.section) {
        Some(owner) => *owner,
        None => index,
    }
}
