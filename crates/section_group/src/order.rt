//! The order of the pieces inside a section: one sort of keys, where they do not stand in order.

ghost use Rattle.std.specs.Prelude.{◌≡◌, ◌<◌, ◌-◌, ◌==◌, ℕ, IfOk, IsTrue, IsPermutation, IsSorted, All, AllPairs, length, map, slice_index};
ghost use Rattle.std.specs.List.{IsDistinct};
ghost use Rattle.std.specs.Ordering.{is_lt};
ghost use Rattle.section_group.specs.SectionOrder.{inside_cmp};
ghost use Rattle.section_group.specs.Gathering.{input_of};
ghost use Rattle.section_group.specs.Steps.{ComesBehind};
ghost use Rattle.section_group.specs.Keys.{piece_key, key_cmp, IsWithin};

use crate::key::PieceKey;
use crate::owners::precedes;
use crate::parts::Parts;
use link_base::{Memory, Name};
use std::alloc::Global;

/// The pieces of a section in order.
pub(crate) fn order_pieces(
    alloc: Global,
    parts: &Parts<'_, '_>,
    members: &[u32],
) -> Result<Vec<u32>, Memory>
    requires within { All (IsWithin (length parts.now.pieces.now)) members.now }
    requires distinct { IsDistinct (λ j k. j == k) members.now }
    ensures permutation { IfOk result (λ ordered. IsPermutation members.now ordered.items) }
    ensures ascending { IfOk result (λ ordered. AllPairs (λ j k. IsTrue (is_lt (inside_cmp (input_of parts.now) j k))) ordered.items) }
{
    if ascend(parts, members) {
        return Ok(Vec::from_slice(alloc, members)?);
    }
    sort_pieces(alloc, parts, members)
}

/// Whether each piece comes behind the one before it: then they stand in order already.
fn ascend(parts: &Parts<'_, '_>, members: &[u32]) -> bool
    requires { All (IsWithin (length parts.now.pieces.now)) members.now }
    ensures ascending { IsTrue result → AllPairs (λ j k. IsTrue (is_lt (inside_cmp (input_of parts.now) j k))) members.now }
    ensures found { ((at : ℕ) → 0 < at → at < length members.now → ComesBehind (input_of parts.now) (slice_index members.now at) (slice_index members.now (at - 1))) → IsTrue result }
{
    for at in 1..members.len() {
        if !comes_behind(parts, members[at], members[at - 1]) {
            return false;
        }
    }
    true
}

/// Whether a piece has the name of another, is initialised as it is, and comes behind it.
fn comes_behind(parts: &Parts<'_, '_>, index: u32, other: u32) -> bool
    requires index { index < length parts.now.pieces.now }
    requires other { other < length parts.now.pieces.now }
    ensures behind { IsTrue result → IsTrue (is_lt (inside_cmp (input_of parts.now) other index)) }
    ensures found { ComesBehind (input_of parts.now) index other → IsTrue result }
{
    let (index, other) = (index as usize, other as usize);
    let (piece, before) = (&parts.pieces[index], &parts.pieces[other]);
    if !parts.share_name(other, index) || before.init != piece.init {
        return false;
    }
    precedes(parts, other, index)
}

/// The pieces in order, by a sort of their keys.
fn sort_pieces(alloc: Global, parts: &Parts<'_, '_>, members: &[u32]) -> Result<Vec<u32>, Memory>
    requires within { All (IsWithin (length parts.now.pieces.now)) members.now }
    requires distinct { IsDistinct (λ j k. j == k) members.now }
    ensures permutation { IfOk result (λ ordered. IsPermutation members.now ordered.items) }
    ensures ascending { IfOk result (λ ordered. AllPairs (λ j k. IsTrue (is_lt (inside_cmp (input_of parts.now) j k))) ordered.items) }
{
    let mut keys = keys_of(alloc, parts, members)?;
    sort_keys(&mut keys);
    indexes_of(alloc, &keys)
}

fn indexes_of(alloc: Global, keys: &[PieceKey<'_>]) -> Result<Vec<u32>, Memory>
    ensures { IfOk result (λ indexes. indexes.items ≡ map (λ key. key.index) keys.now) }
{
    let mut indexes = Vec::with_capacity(alloc, keys.len())?;
    for key in keys {
        indexes.push(key.index)?;
    }
    Ok(indexes)
}

/// The keys of the pieces of a section.
fn keys_of<'a>(
    alloc: Global,
    parts: &Parts<'_, 'a>,
    members: &[u32],
) -> Result<Vec<PieceKey<'a>>, Memory>
    requires { All (IsWithin (length parts.now.pieces.now)) members.now }
    ensures { IfOk result (λ keys. keys.items ≡ map (piece_key (input_of parts.now)) members.now) }
{
    let mut keys = Vec::with_capacity(alloc, members.len())?;
    for index in members {
        keys.push(key_of(parts, *index))?;
    }
    Ok(keys)
}

/// The keys of a piece.
fn key_of<'a>(parts: &Parts<'_, 'a>, index: u32) -> PieceKey<'a>
    requires { index < length parts.now.pieces.now }
    ensures { result ≡ piece_key (input_of parts.now) index }
{
    let piece = &parts.pieces[index as usize];
    let cut = parts.cut(index as usize);
    PieceKey {
        uninitialised: !piece.init,
        merged: cut.merged,
        merged_name: if cut.merged {
            cut.base.again()
        } else {
            Name::of(b"")
        },
        suffix: cut.suffix.again(),
        module: piece.module,
        number: piece.number,
        index,
    }
}

/// Sorts keys in place. No two are level, since each has the index of its piece.
fn sort_keys(keys: &mut Vec<PieceKey<'_>>)
    ensures permutation { IsPermutation keys.old.items keys.new.items }
    ensures sorted { IsSorted key_cmp keys.new.items }
{
    keys.sort_unstable();
}
