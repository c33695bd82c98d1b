//! The sections in order, each with its pieces in order.

ghost use Rattle.std.specs.Prelude.{◌≡◌, ◌<◌, ◌&&◌, ◌==◌, ℕ, List, true, length, IfOk, IsPermutation, IsSorted, slice_index_or, slice_get, Some};
ghost use Rattle.std.specs.List.{All};
ghost use Rattle.section_group.specs.SectionOrder.{rank_of};
ghost use Rattle.section_group.specs.Gathering.{input_of};
ghost use Rattle.section_group.specs.Keys.{section_cmp};
ghost use Rattle.section_group.specs.Sections.{Gathers, OrdersSections, IsKey, IsBuilt, AreBuilt, is_needed, home_at, pieces_at};

use crate::content::{content_flags, first_piece, is_needed};
use crate::homes::Home;
use crate::key::SectionKey;
use crate::order::order_pieces;
use crate::parts::Parts;
use crate::piece::OutSection;
use indexmap::IndexSet;
use link_base::{Memory, Name};
use std::alloc::Global;

/// The sections that are there, in order.
pub(crate) fn build_sections<'a>(
    alloc: Global,
    parts: &Parts<'_, 'a>,
    homes: &IndexSet<Home<'a>>,
    members: &[Vec<u32>],
) -> Result<Vec<OutSection<'a>>, Memory>
    requires { Gathers (input_of parts.now) homes.now.keys members.now }
    ensures { IfOk result (λ sections. (keys : List SectionKey) × OrdersSections (input_of parts.now) homes.now.keys members.now keys
        × AreBuilt (input_of parts.now) homes.now.keys members.now keys (length keys) sections.items) }
{
    let keys = order_sections(alloc, parts, homes, members)?;
    let mut sections = Vec::with_capacity(alloc, keys.len())?;
    for key in &keys {
        sections.push(build_section(alloc, parts, homes, members, key.section)?)?;
    }
    Ok(sections)
}

/// A section with its pieces in order.
fn build_section<'a>(
    alloc: Global,
    parts: &Parts<'_, 'a>,
    homes: &IndexSet<Home<'a>>,
    members: &[Vec<u32>],
    section: usize,
) -> Result<OutSection<'a>, Memory>
    requires gathered { Gathers (input_of parts.now) homes.now.keys members.now }
    requires within { section < length homes.now.keys }
    ensures { IfOk result (IsBuilt (input_of parts.now) (home_at homes.now.keys section) (pieces_at members.now section)) }
{
    let pieces = order_pieces(alloc, parts, pieces_of(members, section))?;
    let home = &homes[section];
    Ok(OutSection {
        name: home.name.again(),
        flags: home.attributes | content_flags(parts, &pieces),
        pieces,
    })
}

/// The keys of the sections that are there, in order.
fn order_sections<'a>(
    alloc: Global,
    parts: &Parts<'_, 'a>,
    homes: &IndexSet<Home<'a>>,
    members: &[Vec<u32>],
) -> Result<Vec<SectionKey>, Memory>
    requires { Gathers (input_of parts.now) homes.now.keys members.now }
    ensures { IfOk result (λ keys. OrdersSections (input_of parts.now) homes.now.keys members.now keys.items) }
{
    let mut keys = Vec::with_capacity(alloc, members.len())?;
    for section in 0..members.len() {
        if is_needed(parts, pieces_of(members, section)) {
            keys.push(section_key(parts, homes, members, section))?;
        }
    }
    sort_keys(&mut keys);
    Ok(keys)
}

/// The key of a section.
fn section_key<'a>(
    parts: &Parts<'_, 'a>,
    homes: &IndexSet<Home<'a>>,
    members: &[Vec<u32>],
    section: usize,
) -> SectionKey
    requires gathered { Gathers (input_of parts.now) homes.now.keys members.now }
    requires within { section < length homes.now.keys }
    requires needed { is_needed (input_of parts.now) members.now section ≡ true }
    ensures key { IsKey (input_of parts.now) homes.now.keys members.now result }
    ensures section { result.section ≡ section }
{
    let index = first_piece(parts, pieces_of(members, section));
    let piece = &parts.pieces[index as usize];
    SectionKey {
        rank: rank_of(&homes[section].name),
        module: piece.module,
        number: piece.number,
        index,
        section,
    }
}

fn pieces_of(members: &[Vec<u32>], section: usize) -> &[u32]
    requires { section < length members.now }
    ensures { result.now ≡ pieces_at members.now section }
{
    &members[section]
}

/// Sorts keys in place. No two are level, since each has the number of its section.
fn sort_keys(keys: &mut Vec<SectionKey>)
    ensures permutation { IsPermutation keys.old.items keys.new.items }
    ensures sorted { IsSorted section_cmp keys.new.items }
{
    keys.sort_unstable();
}

/// The rank of a section by its name.
fn rank_of(name: &Name<'_>) -> u32
    ensures { result ≡ rank_of name.now }
{
    if *name == Name::of(b".text") {
        0
    } else if *name == Name::of(b".rdata") {
        1
    } else if *name == Name::of(b".data") {
        2
    } else if *name == Name::of(b".pdata") {
        3
    } else if *name == Name::of(b".rsrc") {
        5
    } else if *name == Name::of(b".reloc") {
        6
    } else {
        4
    }
}
