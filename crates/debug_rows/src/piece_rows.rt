//! The pieces that a map lists, in its order.

ghost use Rattle.std.specs.Prelude.{◌≡◌, ◌++◌, [], map, IsPermutation, IsSorted, IfOk, OnOk};
ghost use Rattle.std.specs.List.{cons_option};
ghost use Rattle.section_group.specs.Uniqueness.{row_of as section_row, rows_of as section_rows};
ghost use Rattle.debug_rows.specs.MapPieces.{key_at, section_keys, piece_keys, AreWithin, key_cmp, map_piece, row_of, map_pieces_of};

use crate::rvas::rva_at;
use address_layout::Layout;
use link_base::{Memory, Name};
use map_file::MapPiece;
use section_group::{OutSection, Piece};
use std::alloc::Global;

/// Where a piece stands, which it is, and its index. The order of keys is that of these numbers, each deciding only where those
/// before it are equal.
#[derive(Clone, Copy, PartialEq, Eq, PartialOrd, Ord)]
pub(crate) struct PieceKey {
    pub rva: u32,
    pub module: u32,
    pub number: u32,
    pub index: u32,
}

/// The pieces of a link that stand in the sections of its image, by their RVAs, and those at one by their modules and numbers.
/// The table of base relocations is none.
pub fn map_pieces<'a>(
    alloc: Global,
    pieces: &[Piece<'a>],
    sections: &[OutSection<'a>],
    layout: &Layout,
) -> Result<Vec<MapPiece<'a>>, Memory>
    ensures { IfOk result (λ rows. rows.items ≡ map_pieces_of pieces.now layout.now.pieces.items (section_rows sections.now)) }
{
    let mut keys = piece_keys(alloc, pieces, &layout.pieces, sections)?;
    sort(&mut keys);
    let rows = rows_of(alloc, pieces, &keys)?;
    Ok(rows)
}

/// The keys of the pieces, section by section.
fn piece_keys<'a>(
    alloc: Global,
    pieces: &[Piece<'a>],
    rvas: &[u32],
    sections: &[OutSection<'a>],
) -> Result<Vec<PieceKey>, Memory>
    ensures keys { IfOk result (λ keys. keys.items ≡ piece_keys pieces.now rvas.now (section_rows sections.now)) }
    ensures within { IfOk result (λ keys. AreWithin pieces.now keys.items) }
{
    let mut keys = Vec::with_capacity(alloc, pieces.len())?;
    for section in sections {
        push_section(&mut keys, pieces, rvas, section)?;
    }
    Ok(keys)
}

/// Appends those of a section.
#[tactic(auto, unfolding(crate::specs::MapPieces::section_keys))]
fn push_section<'a>(
    keys: &mut Vec<PieceKey>,
    pieces: &[Piece<'a>],
    rvas: &[u32],
    section: &OutSection<'a>,
) -> Result<(), Memory>
    ensures keys { OnOk result (keys.new.items ≡ keys.old.items ++ section_keys pieces.now rvas.now (section_row section.now)) }
    ensures within { AreWithin pieces.now keys.old.items → AreWithin pieces.now keys.new.items }
{
    if section.name == Name::of(b".reloc") {
        return Ok(());
    }
    for index in &section.pieces {
        push_key(keys, pieces, rvas, *index)?;
    }
    Ok(())
}

/// Appends that of the piece of an index, where there is one.
fn push_key<'a>(
    keys: &mut Vec<PieceKey>,
    pieces: &[Piece<'a>],
    rvas: &[u32],
    index: u32,
) -> Result<(), Memory>
    ensures keys { OnOk result (keys.new.items ≡ keys.old.items ++ cons_option (key_at pieces.now rvas.now index) []) }
    ensures within { AreWithin pieces.now keys.old.items → AreWithin pieces.now keys.new.items }
{
    let Some(piece) = pieces.get(index as usize) else {
        return Ok(());
    };
    keys.push(PieceKey {
        rva: rva_at(rvas, index),
        module: piece.module,
        number: piece.number,
        index,
    })?;
    Ok(())
}

/// Sorts keys in place. No two are level, since each has the index of its piece.
fn sort(keys: &mut Vec<PieceKey>)
    ensures permutation { IsPermutation keys.old.items keys.new.items }
    ensures sorted { IsSorted key_cmp keys.new.items }
{
    keys.sort_unstable();
}

/// The pieces of keys, in their order.
fn rows_of<'a>(
    alloc: Global,
    pieces: &[Piece<'a>],
    keys: &[PieceKey],
) -> Result<Vec<MapPiece<'a>>, Memory>
    requires { AreWithin pieces.now keys.now }
    ensures { IfOk result (λ rows. rows.items ≡ map (row_of pieces.now) keys.now) }
{
    let mut rows = Vec::with_capacity(alloc, keys.len())?;
    for key in keys {
        rows.push(map_piece(&pieces[key.index as usize], key.rva))?;
    }
    Ok(rows)
}

/// A piece at an RVA.
fn map_piece<'a>(piece: &Piece<'a>, rva: u32) -> MapPiece<'a>
    ensures { result ≡ map_piece piece.now rva }
{
    MapPiece {
        rva,
        size: piece.size,
        module: piece.module,
        name: piece.name.again(),
    }
}
