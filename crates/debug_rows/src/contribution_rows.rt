//! What the pieces of a link give to the sections of its image.

ghost use Rattle.std.specs.Prelude.{◌≡◌, ◌<◌, ◌≤◌, ◌^◌, ◌++◌, [], length, IfOk, OnOk};
ghost use Rattle.std.specs.List.{All, cons_option, filter_map};
ghost use Rattle.section_group.specs.Uniqueness.{row_of, rows_of};
ghost use Rattle.debug_rows.specs.Contributions.{is_listed, own_section, contribution_of, contribution_at, section_contributions, contributions_of};

use crate::rvas::rva_at;
use address_layout::Layout;
use link_base::{Memory, Name};
use module_view::Module;
use pdb_dbi::Contribution;
use section_group::{OutSection, Piece};
use std::alloc::Global;

/// A row for each piece that stands in a section and has bytes, section by section and in the order of their places. The tables
/// of exceptions and of base relocations give none. `modules` and `pieces` are those of the link, `sections` and `layout`
/// those of its image. (LLVM, "The PDB DBI (Debug Info) Stream", "Section Contribution Substream".)
pub fn contributions<'a>(
    alloc: Global,
    modules: &[Module<'a>],
    pieces: &[Piece<'a>],
    sections: &[OutSection<'a>],
    layout: &Layout,
) -> Result<Vec<Contribution>, Memory>
    requires few { length sections.now < 2 ^ 16 }
    requires places { length layout.now.sections.items ≡ length sections.now }
    requires modules { All (λ piece. piece.«module» < 2 ^ 16) pieces.now }
    ensures { IfOk result (λ list. list.items ≡ contributions_of modules.now pieces.now layout.now.sections.items layout.now.pieces.items (rows_of sections.now)) }
{
    let mut list = Vec::with_capacity(alloc, pieces.len())?;
    for (index, section) in sections.iter().enumerate() {
        push_section(
            &mut list,
            modules,
            pieces,
            layout,
            index as u16 + 1,
            section,
        )?;
    }
    Ok(list)
}

/// Appends those of the section of a number.
#[tactic(auto, unfolding(crate::specs::Contributions::section_contributions))]
fn push_section<'a>(
    list: &mut Vec<Contribution>,
    modules: &[Module<'a>],
    pieces: &[Piece<'a>],
    layout: &Layout,
    number: u16,
    section: &OutSection<'a>,
) -> Result<(), Memory>
    requires first { 1 ≤ number }
    requires last { number ≤ length layout.now.sections.items }
    requires modules { All (λ piece. piece.«module» < 2 ^ 16) pieces.now }
    ensures { OnOk result (list.new.items ≡ list.old.items ++ section_contributions modules.now pieces.now layout.now.sections.items layout.now.pieces.items (number, row_of section.now)) }
{
    if !is_listed(&section.name) {
        return Ok(());
    }
    let start = layout.sections[number as usize - 1].rva;
    push_pieces(
        list,
        modules,
        pieces,
        &layout.pieces,
        number,
        start,
        &section.pieces,
    )
}

/// Whether the pieces of a section of this name are listed.
fn is_listed(name: &Name<'_>) -> bool
    ensures { result ≡ is_listed name.now }
{
    *name != Name::of(b".pdata") && *name != Name::of(b".reloc")
}

/// Appends those of these pieces, by their indexes, of the section of a number that begins at an RVA.
fn push_pieces<'a>(
    list: &mut Vec<Contribution>,
    modules: &[Module<'a>],
    pieces: &[Piece<'a>],
    rvas: &[u32],
    number: u16,
    start: u32,
    indexes: &[u32],
) -> Result<(), Memory>
    requires { All (λ piece. piece.«module» < 2 ^ 16) pieces.now }
    ensures { OnOk result (list.new.items ≡ list.old.items ++ filter_map (contribution_at modules.now pieces.now rvas.now number start) indexes.now) }
{
    for index in indexes {
        push_piece(list, modules, pieces, rvas, number, start, *index)?;
    }
    Ok(())
}

/// Appends that of the piece of an index, where it has bytes.
fn push_piece<'a>(
    list: &mut Vec<Contribution>,
    modules: &[Module<'a>],
    pieces: &[Piece<'a>],
    rvas: &[u32],
    number: u16,
    start: u32,
    index: u32,
) -> Result<(), Memory>
    requires { All (λ piece. piece.«module» < 2 ^ 16) pieces.now }
    ensures { OnOk result (list.new.items ≡ list.old.items ++ cons_option (contribution_at modules.now pieces.now rvas.now number start index) []) }
{
    let Some(piece) = pieces.get(index as usize) else {
        return Ok(());
    };
    if piece.size == 0 {
        return Ok(());
    }
    let offset = rva_at(rvas, index).saturating_sub(start);
    list.push(contribution_of(modules, number, offset, piece))?;
    Ok(())
}

/// That of a piece at an offset in the section of a number.
fn contribution_of<'a>(
    modules: &[Module<'a>],
    number: u16,
    offset: u32,
    piece: &Piece<'a>,
) -> Contribution
    requires { piece.now.«module» < 2 ^ 16 }
    ensures { result ≡ contribution_of modules.now number offset piece.now }
{
    Contribution {
        section: number,
        offset,
        size: piece.size,
        flags: piece.flags,
        module: piece.module as u16,
        coff: own_section(modules, piece),
    }
}

/// The number of the section of its module that a piece is, or 0 where it is none.
fn own_section<'a>(modules: &[Module<'a>], piece: &Piece<'a>) -> u32
    ensures { result ≡ own_section modules.now piece.now }
{
    let Some(module) = modules.get(piece.module as usize) else {
        return 0;
    };
    match module.object() {
        Some(object) if piece.number <= object.section_count() => piece.number,
        _ => 0,
    }
}
