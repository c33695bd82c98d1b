//! The pieces of a link.

ghost use Rattle.std.specs.Prelude.{◌≡◌, ◌≤◌, ◌<◌, ◌+◌, ◌++◌, ◌∷◌, ◌-◌, ◌^◌, [], ℕ, false, None, length, slice_index_or, is_some, unwrap_or, map, All, IfOk, OnOk, if◌then◌else◌};
ghost use Rattle.std.specs.Option.{option_copied};
ghost use Rattle.link_base.specs.Limits as limit;
ghost use Rattle.coff_records.specs.ObjectFile.{section_total, record_total};
ghost use Rattle.section_group.specs.BarePieces.{bare};
ghost use Rattle.address_layout.specs.Layout.{IsAlignment};
ghost use Rattle.section_group.specs.PieceContents.{piece_contents, HasItsBytes};
ghost use Rattle.module_view.specs.Opening.{IsOpened};
ghost use Rattle.section_rules.specs.PlacedSection.{is_placed};
ghost use Rattle.link_directives.specs.Alignments.{AreAsked};
ghost use Rattle.link_pieces.specs.Commons.{is_meant_common, meant_commons, common_piece, HasFewSections, FIRST_COMMON};
ghost use Rattle.link_pieces.specs.Rows.{HasSomePlace};
ghost use Rattle.link_pieces.specs.LocalSlots.{slot_names};
ghost use Rattle.link_pieces.specs.LinkerPieces.{numbers_below};
ghost use Rattle.link_pieces.specs.Pieces.{is_named, is_linked, piece_of, section_contents, no_contents, linked_sections, pieces_in, contents_in, link_pieces, link_contents};

use crate::commons::{FIRST_COMMON, common_piece, is_meant};
use crate::linker::push_slots;
use crate::named::name_sections;
use crate::names::LinkNames;
use coff_object::{Object, Section};
use link_base::Memory;
use link_directives::CommonAlignments;
use link_imports::push_thunks;
use module_view::{Common, Module};
use section_group::Piece;
use section_rules::comes_in;
use std::alloc::Global;

/// So many pieces are enough for the tables, which come after the others.
pub const TABLES: usize = 16;

/// The number of pieces stays below this one, with room for the tables.
const PIECE_LIMIT: usize = (1 << 31) - TABLES;

/// The number of symbol records of a module with pieces stays below this one.
const RECORD_LIMIT: u32 = 1 << 31;

/// The sections of the modules that come into the image, and the commons that names mean: module by module, and in each the
/// sections in the order of their headers before the commons in the order of their symbols. Then come a jump for each import of
/// code, and the local slots, so many as the link refers to. Too many pieces are want of memory, and so are too many sections or symbol records of one module.
pub fn pieces_of<'a>(
    alloc: Global,
    names: &LinkNames<'a>,
    modules: &[Module<'a>],
    slots: usize,
) -> Result<Vec<Piece<'a>>, Memory>
    requires same { names.now.modules ≡ modules.now }
    requires few { length modules.now ≤ limit.MODULE_LIMIT }
    requires slots { slots ≡ length (slot_names names.now) }
    requires few_slots { numbers_below slots ≤ FIRST_COMMON }
    ensures pieces { IfOk result (λ pieces. map bare pieces.items ≡ link_pieces names.now) }
    ensures contents { IfOk result (λ pieces. map piece_contents pieces.items ≡ link_contents names.now) }
    ensures aligned { IfOk result (λ pieces. All (λ piece. IsAlignment piece.align) pieces.items) }
    ensures bodies { IfOk result (λ pieces. (k : ℕ) → k < length pieces.items → HasItsBytes pieces.items k) }
    ensures count { IfOk result (λ pieces. length pieces.items < 2 ^ 31 - 16) }
    ensures opened { OnOk result (All IsOpened modules.now) }
    ensures placed { IfOk result (λ pieces. All (λ piece. HasSomePlace modules.now slots piece.«module» piece.number) pieces.items) }
{
    let alignments = CommonAlignments::of(alloc, modules)?;
    let mut pieces = Vec::with_capacity(alloc, modules.len() + TABLES)?;
    let mut named = Vec::new(alloc);
    for position in 0..modules.len() {
        push_module(
            &mut pieces,
            &mut named,
            names,
            &alignments,
            position as u32,
            &modules[position],
        )?;
    }
    push_thunks(&mut pieces, modules)?;
    push_slots(&mut pieces, modules.len() as u32, slots)?;
    if pieces.len() >= PIECE_LIMIT {
        return Err(Memory);
    }
    Ok(pieces)
}

/// Appends the pieces of the module at a position. Of `named` the memory is used, and no more.
fn push_module<'a>(
    pieces: &mut Vec<Piece<'a>>,
    named: &mut Vec<bool>,
    names: &LinkNames<'a>,
    alignments: &CommonAlignments<'a>,
    position: u32,
    module: &Module<'a>,
) -> Result<(), Memory>
    requires { AreAsked names.now.modules alignments.now }
    ensures pieces { OnOk result (map bare pieces.new.items
        ≡ map bare pieces.old.items ++ pieces_in names.now position «module».now.bytes) }
    ensures contents { OnOk result (map piece_contents pieces.new.items
        ≡ map piece_contents pieces.old.items ++ contents_in names.now position «module».now.bytes) }
    ensures opened { OnOk result (IsOpened «module».now) }
    ensures few_sections { OnOk result (HasFewSections «module».now) }
{
    let Some(object) = module.object() else {
        return Ok(());
    };
    let count = object.section_count();
    if count >= FIRST_COMMON || object.record_count() >= RECORD_LIMIT {
        return Err(Memory);
    }
    pieces.reserve(count as usize)?;
    name_sections(named, module, count)?;
    push_sections(pieces, names, position, object, named)?;
    push_commons(pieces, names, alignments, position, module)
}

/// Appends the pieces of an object's sections, with what is known of each by its number.
fn push_sections<'a>(
    pieces: &mut Vec<Piece<'a>>,
    names: &LinkNames<'a>,
    position: u32,
    object: &Object<'a>,
    named: &[bool],
) -> Result<(), Memory>
    requires count { length named.now ≡ section_total object.now + 1 }
    requires named { (section : ℕ) → slice_index_or named.now section false ≡ is_named object.now section }
    ensures pieces { OnOk result (map bare pieces.new.items
        ≡ map bare pieces.old.items ++ map (piece_of position object.now) (linked_sections names.now position object.now)) }
    ensures contents { OnOk result (map piece_contents pieces.new.items
        ≡ map piece_contents pieces.old.items ++ map (section_contents object.now) (linked_sections names.now position object.now)) }
{
    for index in 0..object.section_count() {
        let number = index + 1;
        push_section(
            pieces,
            names,
            position,
            object,
            number,
            named[number as usize],
        )?;
    }
    Ok(())
}

/// Appends the piece of a section, where it takes part in the link and comes into the image.
fn push_section<'a>(
    pieces: &mut Vec<Piece<'a>>,
    names: &LinkNames<'a>,
    position: u32,
    object: &Object<'a>,
    number: u32,
    named: bool,
) -> Result<(), Memory>
    requires first { 1 ≤ number }
    requires last { number ≤ section_total object.now }
    requires named { named ≡ is_named object.now number }
    ensures pieces { OnOk result (map bare pieces.new.items ≡ map bare pieces.old.items
        ++ (if is_linked names.now position object.now number then piece_of position object.now number ∷ [] else [])) }
    ensures contents { OnOk result (map piece_contents pieces.new.items ≡ map piece_contents pieces.old.items
        ++ (if is_linked names.now position object.now number then section_contents object.now number ∷ [] else [])) }
{
    if !names.takes_part(position, number) {
        return Ok(());
    }
    let section = object.section(number);
    if comes_in(section.flags, &section.name) {
        pieces.push(piece_of(position, number, section, named))?;
    }
    Ok(())
}

/// Appends the pieces of the commons of the module at a position that names mean.
fn push_commons<'a>(
    pieces: &mut Vec<Piece<'a>>,
    names: &LinkNames<'a>,
    alignments: &CommonAlignments<'a>,
    position: u32,
    module: &Module<'a>,
) -> Result<(), Memory>
    requires asked { AreAsked names.now.modules alignments.now }
    requires few { record_total «module».now.bytes < 2 ^ 31 }
    ensures pieces { OnOk result (map bare pieces.new.items
        ≡ map bare pieces.old.items ++ map (common_piece names.now.modules position) (meant_commons names.now position «module».now.bytes)) }
    ensures contents { OnOk result (map piece_contents pieces.new.items
        ≡ map piece_contents pieces.old.items ++ map no_contents (meant_commons names.now position «module».now.bytes)) }
{
    for common in module.commons() {
        push_common(pieces, names, alignments, position, common)?;
    }
    Ok(())
}

/// Appends the piece of a common, where some name means it.
fn push_common<'a>(
    pieces: &mut Vec<Piece<'a>>,
    names: &LinkNames<'a>,
    alignments: &CommonAlignments<'a>,
    position: u32,
    common: &Common<'a>,
) -> Result<(), Memory>
    requires asked { AreAsked names.now.modules alignments.now }
    requires few { common.now.symbol < 2 ^ 31 }
    ensures pieces { OnOk result (map bare pieces.new.items ≡ map bare pieces.old.items
        ++ (if is_meant_common names.now position common.now then common_piece names.now.modules position common.now ∷ [] else [])) }
    ensures contents { OnOk result (map piece_contents pieces.new.items ≡ map piece_contents pieces.old.items
        ++ (if is_meant_common names.now position common.now then no_contents common.now ∷ [] else [])) }
{
    if is_meant(names, position, common) {
        pieces.push(common_piece(alignments, position, common))?;
    }
    Ok(())
}

/// The piece that a section is.
fn piece_of(position: u32, number: u32, section: Section<'_>, named: bool) -> Piece<'_>
    ensures piece { bare result ≡ record {
      «module» = position;
      number = number;
      name = section.entry.name;
      flags = section.entry.flags;
      size = section.entry.size;
      align = section.entry.align;
      body = None;
      init = is_some (option_copied section.entry.body);
      named = named;
    } }
    ensures contents { piece_contents result ≡ unwrap_or (option_copied section.entry.body) [] }
{
    let Section {
        name,
        flags,
        size,
        align,
        body,
    } = section;
    Piece {
        module: position,
        number,
        name,
        flags,
        size,
        align,
        body,
        init: body.is_some(),
        named,
    }
}
