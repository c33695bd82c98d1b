//! Which piece a section, a common or what the linker makes is.

ghost use Rattle.std.specs.Prelude.{◌≡◌, ◌<◌, ◌^◌, ◌≤◌, ◌+◌, ◌-◌, ℕ, All, [], is_some, length, map, slice_index_or, Option, None, Some, IfOk, if◌then◌else◌};
ghost use Rattle.section_group.specs.BarePieces.{bare};
ghost use Rattle.link_pieces.specs.Pieces.{link_pieces};
ghost use Rattle.synthetic_sections.specs.LinkerPieces as slot;
ghost use Rattle.link_pieces.specs.LocalSlots.{slot_names};
ghost use Rattle.coff_records.specs.ObjectFile.{section_total};
ghost use Rattle.link_pieces.specs.LinkParts.{LinkParts};
ghost use Rattle.link_pieces.specs.Commons.{FIRST_COMMON};
ghost use Rattle.link_base.specs.Limits.{MODULE_LIMIT};
ghost use Rattle.link_imports.specs.Imports.{is_import};
ghost use Rattle.link_pieces.specs.PieceIndex.{indexed, linker_indexed, slot_indexed, IsPieceIndex};
ghost use Rattle.link_pieces.specs.Rows.{section_places, common_places, HasRows, HasSomePlace};

use crate::commons::FIRST_COMMON;
use crate::linker_rows::LinkerRows;
use crate::piece_rows::PieceRows;
use crate::slots::LocalSlots;
use link_base::{Memory, Name};
use module_view::Module;
use section_group::Piece;
use std::alloc::Global;
use std::marker::Model;
use synthetic_sections::{FIRST_LOCAL_SLOT, FIRST_THUNK};

/// The piece of each section that comes into the image, by the position of its module and its number, that of each common
/// that a name means, by the record of its symbol, the jump of each import of code, and that of each local slot, by its name;
/// and behind the pieces the number of each import.
#[derive(Drop)]
pub struct PieceIndex<'a> {
    sections: PieceRows,
    commons: PieceRows,
    slots: LocalSlots<'a>,
    linker: LinkerRows,
    /// The number of the import that is a module, by the module's position.
    imports: Vec<Option<u32>>,
}

impl<'a> Model for PieceIndex<'a> {
    ghost use Rattle.link_pieces.specs.PieceIndex.{IndexView};

    ghost Value = { IndexView };

    ghost use Rattle.link_pieces.specs.Rows.{index_of};

    ghost view = { λ index. index_of index.sections index.commons index.slots index.linker index.imports.items };
}

impl<'a> PieceIndex<'a> {
    /// The index of the pieces of these modules, with these local slots. More than 2^32 places are want of memory.
    pub fn new(
        alloc: Global,
        modules: &[Module<'_>],
        slots: LocalSlots<'a>,
        pieces: &[Piece<'_>],
    ) -> Result<PieceIndex<'a>, Memory>
        requires few_modules { length modules.now ≤ MODULE_LIMIT }
        requires placed { All (λ piece. HasSomePlace modules.now (length slots) piece.«module» piece.number) pieces.now }
        requires few { length pieces.now < 2 ^ 31 }
        ensures { IfOk result (λ index. (link : LinkParts) → link.modules ≡ modules.now → slot_names link ≡ slots.entry → map bare pieces.now ≡ link_pieces link → IsPieceIndex link index) }
    {
        let mut sections = section_rows(alloc, modules)?;
        let mut commons = common_rows(alloc, modules)?;
        let mut linker = LinkerRows::empty(alloc, modules.len(), slots.len())?;
        let imports = import_numbers(alloc, modules, pieces.len() as u32)?;
        for index in 0..pieces.len() {
            let piece = &pieces[index];
            if piece.module as usize == modules.len() {
                linker.note(piece.number, index as u32);
            } else if piece.number < FIRST_COMMON {
                sections.note(piece.module, piece.number, index as u32);
            } else {
                commons.note(piece.module, piece.number - FIRST_COMMON, index as u32);
            }
        }
        Ok(PieceIndex {
            sections,
            commons,
            slots,
            linker,
            imports,
        })
    }

    /// The piece that is a section of the module at a position, where it comes into the image.
    pub fn of(&self, module: u32, section: u32) -> Option<u32>
        ensures { result ≡ indexed self.now.sections «module» section }
    {
        self.sections.at(module, section)
    }

    /// The piece that is a common of the module at a position, by the record of its symbol, where some name means it.
    pub fn of_common(&self, module: u32, symbol: u32) -> Option<u32>
        ensures { result ≡ indexed self.now.commons «module» symbol }
    {
        self.commons.at(module, symbol)
    }

    /// The piece that is the local slot of a name, where the link refers to it.
    pub fn of_slot(&self, name: &Name<'a>) -> Option<u32>
        ensures { result ≡ slot_indexed self.now name.now }
    {
        let slot = self.slots.number(name)?;
        self.linker
            .at(u64::from(FIRST_LOCAL_SLOT) + u64::from(slot))
    }

    /// The number of the import that is the module at a position, where it is one.
    pub fn of_import(&self, module: u32) -> Option<u32>
        ensures { result ≡ slice_index_or self.now.imports «module» None }
    {
        *self.imports.get(module as usize)?
    }

    /// The piece that is the jump of the import that is the module at a position, where it has one.
    pub fn of_thunk(&self, module: u32) -> Option<u32>
        ensures { result ≡ linker_indexed self.now.linker (slot.FIRST_THUNK + «module») }
    {
        self.linker.at(u64::from(FIRST_THUNK) + u64::from(module))
    }

    /// The name whose slot has a number among the pieces that the linker makes.
    pub fn slot_name(&self, number: u32) -> Name<'a>
        requires { slot.FIRST_LOCAL_SLOT ≤ number }
        ensures { result ≡ slice_index_or self.now.slots (number - slot.FIRST_LOCAL_SLOT) [] }
    {
        self.slots.name(number - FIRST_LOCAL_SLOT)
    }
}

/// The number of each module that is an import, behind those of so many pieces.
fn import_numbers(
    alloc: Global,
    modules: &[Module<'_>],
    pieces: u32,
) -> Result<Vec<Option<u32>>, Memory>
    requires few_modules { length modules.now ≤ MODULE_LIMIT }
    requires few { pieces < 2 ^ 31 }
    ensures { IfOk result (λ numbers. (position : ℕ) → slice_index_or numbers.items position None
        ≡ (if is_import modules.now position then Some (pieces + position) else None)) }
{
    let mut numbers = Vec::with_capacity(alloc, modules.len())?;
    for position in 0..modules.len() {
        numbers.push(import_number(&modules[position], pieces + position as u32))?;
    }
    Ok(numbers)
}

/// A number, where a module is an import.
fn import_number(module: &Module<'_>, number: u32) -> Option<u32>
    ensures { result ≡ (if is_some «module».now.imported then Some number else None) }
{
    match module.import() {
        Some(_) => Some(number),
        None => None,
    }
}

/// A row for each module, with nothing for each section and for the number 0.
fn section_rows(alloc: Global, modules: &[Module<'_>]) -> Result<PieceRows, Memory>
    ensures { IfOk result (λ rows. HasRows section_places modules.now rows) }
{
    let mut starts = Vec::with_capacity(alloc, modules.len() + 1)?;
    let mut end = 0;
    starts.push(end)?;
    for module in modules {
        end = row_end(end, u64::from(section_count(module)) + 1)?;
        starts.push(end)?;
    }
    PieceRows::empty(alloc, starts, end)
}

/// A row for each module, with nothing for each symbol record of one that has commons.
fn common_rows(alloc: Global, modules: &[Module<'_>]) -> Result<PieceRows, Memory>
    ensures { IfOk result (λ rows. HasRows common_places modules.now rows) }
{
    let mut starts = Vec::with_capacity(alloc, modules.len() + 1)?;
    let mut end = 0;
    starts.push(end)?;
    for module in modules {
        end = row_end(end, u64::from(common_count(module)))?;
        starts.push(end)?;
    }
    PieceRows::empty(alloc, starts, end)
}

/// Where a row ends that has so many places.
fn row_end(start: u32, places: u64) -> Result<u32, Memory>
    requires { places ≤ 2 ^ 32 }
    ensures { IfOk result (λ end. end ≡ start + places) }
{
    match u32::try_from(u64::from(start) + places) {
        Ok(end) => Ok(end),
        Err(_) => Err(Memory),
    }
}

/// How many symbol records a module has, where it has commons.
fn common_count(module: &Module<'_>) -> u32
    ensures { result ≡ common_places «module».now.bytes }
{
    if module.commons().is_empty() {
        return 0;
    }
    match module.object() {
        Some(object) => object.record_count(),
        None => 0,
    }
}

/// How many sections a module has.
fn section_count(module: &Module<'_>) -> u32
    ensures { result ≡ section_total «module».now.bytes }
{
    match module.object() {
        Some(object) => object.section_count(),
        None => 0,
    }
}
