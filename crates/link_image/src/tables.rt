//! The tables of a link, once their pieces have places, and the directories.

ghost use Rattle.std.specs.Prelude.{◌≡◌, ◌<◌, ◌^◌, ◌+◌, ℕ, Some, None, length, map, take, slice_index, slice_index_or, if◌then◌else◌, All, IfSome, IfOk};
ghost use Rattle.std.specs.Option.{option_or};
ghost use Rattle.section_group.specs.Uniqueness.{rows_of};
ghost use Rattle.section_group.specs.PieceContents.{piece_contents};
ghost use Rattle.piece_bytes.specs.Extents.{rva_of, extent_of};
ghost use Rattle.link_pieces.specs.TablePieces.{KeptParts, whole_contents};
ghost use Rattle.link_pieces.specs.PieceIndex.{is_numbered};
ghost use Rattle.link_words.specs.Outcome.{options_said};
ghost use Rattle.link_plan.specs.Plan.{IsPlanOf, kept_parts};
ghost use Rattle.link_image.specs.LinkedBytes.{import_tables_at, export_table_at, other_tables_at};
ghost use Rattle.link_image.specs.LinkedImage.{section_extent, resource_extent, place_extent, config_size, directories_of};
ghost use Rattle.link_image.specs.NamedSections.{section_named};
ghost use Rattle.link_image.specs.Steps.{numbered_indexes, reloc_tables, IsPlaced};

use crate::placement::{Placement, table_directory};
use image_headers::Directories;
use import_tables::fill;
use link_base::{Memory, Name, field_u32};
use link_fields::EntryPlace;
use link_plan::LinkPlan;
use link_words::Options;
use piece_bytes::{extent_of, rva_in, rva_of};
use section_group::{OutSection, Piece};
use std::alloc::Global;
use synthetic_sections::{DEBUG_DATA, DEBUG_ENTRY, EXPORTS, RESOURCES, SLOTS};

/// The size of the directory of thread-local storage.
const TLS_SIZE: u32 = 40;

/// The number of the import directory among the import tables.
const DIRECTORY: usize = 0;

/// The index of the piece of each table, by its number, where the table is made. The pieces that
/// the linker makes are those of the module at a position.
pub(crate) fn table_places(position: usize, pieces: &[Piece<'_>]) -> [Option<usize>; 9]
    ensures { result ≡ numbered_indexes position pieces.now }
{
    let mut places = [None; 9];
    for k in 0..pieces.len() {
        note_table(&mut places, position, &pieces[k], k);
    }
    places
}

/// Notes the index of a piece, where it is a table of which no piece is noted.
fn note_table(places: &mut [Option<usize>; 9], position: usize, piece: &Piece<'_>, k: usize)
    ensures { (number : ℕ) → number < 9 → slice_index_or places.new number None
        ≡ option_or (slice_index_or places.old number None) (if is_numbered position number piece.now then Some k else None) }
{
    let number = piece.number as usize;
    if piece.module as usize != position || number >= places.len() {
        return;
    }
    if places[number].is_none() {
        places[number] = Some(k);
    }
}

/// The bytes of the tables behind those of the imports: the export table, which has these, the entry of the debug directory and
/// its data, which has no identifier yet, and the resource tree.
pub(crate) fn other_tables<'a>(
    alloc: Global,
    plan: &LinkPlan<'a>,
    options: &Options<'a>,
    placement: &Placement<'a>,
    places: &[Option<usize>; 9],
    exports: Vec<u8>,
) -> Result<[Vec<u8>; 4], Memory>
    requires plan { IsPlanOf (options_said options.now) plan.now.modules.items plan.now }
    requires placed { IsPlaced (options_said options.now) plan.now placement.now }
    requires places { places.now ≡ numbered_indexes (length plan.now.modules.items) plan.now.pieces.items }
    requires exports { exports.items ≡ export_table_at (kept_parts plan.now) placement.now.layout }
    ensures { IfOk result (λ tables. map (λ table. table.items) tables ≡ other_tables_at (kept_parts plan.now) placement.now.layout) }
{
    let debug = plan.names.debug();
    let rva = rva_of(&placement.layout.pieces, places[DEBUG_DATA as usize]);
    let debug_entry = debug.entry(alloc, &placement.layout.sections, rva)?;
    let debug_data = debug.data(alloc, &[0; 16])?;
    let tree_rva = rva_of(&placement.layout.pieces, places[RESOURCES as usize]);
    let tree = plan.names.resources().tree(alloc, tree_rva)?;
    Ok([exports, debug_entry, debug_data, tree])
}

/// The bytes of the import tables, whose pieces are these.
pub(crate) fn import_tables<'a>(
    alloc: Global,
    plan: &LinkPlan<'a>,
    options: &Options<'a>,
    placement: &Placement<'a>,
    places: &[Option<usize>; 9],
) -> Result<[Vec<u8>; 5], Memory>
    requires plan { IsPlanOf (options_said options.now) plan.now.modules.items plan.now }
    requires placed { IsPlaced (options_said options.now) plan.now placement.now }
    requires places { places.now ≡ numbered_indexes (length plan.now.modules.items) plan.now.pieces.items }
    ensures { IfOk result (λ tables. map (λ table. table.items) tables ≡ import_tables_at (kept_parts plan.now) placement.now.layout) }
{
    let rvas = table_rvas(&placement.layout.pieces, places);
    are_words(&plan.imports.shape.lengths);
    fill(alloc, &plan.imports.rows, &plan.imports.shape, rvas)
}

/// What the type of the sizes says: each is a number of 32 bits.
fn are_words(sizes: &[u32])
    ensures { (number : ℕ) → slice_index sizes.now number < 2 ^ 32 }
{}

/// The directories of the image, in which the tables are these pieces.
pub(crate) fn directories_of<'a>(
    plan: &LinkPlan<'a>,
    options: &Options<'a>,
    placement: &Placement<'a>,
    places: &[Option<usize>; 9],
) -> Directories
    requires plan { IsPlanOf (options_said options.now) plan.now.modules.items plan.now }
    requires placed { IsPlaced (options_said options.now) plan.now placement.now }
    requires places { places.now ≡ numbered_indexes (length plan.now.modules.items) plan.now.pieces.items }
    ensures { result ≡ directories_of (kept_parts plan.now) (rows_of placement.now.sections.items) placement.now.layout (reloc_tables placement.now.table) }
{
    let rvas = &placement.layout.pieces;
    Directories {
        exports: extent_of(&plan.pieces, rvas, places[EXPORTS as usize]),
        resources: resource_extent(plan, options, placement, places),
        exceptions: section_extent(placement, b".pdata"),
        imports: extent_of(&plan.pieces, rvas, places[DIRECTORY]),
        slots: extent_of(&plan.pieces, rvas, places[SLOTS as usize]),
        relocations: table_directory(placement),
        tls: place_extent(rvas, &plan.loader.tls, TLS_SIZE),
        load_config: place_extent(
            rvas,
            &plan.loader.load_config,
            config_size(&plan.pieces, &plan.loader.load_config),
        ),
        debug: extent_of(&plan.pieces, rvas, places[DEBUG_ENTRY as usize]),
    }
}

/// The RVA and the size of the resources: those of the tree that the linker makes, or else those of the first section `.rsrc`,
/// which a module has.
fn resource_extent<'a>(
    plan: &LinkPlan<'a>,
    options: &Options<'a>,
    placement: &Placement<'a>,
    places: &[Option<usize>; 9],
) -> (u32, u32)
    requires plan { IsPlanOf (options_said options.now) plan.now.modules.items plan.now }
    requires placed { IsPlaced (options_said options.now) plan.now placement.now }
    requires places { places.now ≡ numbered_indexes (length plan.now.modules.items) plan.now.pieces.items }
    ensures { result ≡ resource_extent (kept_parts plan.now) (rows_of placement.now.sections.items) placement.now.layout }
{
    if plan.names.resources().size() == 0 {
        return section_extent(placement, b".rsrc");
    }
    extent_of(
        &plan.pieces,
        &placement.layout.pieces,
        places[RESOURCES as usize],
    )
}

/// The RVA of a place in a piece, and a size there, or zeros where there is no place.
fn place_extent(rvas: &[u32], place: &Option<EntryPlace>, size: u32) -> (u32, u32)
    requires piece { IfSome place.now (λ place. place.piece < length rvas.now) }
    requires fits { IfSome place.now (λ place. slice_index rvas.now place.piece < 2 ^ 32 → slice_index rvas.now place.piece + place.value < 2 ^ 32) }
    ensures { result ≡ place_extent rvas.now place.now size }
{
    match place {
        None => (0, 0),
        Some(place) => (rva_in(rvas[place.piece as usize], place.value), size),
    }
}

/// What a load configuration says of its size: the four bytes at its place, or 0 where there are none.
fn config_size(pieces: &[Piece<'_>], place: &Option<EntryPlace>) -> u32
    requires { IfSome place.now (λ place. place.piece < length pieces.now) }
    ensures { (link : KeptParts) → map piece_contents pieces.now ≡ whole_contents link → result ≡ config_size link place.now }
{
    let Some(place) = place else { return 0 };
    let piece = &pieces[place.piece as usize];
    if !piece.init {
        return 0;
    }
    let Some(bytes) = piece.body else { return 0 };
    field_u32(bytes, place.value as usize).unwrap_or(0)
}

/// The RVA and the size of the first section of a name, or zeros where there is none.
fn section_extent(placement: &Placement<'_>, name: &[u8]) -> (u32, u32)
    requires { length placement.now.layout.sections.items ≡ length placement.now.sections.items }
    ensures { result ≡ section_extent (rows_of placement.now.sections.items) placement.now.layout name.now }
{
    let Some(index) = section_named(&placement.sections, name) else {
        return (0, 0);
    };
    let placed = &placement.layout.sections[index];
    (placed.rva, placed.size)
}

/// The index of the first section of a name.
pub(crate) fn section_named(sections: &[OutSection<'_>], name: &[u8]) -> Option<usize>
    ensures named { result ≡ section_named (rows_of sections.now) name.now }
    ensures within { IfSome result (λ index. index < length sections.now) }
{
    for index in 0..sections.len() {
        if sections[index].name == Name::of(name) {
            return Some(index);
        }
    }
    None
}

/// The RVAs of the import tables, which are the first of these pieces.
fn table_rvas(rvas: &[u32], places: &[Option<usize>; 9]) -> [u32; 5]
    requires { All (λ place. IfSome place (λ k. k < length rvas.now)) places.now }
    ensures { result ≡ map (rva_of rvas.now) (take 5 places.now) }
{
    [
        rva_of(rvas, places[0]),
        rva_of(rvas, places[1]),
        rva_of(rvas, places[2]),
        rva_of(rvas, places[3]),
        rva_of(rvas, places[4]),
    ]
}
