//! The pieces of a link with their fields, what is kept of them, and the places of its entry and its exports.

ghost use Rattle.std.specs.Prelude.{◌≡◌, ◌≤◌, ◌<◌, ◌-◌, ◌^◌, ℕ, true, length, map, All, IfOk, IfErr};
ghost use Rattle.link_base.specs.Limits.{MODULE_LIMIT};
ghost use Rattle.link_base.specs.Refusals.{RefusesFor};
ghost use Rattle.section_group.specs.BarePieces.{bare};
ghost use Rattle.section_group.specs.PieceContents.{piece_contents, HasItsBytes};
ghost use Rattle.address_layout.specs.Layout.{IsAlignment};
ghost use Rattle.module_view.specs.Opening.{IsOpened};
ghost use Rattle.link_words.specs.Outcome.{options_said};
ghost use Rattle.link_pieces.specs.LocalSlots.{slot_names};
ghost use Rattle.link_pieces.specs.Pieces.{link_pieces, link_contents};
ghost use Rattle.link_pieces.specs.PieceIndex.{IsPieceIndex};
ghost use Rattle.link_fields.specs.Entry.{entry_meant, entry_place};
ghost use Rattle.link_fields.specs.ExportTargets.{export_targets};
ghost use Rattle.link_fields.specs.LoaderPlaces.{loader_place, TLS_NAME, LOAD_CONFIG_NAME};
ghost use Rattle.link_fields.specs.Fixes.{HaveFields, HasSameEdges, field_edges};
ghost use Rattle.link_plan.specs.PlanFaults.{fields_fault};
ghost use Rattle.link_plan.specs.Laid.{ArePlanned, AreLaid, laid_link};
ghost use Rattle.link_plan.specs.LinkPublics.{lists_publics, link_publics};

use crate::kept_fields::{
    SlotPlaces, fields_stay, keep_fields, place_exports, placed_entry, push_none, slot_table,
};
use crate::meanings::Meanings;
use crate::publics::listed_publics;
use debug_rows::{PublicPlace, kept_publics};
use link_base::{Memory, Refusal};
use link_fields::{EntryPlace, JudgedFixes, LoaderPlaces, NamedPlaces, judge_pieces, named_places};
use link_imports::{LinkImports, link_imports};
use link_keeping::{kept_nodes, name_meant};
use link_pieces::{LinkNames, PieceIndex, pieces_of, push_tables};
use link_words::Options;
use module_view::Module;
use relocate::{Fixups, Target};
use section_group::Piece;
use std::alloc::Global;

/// The pieces of a link with the fields of each, what is kept of them, the imports that are, where its entry stands, what its
/// exports stand for, and where the names stand that the loader of a program looks for.
#[derive(Drop)]
pub(crate) struct LaidPieces<'a> {
    pub(crate) pieces: Vec<Piece<'a>>,
    pub(crate) kept: Vec<bool>,
    pub(crate) place_of: Vec<u32>,
    pub(crate) fixes: Vec<Fixups>,
    pub(crate) imports: LinkImports<'a>,
    pub(crate) entry: Option<EntryPlace>,
    pub(crate) exported: Vec<Option<Target>>,
    pub(crate) loader: LoaderPlaces,
}

/// What is laid out of a link: its pieces, and the public symbols of what is kept of them, where a file for debuggers lists them.
#[derive(Drop)]
pub(crate) struct LaidLink<'a> {
    pub(crate) laid: LaidPieces<'a>,
    pub(crate) publics: Vec<PublicPlace<'a>>,
}

/// The pieces of these modules, by what the link refers to, and what is kept of them. The first of the entry, the exports and the
/// slots that has no place in the image is refused, and then the first relocation that has a fault.
pub(crate) fn lay_pieces<'a>(
    alloc: Global,
    names: &LinkNames<'a>,
    modules: &[Module<'a>],
    meant: Meanings<'a>,
    options: &Options<'a>,
) -> Result<LaidLink<'a>, Refusal<'a>>
    requires same { names.now.modules ≡ modules.now }
    requires few { length modules.now ≤ MODULE_LIMIT }
    requires start { meant.start ≡ entry_meant names.now (options_said options.now).entry_name }
    requires slots { meant.slots ≡ slot_names names.now }
    ensures laid { IfOk result (λ link. AreLaid (options_said options.now) names.now link.laid) }
    ensures publics { IfOk result (λ link. lists_publics (options_said options.now) ≡ true → link.publics.items ≡ link_publics (laid_link names.now link.laid)) }
    ensures refused { IfErr result (RefusesFor (fields_fault (options_said options.now) names.now)) }
{
    let Meanings { start, slots } = meant;
    let count = slots.len();
    let pieces = pieces_of(alloc, names, modules, count)?;
    let index = PieceIndex::new(alloc, modules, slots, &pieces)?;
    let places = named_places(alloc, names, &index, &start, count)?;
    let fixes = judge_pieces(alloc, names, &index, modules, &pieces, options.large)?;
    let publics = listed_publics(alloc, names, &index, modules, &pieces, options)?;
    let first = pieces.len();
    let laid = keep_pieces(
        alloc, names, &index, modules, pieces, fixes, places, options,
    )?;
    let table = slot_table(&laid.pieces, first, modules.len() as u32);
    let publics = kept_publics(
        alloc,
        &publics,
        &laid.kept,
        &laid.place_of,
        first as u32,
        table,
        &laid.imports.offsets,
    )?;
    Ok(LaidLink { laid, publics })
}

/// What is kept of the pieces of a link, with the tables of what is kept.
fn keep_pieces<'a>(
    alloc: Global,
    names: &LinkNames<'a>,
    index: &PieceIndex<'a>,
    modules: &[Module<'a>],
    pieces: Vec<Piece<'a>>,
    fixes: JudgedFixes,
    places: NamedPlaces,
    options: &Options<'a>,
) -> Result<LaidPieces<'a>, Memory>
    requires same { names.now.modules ≡ modules.now }
    requires few_modules { length modules.now ≤ MODULE_LIMIT }
    requires opened { All IsOpened modules.now }
    requires indexed { IsPieceIndex names.now index.now }
    requires pieces { map bare pieces.items ≡ link_pieces names.now }
    requires contents { map piece_contents pieces.items ≡ link_contents names.now }
    requires aligned { All (λ piece. IsAlignment piece.align) pieces.items }
    requires bodies { (k : ℕ) → k < length pieces.items → HasItsBytes pieces.items k }
    requires few { length pieces.items < 2 ^ 31 - 16 }
    requires fields { HaveFields names.now (length pieces.items) fixes.fixups.items }
    requires edges { HasSameEdges (field_edges names.now) fixes.edges.items }
    requires entry { places.entry ≡ entry_place names.now (options_said options.now).entry_name }
    requires exported { places.exported.items ≡ export_targets names.now }
    requires tls { places.loader.tls ≡ loader_place names.now TLS_NAME }
    requires load_config { places.loader.load_config ≡ loader_place names.now LOAD_CONFIG_NAME }
    ensures { IfOk result (ArePlanned (options_said options.now) names.now) }
{
    let JudgedFixes { fixups, edges } = fixes;
    let nodes = kept_nodes(
        alloc, names, index, modules, &pieces, &places, edges, &fixups, options,
    )?;
    let mut pieces = pieces;
    name_meant(&mut pieces, &nodes.meant);
    let count = pieces.len();
    let imports = link_imports(alloc, modules, &nodes.kept[count..])?;
    let position = modules.len() as u32;
    push_tables(
        &mut pieces,
        position,
        &imports.shape.lengths,
        names.exports().size(),
        names.debug().size(),
        names.resources().size(),
    )?;
    let slots = SlotPlaces {
        places: &nodes.place_of,
        first: count as u32,
        table: slot_table(&pieces, count, position),
        offsets: &imports.offsets,
    };
    let mut fixes = fixups;
    let stays = fields_stay(nodes.no_import, slots.places);
    keep_fields(alloc, &mut fixes, &nodes.kept, &slots, stays);
    push_none(alloc, &mut fixes, pieces.len() - count)?;
    let NamedPlaces {
        entry,
        mut exported,
        loader,
    } = places;
    place_exports(&mut exported, &slots);
    let entry = placed_entry(entry, &nodes.place_of);
    let loader = LoaderPlaces {
        tls: placed_entry(loader.tls, &nodes.place_of),
        load_config: placed_entry(loader.load_config, &nodes.place_of),
    };
    Ok(LaidPieces {
        pieces,
        kept: nodes.kept,
        place_of: nodes.place_of,
        fixes,
        imports,
        entry,
        exported,
        loader,
    })
}
