//! What of a link is kept.

ghost use Rattle.std.specs.Prelude.{◌≡◌, ◌++◌, ◌<◌, ◌≤◌, ◌^◌, ◌+◌, ◌||◌, ◌&&◌, ◌==◌, [], ℕ, true, false, length, map, slice_index_or, option_map, option_and_then, None, IfOk, OnOk, if◌then◌else◌};
ghost use Rattle.std.specs.List.{All, cons_option, list_any, range_with_len};
ghost use Rattle.link_base.specs.Limits.{MODULE_LIMIT};
ghost use Rattle.section_group.specs.BarePieces.{bare};
ghost use Rattle.section_group.specs.PieceContents.{piece_contents};
ghost use Rattle.coff_aux.specs.Comdats.{comdat_of};
ghost use Rattle.module_view.specs.Module.{module_at};
ghost use Rattle.module_view.specs.Opening.{IsOpened};
ghost use Rattle.link_words.specs.Outcome.{LinkOptions, options_said};
ghost use Rattle.link_pieces.specs.LinkParts.{LinkParts};
ghost use Rattle.link_pieces.specs.Pieces.{link_pieces, link_contents};
ghost use Rattle.link_pieces.specs.PieceIndex.{is_section, piece_index, IsPieceIndex};
ghost use Rattle.link_fields.specs.Entry.{entry_place};
ghost use Rattle.link_fields.specs.ExportTargets.{export_targets};
ghost use Rattle.link_fields.specs.Fixes.{HaveFields, HasSameEdges, field_edges};
ghost use Rattle.relocate.specs.Redirected.{place_of};
ghost use Rattle.link_folding.specs.Places.{standing};
ghost use Rattle.link_keeping.specs.Reach.{node_count, parent_in, child_edges, link_edges, named_nodes, link_roots, drops as drops_of, AreKept};
ghost use Rattle.link_keeping.specs.Named.{leads_there, LeadsWithin, is_at, is_named_at};
ghost use Rattle.link_keeping.specs.Standing.{FoldsTo, AreStanding};

use crate::named::{mark_meant, mark_nodes, mark_shared};
use crate::roots::{named_nodes, push_roots};
use link_base::Memory;
use link_fields::NamedPlaces;
use link_folding::folded_places;
use link_pieces::{FIRST_COMMON, LinkNames, PieceIndex};
use link_words::Options;
use module_view::Module;
use reach::{Graph, kept};
use relocate::{Fixups, place_of};
use section_group::Piece;
use std::alloc::Global;

/// What of a link is kept.
#[derive(Drop)]
pub struct KeptNodes {
    /// Whether each piece is, and behind the pieces the import that is the module at each position.
    pub kept: Vec<bool>,
    /// The piece at whose place each piece stands, its own behind the end of the list.
    pub place_of: Vec<u32>,
    /// The pieces that a field of what is kept means, or the entry, an export or a loader.
    pub meant: Vec<bool>,
    /// No field of what is kept means an import.
    pub no_import: bool,
}

/// What is kept of these pieces, whose fields lead to one another by `edges`, in whatever order and however often.
pub fn kept_nodes<'a>(
    alloc: Global,
    names: &LinkNames<'a>,
    index: &PieceIndex<'a>,
    modules: &[Module<'a>],
    pieces: &[Piece<'a>],
    places: &NamedPlaces,
    edges: Vec<(u32, u32)>,
    fixes: &[Fixups],
    options: &Options<'a>,
) -> Result<KeptNodes, Memory>
    requires same { names.now.modules ≡ modules.now }
    requires few_modules { length modules.now ≤ MODULE_LIMIT }
    requires opened { All IsOpened modules.now }
    requires indexed { IsPieceIndex names.now index.now }
    requires pieces { map bare pieces.now ≡ link_pieces names.now }
    requires contents { map piece_contents pieces.now ≡ link_contents names.now }
    requires few { length pieces.now < 2 ^ 31 }
    requires fields { HaveFields names.now (length pieces.now) fixes.now }
    requires entry { places.now.entry ≡ entry_place names.now (options_said options.now).entry_name }
    requires exported { places.now.exported.items ≡ export_targets names.now }
    requires edges { HasSameEdges (field_edges names.now) edges.items }
    ensures kept { IfOk result (λ nodes. AreStanding (options_said options.now) (record { parts = names.now; kept = nodes.kept.items; places = nodes.place_of.items })) }
    ensures len { IfOk result (λ nodes. length nodes.meant.items ≡ length pieces.now) }
    ensures meant { IfOk result (λ nodes. (k : ℕ) → k < length pieces.now → slice_index_or nodes.meant.items k false
        ≡ (list_any (leads_there nodes.kept.items nodes.place_of.items k) (field_edges names.now) || (list_any (is_at nodes.place_of.items k) (named_nodes (options_said options.now) names.now)
        || list_any (is_named_at names.now nodes.place_of.items k) (range_with_len 0 (length nodes.place_of.items))))) }
    ensures no_import { IfOk result (λ nodes. nodes.no_import ≡ true → All (LeadsWithin nodes.kept.items (length pieces.now)) (field_edges names.now)) }
{
    let mut roots = named_nodes(alloc, names, index, places, options)?;
    let named = roots.len();
    push_roots(&mut roots, names, index, modules, pieces, options)?;
    let fields = edges.len();
    let graph = link_graph(index, modules, pieces, edges)?;
    let reached = kept_if(alloc, drops(options), &graph, &roots)?;
    let place_of = places_if(
        alloc, names, index, modules, pieces, fixes, &reached, options,
    )?;
    let kept = standing(alloc, &reached, &place_of)?;
    let mut meant = vec![in alloc; false; pieces.len()]?;
    let no_import = mark_meant(&mut meant, &graph.edges[..fields], &kept, &place_of);
    mark_nodes(&mut meant, &roots[..named], &place_of);
    mark_shared(&mut meant, pieces, &place_of);
    Ok(KeptNodes {
        kept,
        place_of,
        meant,
        no_import,
    })
}

/// The piece at whose place each piece stands, of which these are reached: nothing where equal functions do not fold.
fn places_if<'a>(
    alloc: Global,
    names: &LinkNames<'a>,
    index: &PieceIndex<'a>,
    modules: &[Module<'a>],
    pieces: &[Piece<'a>],
    fixes: &[Fixups],
    reached: &[bool],
    options: &Options<'a>,
) -> Result<Vec<u32>, Memory>
    requires same { names.now.modules ≡ modules.now }
    requires few_modules { length modules.now ≤ MODULE_LIMIT }
    requires opened { All IsOpened modules.now }
    requires indexed { IsPieceIndex names.now index.now }
    requires pieces { map bare pieces.now ≡ link_pieces names.now }
    requires contents { map piece_contents pieces.now ≡ link_contents names.now }
    requires few { length pieces.now < 2 ^ 31 }
    requires fields { HaveFields names.now (length pieces.now) fixes.now }
    ensures { IfOk result (λ places. FoldsTo (options_said options.now).icf names.now reached.now places.items) }
{
    if options.icf {
        return folded_places(alloc, names, index, modules, pieces, fixes, reached);
    }
    Ok(Vec::new(alloc))
}

/// What is reached and stands at its own place.
fn standing(alloc: Global, reached: &[bool], places: &[u32]) -> Result<Vec<bool>, Memory>
    requires { length reached.now < 2 ^ 32 }
    ensures { IfOk result (λ kept. kept.items ≡ standing reached.now places.now) }
{
    let mut kept = Vec::with_capacity(alloc, reached.len())?;
    for k in 0..reached.len() {
        kept.push(stands_alone(reached[k], places, k as u32))?;
    }
    Ok(kept)
}

/// Whether a piece is reached and stands at its own place.
fn stands_alone(reached: bool, places: &[u32], piece: u32) -> bool
    ensures { result ≡ (reached && (place_of places.now piece == piece)) }
{
    reached && place_of(places, piece) == piece
}

/// Whether unreferenced sections are dropped.
fn drops(options: &Options<'_>) -> bool
    ensures { result ≡ drops_of (options_said options.now) }
{
    match options.refs {
        Some(refs) => refs,
        None => !options.debug,
    }
}

/// What leads to what: the edges of fields, and those to sections that are selected with others.
fn link_graph<'a>(
    index: &PieceIndex<'a>,
    modules: &[Module<'a>],
    pieces: &[Piece<'a>],
    edges: Vec<(u32, u32)>,
) -> Result<Graph, Memory>
    requires few_modules { length modules.now ≤ MODULE_LIMIT }
    requires few { length pieces.now < 2 ^ 31 }
    ensures count { IfOk result (λ graph. graph.pieces ≡ length pieces.now + length modules.now) }
    ensures edges { IfOk result (λ graph. (link : LinkParts) → link.modules ≡ modules.now → map bare pieces.now ≡ link_pieces link → IsPieceIndex link index.now
        → graph.edges.items ≡ edges.items ++ child_edges link) }
{
    let mut edges = edges;
    for k in 0..pieces.len() {
        push_child(
            &mut edges,
            parent_piece(index, modules, &pieces[k]),
            k as u32,
        )?;
    }
    Ok(Graph {
        pieces: (pieces.len() + modules.len()) as u32,
        edges,
    })
}

/// Appends that a piece leads to another, where there is one that does.
fn push_child(edges: &mut Vec<(u32, u32)>, parent: Option<u32>, child: u32) -> Result<(), Memory>
    ensures { OnOk result (edges.new.items ≡ edges.old.items ++ cons_option (option_map (λ parent. (parent, child)) parent) []) }
{
    if let Some(parent) = parent {
        edges.push((parent, child))?;
    }
    Ok(())
}

/// The piece that a COMDAT section is selected with, where there is one.
fn parent_piece<'a>(
    index: &PieceIndex<'a>,
    modules: &[Module<'a>],
    piece: &Piece<'a>,
) -> Option<u32>
    ensures { (link : LinkParts) → link.modules ≡ modules.now → IsPieceIndex link index.now → result
        ≡ (if is_section (length modules.now) piece.now
        then option_and_then (piece_index link piece.now.«module») (parent_in (comdat_of (module_at modules.now piece.now.«module»).bytes piece.now.number))
        else None) }
{
    if piece.module as usize >= modules.len() || piece.number >= FIRST_COMMON {
        return None;
    }
    let comdat = modules[piece.module as usize].comdat(piece.number)?;
    index.of(piece.module, comdat.parent?)
}

/// What edges come to from the roots, or all.
fn kept_if(alloc: Global, drops: bool, graph: &Graph, roots: &[u32]) -> Result<Vec<bool>, Memory>
    ensures { IfOk result (λ kept. (options : LinkOptions) (link : LinkParts) → drops ≡ drops_of options → graph.now.pieces ≡ node_count link → HasSameEdges (link_edges link) graph.now.edges.items
        → roots.now ≡ link_roots options link → AreKept options link kept.items) }
{
    if drops {
        let flags = kept(alloc, graph, roots)?;
        return Ok(flags);
    }
    Ok(vec![in alloc; true; graph.pieces as usize]?)
}
