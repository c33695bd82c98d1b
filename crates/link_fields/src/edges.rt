//! What the fields of a piece lead to.

ghost use Rattle.std.specs.Prelude.{◌≡◌, ◌<◌, ◌^◌, ◌++◌, ◌∷◌, ℕ, List, [], option_map, IfOk, OnOk};
ghost use Rattle.std.specs.List.{cons_option};
ghost use Rattle.link_fields.specs.Fixes.{meant_in, edges_by, HasSameEdges};
ghost use Rattle.link_fields.specs.Steps.{AreNoted};

use link_base::Memory;
use link_base::pe_format::{REL_AMD64_ABSOLUTE, REL_AMD64_SECREL};
use relocate::{Fix, PackedFix, Target};
use std::alloc::Global;

/// No piece: a link has fewer.
const NO_PIECE: u32 = u32::MAX;

/// What the fields of the pieces so far lead to.
#[derive(Drop)]
pub(crate) struct Edges {
    /// Pieces and what their fields mean, a pair mostly once.
    pub(crate) list: Vec<(u32, u32)>,
    /// By what is meant: the piece that led there last.
    last: Vec<u32>,
}

impl Edges {
    /// Of no piece yet, where so many pieces and imports can be meant.
    pub(crate) fn none(alloc: Global, count: usize) -> Result<Edges, Memory>
        ensures list { IfOk result (λ edges. edges.list.items ≡ []) }
        ensures noted { IfOk result (λ edges. AreNoted edges.list.items edges.last.items) }
    {
        let last = vec![in alloc; NO_PIECE; count]?;
        Ok(Edges {
            list: Vec::new(alloc),
            last,
        })
    }
}

/// Appends what the fields of a piece mean, each with the piece.
pub(crate) fn push_edges(edges: &mut Edges, piece: u32, fixes: &[PackedFix]) -> Result<(), Memory>
    requires few { piece < 2 ^ 31 }
    requires noted { AreNoted edges.old.list.items edges.old.last.items }
    ensures noted { OnOk result (AreNoted edges.new.list.items edges.new.last.items) }
    ensures edges { OnOk result ((earlier : List (ℕ × ℕ)) → HasSameEdges earlier edges.old.list.items
        → HasSameEdges (earlier ++ edges_by piece fixes.now) edges.new.list.items) }
{
    for fix in fixes {
        push_if(edges, piece, meant_piece(&fix.unpacked()))?;
    }
    Ok(())
}

/// Appends what a field of a piece means, with the piece, where it means something.
fn push_if(edges: &mut Edges, piece: u32, meant: Option<u32>) -> Result<(), Memory>
    requires few { piece < 2 ^ 31 }
    requires noted { AreNoted edges.old.list.items edges.old.last.items }
    ensures noted { OnOk result (AreNoted edges.new.list.items edges.new.last.items) }
    ensures edges { OnOk result ((earlier : List (ℕ × ℕ)) → HasSameEdges earlier edges.old.list.items
        → HasSameEdges (earlier ++ cons_option (option_map (λ to. (piece, to)) meant) []) edges.new.list.items) }
{
    if let Some(meant) = meant {
        push_once(edges, piece, meant)?;
    }
    Ok(())
}

/// Appends that a piece leads to another or to an import, unless it was the last that did.
fn push_once(edges: &mut Edges, piece: u32, to: u32) -> Result<(), Memory>
    requires few { piece < 2 ^ 31 }
    requires noted { AreNoted edges.old.list.items edges.old.last.items }
    ensures noted { OnOk result (AreNoted edges.new.list.items edges.new.last.items) }
    ensures edges { OnOk result ((earlier : List (ℕ × ℕ)) → HasSameEdges earlier edges.old.list.items
        → HasSameEdges (earlier ++ (piece, to) ∷ []) edges.new.list.items) }
{
    let at = to as usize;
    if at < edges.last.len() {
        if edges.last[at] == piece {
            return Ok(());
        }
        edges.last[at] = piece;
    }
    edges.list.push((piece, to))?;
    Ok(())
}

/// The piece or the import that the field of a relocation means.
#[tactic(auto, unfolding(crate::specs::Fixes::meant_in, relocate::specs::Field::field_width))]
fn meant_piece(fix: &Fix) -> Option<u32>
    ensures { result ≡ meant_in fix.now }
{
    if fix.kind == REL_AMD64_ABSOLUTE || fix.kind > REL_AMD64_SECREL {
        return None;
    }
    match fix.target {
        Some(Ok(Target::Piece { piece, .. })) => Some(piece),
        _ => None,
    }
}
