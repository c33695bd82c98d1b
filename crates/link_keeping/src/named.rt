//! The pieces that stand in a section even where they have no bytes: what the fields of what is kept mean, the entry, the exports and
//! what a loader looks for.

ghost use Rattle.std.specs.Prelude.{◌≡◌, ◌<◌, ◌^◌, ◌||◌, ◌&&◌, ◌==◌, ℕ, true, false, length, map, slice_index_or};
ghost use Rattle.std.specs.List.{All, list_any, range_with_len};
ghost use Rattle.section_group.specs.SectionOrder.{no_piece};
ghost use Rattle.section_group.specs.BarePieces.{bare};
ghost use Rattle.relocate.specs.Redirected.{place_of};
ghost use Rattle.link_pieces.specs.LinkParts.{LinkParts};
ghost use Rattle.link_pieces.specs.Pieces.{link_pieces};
ghost use Rattle.link_keeping.specs.Named.{leads_there, LeadsWithin, is_at, is_named_at, named_if};

use relocate::place_of;
use section_group::Piece;

/// Marks the pieces at whose places those stand that edges lead to from what is kept, and says whether each of these edges leads to
/// a piece.
pub(crate) fn mark_meant(
    meant: &mut Vec<bool>,
    edges: &[(u32, u32)],
    kept: &[bool],
    places: &[u32],
) -> bool
    ensures len { length meant.new.items ≡ length meant.old.items }
    ensures marked { (k : ℕ) → k < length meant.old.items → slice_index_or meant.new.items k false
        ≡ (slice_index_or meant.old.items k false || list_any (leads_there kept.now places.now k) edges.now) }
    ensures within { result ≡ true → All (LeadsWithin kept.now (length meant.old.items)) edges.now }
{
    let mut all_within = true;
    for edge in edges {
        if !mark_if(meant, is_kept(kept, edge.0), edge.1, places) {
            all_within = false;
        }
    }
    all_within
}

/// Marks where a piece stands, where that is wanted and the number is that of one. Says whether it is, or nothing is wanted.
fn mark_if(meant: &mut Vec<bool>, wanted: bool, piece: u32, places: &[u32]) -> bool
    ensures len { length meant.new.items ≡ length meant.old.items }
    ensures marked { (k : ℕ) → k < length meant.old.items → slice_index_or meant.new.items k false
        ≡ (slice_index_or meant.old.items k false || (wanted && (place_of places.now piece == k))) }
    ensures within { result ≡ true → wanted ≡ true → piece < length meant.old.items }
{
    if wanted {
        mark(meant, place_of(places, piece));
        return (piece as usize) < meant.len();
    }
    true
}

/// Whether a number is kept.
fn is_kept(kept: &[bool], node: u32) -> bool
    ensures { result ≡ slice_index_or kept.now node false }
{
    match kept.get(node as usize) {
        Some(kept) => *kept,
        None => false,
    }
}

/// Marks where some pieces stand.
pub(crate) fn mark_nodes(meant: &mut Vec<bool>, nodes: &[u32], places: &[u32])
    ensures len { length meant.new.items ≡ length meant.old.items }
    ensures marked { (k : ℕ) → k < length meant.old.items → slice_index_or meant.new.items k false
        ≡ (slice_index_or meant.old.items k false || list_any (is_at places.now k) nodes.now) }
{
    for node in nodes {
        mark(meant, place_of(places, *node));
    }
}

/// Marks where the pieces stand that are named.
pub(crate) fn mark_shared(meant: &mut Vec<bool>, pieces: &[Piece<'_>], places: &[u32])
    requires few { length places.now < 2 ^ 32 }
    ensures len { length meant.new.items ≡ length meant.old.items }
    ensures marked { (k : ℕ) (link : LinkParts) → map bare pieces.now ≡ link_pieces link → k < length meant.old.items → slice_index_or meant.new.items k false
        ≡ (slice_index_or meant.old.items k false || list_any (is_named_at link places.now k) (range_with_len 0 (length places.now))) }
{
    for k in 0..places.len() {
        mark_if(meant, is_named(pieces, k), k as u32, places);
    }
}

/// Whether a piece is named.
fn is_named(pieces: &[Piece<'_>], k: usize) -> bool
    ensures { result ≡ (slice_index_or pieces.now k no_piece).named }
{
    match pieces.get(k) {
        Some(piece) => piece.named,
        None => false,
    }
}

/// Marks a piece, where there is one of the number.
fn mark(meant: &mut Vec<bool>, piece: u32)
    ensures len { length meant.new.items ≡ length meant.old.items }
    ensures marked { (k : ℕ) → k < length meant.old.items → slice_index_or meant.new.items k false
        ≡ (slice_index_or meant.old.items k false || (piece == k)) }
{
    if (piece as usize) < meant.len() {
        meant[piece as usize] = true;
    }
}

/// Says of each piece that is marked that it is named.
pub fn name_meant(pieces: &mut Vec<Piece<'_>>, meant: &[bool])
    requires { length meant.now ≡ length pieces.old.items }
    ensures { pieces.new.items ≡ map (λ k. named_if (slice_index_or meant.now k false) (slice_index_or pieces.old.items k no_piece)) (range_with_len 0 (length pieces.old.items)) }
{
    for k in 0..pieces.len() {
        if meant[k] {
            pieces[k].named = true;
        }
    }
}
