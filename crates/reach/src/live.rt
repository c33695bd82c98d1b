//! Which pieces are kept.

ghost use Rattle.std.specs.Prelude.{◌≡◌, ℕ, ◌<◌, Some, true, length, slice_get, IfOk};
ghost use Rattle.reach.specs.Paths.{IsKept};

use crate::graph::Graph;
use crate::marking::Marking;
use crate::rows::Rows;
use link_base::Memory;
use std::alloc::Global;

/// Whether each piece is kept, by its number: where it is a root, or edges lead to it from one, over any number of
/// pieces. A root that is no piece keeps nothing. (MSVC linker reference, "/OPT".)
pub fn kept(alloc: Global, graph: &Graph, roots: &[u32]) -> Result<Vec<bool>, Memory>
    ensures length { IfOk result (λ kept. length kept.items ≡ graph.now.pieces) }
    ensures kept { IfOk result (λ kept. (piece : ℕ)
        → IsKept graph.now.pieces graph.now.edges.items roots.now piece → slice_get kept.items piece ≡ Some true) }
    ensures only { IfOk result (λ kept. (piece : ℕ)
        → slice_get kept.items piece ≡ Some true → IsKept graph.now.pieces graph.now.edges.items roots.now piece) }
{
    let rows = Rows::new(alloc, graph)?;
    let mut marking = Marking::new(alloc, graph.pieces)?;
    marking.mark_all(roots)?;
    while let Some(piece) = marking.pending.pop() {
        marking.mark_all(rows.row(piece))?;
    }
    Ok(marking.kept)
}
