//! What follows from the definitions alone, each the contract of a function that does nothing.

ghost use Rattle.std.specs.Prelude.{◌≡◌, ℕ, List, Bool};
ghost use Rattle.section_group.specs.declared.piece.Piece.{Piece};
ghost use Rattle.section_group.specs.declared.piece.OutSection.{OutSection};
ghost use Rattle.address_layout.specs.declared.layout.Layout.{Layout};
ghost use Rattle.address_layout.specs.Layout.{IsLayout, HoldsArrangement, IsRewritten, HasImageSize};
ghost use Rattle.address_layout.specs.Growth.{SameLayout, CanGrow};

use crate::layout::{Layout, Placed};
use link_base::is_shared;

/// The same sections have one layout.
pub fn one_layout()
    ensures { (pieces : List Piece) (sections : List OutSection) (reloc : Bool) (layout other : Layout)
        → IsLayout pieces sections reloc layout → IsLayout pieces sections reloc other → SameLayout layout other }
{}

/// The same sections make an image of one size, so that its limit decides between a layout and a refusal.
pub fn one_image_size()
    ensures { (pieces : List Piece) (sections : List OutSection) (reloc : Bool) (size other : ℕ)
        → HasImageSize pieces sections reloc size → HasImageSize pieces sections reloc other → size ≡ other }
{}

/// RVAs written for pieces that stand in no section leave the others where they are, and the section of base relocations can
/// still follow.
#[tactic(auto, using(crate::proofs::RewrittenLemmas::rewritten_holds, crate::proofs::RewrittenLemmas::rewritten_can_grow))]
pub fn other_pieces_may_be_written()
    ensures grows { (sections : List OutSection) (old new : Layout) → CanGrow old → IsRewritten sections old new → CanGrow new }
    ensures holds { (pieces : List Piece) (sections : List OutSection) (reloc : Bool) (old new : Layout)
        → HoldsArrangement pieces sections reloc old → IsRewritten sections old new → HoldsArrangement pieces sections reloc new }
{}

/// A layout may be shared by threads and handed from one to another.
pub fn layouts_are_shared() {
    is_shared::<Placed>();
    is_shared::<Layout>()
}
