//! Which candidates fold.

ghost use Rattle.std.specs.Prelude.{◌≡◌, ℕ, List, length, IfOk};
ghost use Rattle.icf.specs.Sections.{input_from, IsFoldable};
ghost use Rattle.icf.specs.Folding.{AreLeast, KeepsAlike, RelatedBy, ArePairsBelow, AnsweredAlike};

use crate::candidate::FoldCandidate;
use crate::contents::first_classes;
use crate::fields::all_fields;
use crate::owners::owners_of;
use crate::rounds::split_all;
use link_base::Memory;
use relocate::Fixups;
use section_group::Piece;
use std::alloc::Global;

/// For each candidate, the number of the first candidate that it folds with: its own, where it folds with none before it.
/// A candidate's number is its place in the list.
///
/// Two candidates fold where they are alike: they and their children, which are as many, have one by one the same names,
/// flags, sizes, bytes and fields. Fields are the same where they have one place and type, and their targets are one, or
/// stand at one offset in the sections of one rank of two candidates that fold. So two functions that call each other, or
/// each itself, fold where they are otherwise equal; two that name different pieces of equal data do not. A relocation of
/// type ABSOLUTE is no field, and the order of relocations does not matter. (Own; after MSVC linker reference, "/OPT".)
///
/// `fixes` has the fields of each piece, with what their symbols mean. Candidates ascend by their pieces, and no piece is
/// there twice, as a candidate or as a child.
///
/// The bytes of candidates and children are hashed once. Then rounds of one pass each over all fields, which are hashed,
/// split the classes of candidates until a round splits none. A link takes few rounds; where candidates call one another
/// in a chain and differ at its end alone, there are as many rounds as candidates in the chain, and never more.
///
/// # Errors
///
/// `Memory` alone.
pub fn fold(
    alloc: Global,
    pieces: &[Piece<'_>],
    fixes: &[Fixups],
    candidates: &[FoldCandidate],
) -> Result<Vec<u32>, Memory>
    requires { IsFoldable (input_from pieces.now fixes.now candidates.now) }
    ensures length { IfOk result (λ answers. length answers.items ≡ length candidates.now) }
    ensures least { IfOk result (λ answers. AreLeast answers.items) }
    ensures alike { IfOk result (λ answers. KeepsAlike (input_from pieces.now fixes.now candidates.now) (AnsweredAlike answers.items)) }
    ensures greatest { IfOk result (λ answers. (pairs : List (ℕ × ℕ)) → ArePairsBelow (length candidates.now) pairs
        → KeepsAlike (input_from pieces.now fixes.now candidates.now) (RelatedBy pairs)
        → (left right : ℕ) → RelatedBy pairs left right → AnsweredAlike answers.items left right) }
{
    let owners = owners_of(alloc, pieces.len(), candidates)?;
    let fields = all_fields(alloc, fixes, &owners, candidates)?;
    let first = first_classes(alloc, pieces, candidates)?;
    split_all(alloc, &fields, first)
}
