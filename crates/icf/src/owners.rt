//! Whose sections pieces are.

ghost use Rattle.std.specs.Prelude.{◌≡◌, ◌<◌, ◌≤◌, ◌^◌, ℕ, length, slice_get, IfOk, Some};
ghost use Rattle.icf.specs.Sections.{sections_of, AreCandidates};
ghost use Rattle.icf.specs.Owners.{AreOwners, WithSections};

use crate::candidate::FoldCandidate;
use crate::field::Owner;
use link_base::Memory;
use std::alloc::Global;

/// Whose section each piece is, where it is a candidate's. No candidate's number is above that of its piece, so there are
/// at most 2^32.
pub(crate) fn owners_of(
    alloc: Global,
    pieces: usize,
    candidates: &[FoldCandidate],
) -> Result<Vec<Option<Owner>>, Memory>
    requires { AreCandidates pieces candidates.now }
    ensures owners { IfOk result (λ owners. AreOwners candidates.now pieces owners.items) }
    ensures few { IfOk result (λ _. length candidates.now ≤ 2 ^ 32) }
{
    let mut owners = vec![in alloc; None; pieces]?;
    for number in 0..candidates.len() {
        let candidate = &candidates[number];
        let narrow = narrowed(number, candidate.piece);
        take_sections(&mut owners, narrow, candidate);
    }
    Ok(owners)
}

/// A number as a `u32`, which it fits in, since it is not above one.
fn narrowed(number: usize, bound: u32) -> u32
    requires { number ≤ bound }
    ensures { result ≡ number }
{
    number as u32
}

/// Notes the sections of a candidate.
fn take_sections(owners: &mut Vec<Option<Owner>>, number: u32, candidate: &FoldCandidate)
    requires { (rank piece : ℕ) → slice_get (sections_of candidate.now) rank ≡ Some piece → piece < length owners.old.items }
    ensures { WithSections number (sections_of candidate.now) (length (sections_of candidate.now)) owners.old.items owners.new.items }
{
    for rank in 0..candidate.sections() {
        let piece = candidate.section(rank) as usize;
        owners[piece] = Some(Owner {
            candidate: number,
            rank,
        });
    }
}
