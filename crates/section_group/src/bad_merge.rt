//! The merges that are refused, and where names lead when none is.

ghost use Rattle.std.specs.Prelude.{◌≡◌, ℕ, List, IfOk, OnOk, IfErr, IfNone, IfSome};
ghost use Rattle.indexmap.specs.IndexMap.{keys};
ghost use Rattle.section_group.specs.Merging.{final_name, is_reserved, HasNoBadMerge};
ghost use Rattle.section_group.specs.Chains.{led_by, fails, Follows};
ghost use Rattle.section_group.specs.Merging.{NamesFirstBad, IsRefusal};

use crate::piece::GroupError;
use crate::renames::{Renames, follow};
use link_base::Name;
use std::alloc::Global;

/// Where names lead, unless a merge is refused.
pub(crate) fn resolve<'a>(
    alloc: Global,
    merges: &[(Name<'a>, Name<'a>)],
) -> Result<Renames<'a>, GroupError<'a>>
    ensures accepted { OnOk result (HasNoBadMerge merges.now) }
    ensures leads { IfOk result (λ r. (name : List ℕ) → led_by (keys r.targets) r.ends.items name ≡ final_name merges.now name) }
    ensures refused { IfErr result (IsRefusal merges.now) }
{
    let renames = follow(alloc, merges)?;
    match first_bad_merge(merges, &renames) {
        Some(name) => Err(GroupError::BadMerge(name)),
        None => Ok(renames),
    }
}

/// The left name of the first merge that is refused.
fn first_bad_merge<'a>(merges: &[(Name<'a>, Name<'a>)], renames: &Renames<'a>) -> Option<Name<'a>>
    requires { Follows merges.now renames.now.targets.entries renames.now.ends.items }
    ensures none { IfNone result (HasNoBadMerge merges.now) }
    ensures first { IfSome result (NamesFirstBad merges.now) }
{
    for merge in merges {
        if is_bad(merge, renames) {
            return Some(merge.0.again());
        }
    }
    None
}

/// Whether a merge has another target than the first of its name, leads round in a circle, or names a section that is not
/// merged.
fn is_bad<'a>(merge: &(Name<'a>, Name<'a>), renames: &Renames<'a>) -> bool
    ensures { (given : List (List ℕ × List ℕ)) → (follows : Follows given renames.now.targets.entries renames.now.ends.items)
        → result ≡ fails given follows.steps merge.now }
{
    let (left, right) = merge;
    match renames.target_and_end(left) {
        Some((target, end)) => {
            target != right
                || renames.targets.contains_key(end)
                || is_reserved(left)
                || is_reserved(right)
        }
        None => true,
    }
}

/// Whether the linker lays out the section by rules of its own.
fn is_reserved(name: &Name<'_>) -> bool
    ensures { result ≡ is_reserved name.now }
{
    *name == Name::of(b".pdata") || *name == Name::of(b".rsrc") || *name == Name::of(b".reloc")
}
