//! Chains of merges, followed by the places of their names. Each target is looked up once; then a round doubles how far
//! each chain is followed, so that no chain is walked from each of its names. The rounds stop where they change nothing.

ghost use Rattle.std.specs.Prelude.{◌≡◌, ◌<◌, ◌^◌, ℕ, List, All, IfOk, length, map};
ghost use Rattle.section_group.specs.Chains.{AreTargets};
ghost use Rattle.section_group.specs.Places.{place_among, next_places, later_place, AreOwnPlaces, LeadsFar};

use indexmap::IndexMap;
use link_base::{Memory, Name};
use std::alloc::Global;

/// For each name that is merged, the place of the last merge on its way, which is followed for at least `far` steps.
pub(crate) fn last_places(
    alloc: Global,
    targets: &IndexMap<Name<'_>, Name<'_>>,
    far: u128,
) -> Result<Vec<usize>, Memory>
    requires { far < 2 ^ 127 }
    ensures leads { IfOk result (λ lasts. (given : List (List ℕ × List ℕ)) → AreTargets given targets.now.entries
        → LeadsFar given targets.now.entries far lasts.items) }
    ensures len { IfOk result (λ lasts. length lasts.items ≡ length targets.now.entries) }
{
    let nexts = next_places(alloc, targets)?;
    follow_places(alloc, &nexts, far)
}

/// For each target its place among the names that are merged, or how many these are where it is none of them.
fn next_places(alloc: Global, targets: &IndexMap<Name<'_>, Name<'_>>) -> Result<Vec<usize>, Memory>
    ensures { IfOk result (λ nexts. nexts.items ≡ next_places targets.now.entries) }
{
    let mut nexts = Vec::with_capacity(alloc, targets.len())?;
    for target in targets.values() {
        nexts.push(place_of(targets, target))?;
    }
    Ok(nexts)
}

/// The place of a name among those that are merged, or how many these are.
fn place_of(targets: &IndexMap<Name<'_>, Name<'_>>, name: &Name<'_>) -> usize
    ensures { result ≡ place_among targets.now.entries name.now }
{
    match targets.get_index_of(name) {
        Some(at) => at,
        None => targets.len(),
    }
}

/// The last merge on the way from each place.
fn follow_places(alloc: Global, nexts: &[usize], far: u128) -> Result<Vec<usize>, Memory>
    requires { far < 2 ^ 127 }
    ensures leads { IfOk result (λ lasts. (given entries : List (List ℕ × List ℕ)) → AreTargets given entries
        → nexts.now ≡ next_places entries → LeadsFar given entries far lasts.items) }
    ensures len { IfOk result (λ lasts. length lasts.items ≡ length nexts.now) }
{
    let mut lasts = own_places(alloc, nexts.len())?;
    let mut steps = 1u128;
    while steps < far {
        let later = later_places(alloc, nexts, &lasts)?;
        if later == lasts {
            return Ok(lasts);
        }
        lasts = later;
        steps *= 2;
    }
    Ok(lasts)
}

/// Each place itself, which is the last after one step.
fn own_places(alloc: Global, len: usize) -> Result<Vec<usize>, Memory>
    ensures { IfOk result (λ places. AreOwnPlaces len places.items) }
{
    let mut places = Vec::with_capacity(alloc, len)?;
    for place in 0..len {
        places.push(place)?;
    }
    Ok(places)
}

/// The last places after twice as many steps.
fn later_places(alloc: Global, nexts: &[usize], lasts: &[usize]) -> Result<Vec<usize>, Memory>
    requires { All (λ last. last < length nexts.now) lasts.now }
    ensures later { IfOk result (λ later. later.items ≡ map (later_place nexts.now lasts.now) lasts.now) }
    ensures within { IfOk result (λ later. All (λ last. last < length nexts.now) later.items) }
{
    let mut later = Vec::with_capacity(alloc, lasts.len())?;
    for last in lasts {
        later.push(later_place(nexts, lasts, *last))?;
    }
    Ok(later)
}

/// The last place on the way from the target of a last place, or that place where its target is not merged.
fn later_place(nexts: &[usize], lasts: &[usize], last: usize) -> usize
    requires within { last < length nexts.now }
    requires all_within { All (λ last. last < length nexts.now) lasts.now }
    ensures is { result ≡ later_place nexts.now lasts.now last }
    ensures within { result < length nexts.now }
{
    let next = nexts[last];
    if next < lasts.len() {
        lasts[next]
    } else {
        last
    }
}
