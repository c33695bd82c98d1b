//! Rounds that split classes of candidates until none splits.

ghost use Rattle.std.specs.Prelude.{◌≡◌, ◌<◌, ◌≤◌, ◌^◌, ℕ, length, map, slice_index, IfOk};
ghost use Rattle.icf.specs.Folding.{AreLeast};
ghost use Rattle.icf.specs.Rounds.{AreFieldsWithin, AreListsWithin, renamed_field, renamed_place, renamed, IsPlaceBelow, AreKeys, Refines, AreSettled};

use crate::field::{Field, Place};
use crate::first_equal::first_equal;
use link_base::Memory;
use std::alloc::Global;

/// What candidates of one class are told apart by: their fields, where classes stand for candidates.
#[derive(PartialEq, Eq, Hash, Drop)]
pub(crate) struct Key {
    pub class: u32,
    pub fields: Vec<Field>,
}

/// Splits classes of candidates, each by the number of its first, until none splits. A round is one pass over all
/// fields.
pub(crate) fn split_all(
    alloc: Global,
    lists: &[Vec<Field>],
    first: Vec<u32>,
) -> Result<Vec<u32>, Memory>
    requires same_length { length lists.now ≡ length first.items }
    requires few { length first.items ≤ 2 ^ 32 }
    requires first { AreLeast first.items }
    requires within { AreListsWithin (length first.items) lists.now }
    ensures { IfOk result (λ classes. AreSettled lists.now first.items classes.items) }
{
    let mut classes = first;
    loop {
        let refined = refine(alloc, lists, &classes)?;
        if refined == classes {
            return Ok(classes);
        }
        classes = refined;
    }
}

/// One round: candidates stay in one class where their fields are equal as the classes name them.
fn refine(alloc: Global, lists: &[Vec<Field>], classes: &[u32]) -> Result<Vec<u32>, Memory>
    requires same_length { length lists.now ≡ length classes.now }
    requires few { length classes.now ≤ 2 ^ 32 }
    requires within { AreListsWithin (length classes.now) lists.now }
    ensures { IfOk result (λ refined. Refines lists.now classes.now refined.items) }
{
    let keys = keys_of(alloc, lists, classes)?;
    first_equal(alloc, keys)
}

/// The key of each candidate.
fn keys_of(alloc: Global, lists: &[Vec<Field>], classes: &[u32]) -> Result<Vec<Key>, Memory>
    requires same_length { length lists.now ≡ length classes.now }
    requires within { AreListsWithin (length classes.now) lists.now }
    ensures { IfOk result (λ keys. AreKeys lists.now classes.now (length classes.now) keys.items) }
{
    let mut keys = Vec::with_capacity(alloc, classes.len())?;
    for number in 0..classes.len() {
        let fields = renamed(alloc, classes, &lists[number])?;
        keys.push(Key {
            class: classes[number],
            fields,
        })?;
    }
    Ok(keys)
}

/// Fields as classes name them.
fn renamed(alloc: Global, classes: &[u32], fields: &[Field]) -> Result<Vec<Field>, Memory>
    requires { AreFieldsWithin (length classes.now) fields.now }
    ensures { IfOk result (λ named. named.items ≡ renamed classes.now fields.now) }
{
    let mut named = Vec::with_capacity(alloc, fields.len())?;
    for field in fields {
        named.push(Field {
            rank: field.rank,
            at: field.at,
            kind: field.kind,
            place: renamed_place(classes, field.place),
        })?;
    }
    Ok(named)
}

/// A place, where the class stands for the candidate.
fn renamed_place(classes: &[u32], place: Place) -> Place
    requires { IsPlaceBelow (length classes.now) place }
    ensures { result ≡ renamed_place classes.now place }
{
    match place {
        Place::Section {
            candidate,
            rank,
            value,
        } => Place::Section {
            candidate: classes[candidate as usize],
            rank,
            value,
        },
        other => other,
    }
}
