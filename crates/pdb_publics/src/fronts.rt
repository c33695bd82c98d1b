//! Numbers by which most publics are told apart, so that a sort compares and moves little: names and keys are compared
//! where these numbers are equal.

ghost use Rattle.std.specs.Prelude.{◌≡◌, ◌<◌, ◌^◌, slice_index, IsPermutation, IsSorted};
ghost use Rattle.std.specs.Ordering.{as_partial_cmp};
ghost use Rattle.std.specs.Cmp.Rules.{comparing};
ghost use Rattle.std.proofs.Common.{rules, refl};
ghost use Rattle.pdb_publics.specs.Fronts.{IsTextFront, fronted_cmp};

use link_base::Name;
use std::cmp::Ordering;

/// An item behind a number that is below those of items which stand later, or equal to them.
#[derive(PartialEq, Eq, Drop)]
pub(crate) struct Fronted<'r, T> {
    pub front: u64,
    pub item: &'r T,
}

impl<T: Ord> PartialOrd for Fronted<'_, T> {
    ghost partial_cmp = { as_partial_cmp (fronted_cmp T.cmp) };

    ghost laws = { Prim.search (comparing, rules) };

    fn partial_cmp(&self, other: &Self) -> Option<Ordering> {
        Some(self.cmp(other))
    }
}

impl<T: Ord> Ord for Fronted<'_, T> {
    ghost cmp = { fronted_cmp T.cmp };

    ghost total = { Prim.search (comparing, rules) };

    ghost matches_partial_cmp = { λ x y. refl };

    ghost matches_eq = { Prim.search (comparing, rules) };

    fn cmp(&self, other: &Self) -> Ordering {
        // Only this test branches, and numbers are seldom equal.
        if self.front == other.front {
            return cmp_items(self.item, other.item);
        }
        self.front.cmp(&other.front)
    }
}

/// The items by their numbers, and those of one number by themselves. Items that tie may change places, which nobody sees
/// where they are equal.
pub(crate) fn sort_fronted<T: Ord>(keys: &mut Vec<Fronted<'_, T>>)
    ensures permutation { IsPermutation keys.old.items keys.new.items }
    ensures sorted { IsSorted (fronted_cmp T.cmp) keys.new.items }
{
    keys.sort_unstable();
}

/// How two items compare. It stands apart, so that the test of the numbers before it is short.
#[cold]
#[inline(never)]
fn cmp_items<T: Ord>(left: &T, right: &T) -> Ordering
    ensures { result ≡ T.cmp left.now right.now }
{
    left.cmp(right)
}

/// The number of the first eight bytes of a name.
pub(crate) fn first_eight(name: &Name<'_>) -> u64
    ensures { IsTextFront 8 name.now result }
{
    let mut front = 0;
    for index in 0..8usize {
        front = 256 * front + u64::from(byte_of(name, index));
    }
    front
}

/// The number of the first two bytes of a name.
pub(crate) fn first_two(name: &Name<'_>) -> u64
    ensures front { IsTextFront 2 name.now result }
    ensures small { result < 2 ^ 16 }
{
    256 * u64::from(byte_of(name, 0)) + u64::from(byte_of(name, 1))
}

/// A byte of a name, 0 behind its end.
fn byte_of(name: &Name<'_>, index: usize) -> u8
    ensures { result ≡ slice_index name.now index }
{
    let prefix = name.prefix();
    if index < prefix.len() {
        return prefix[index];
    }
    byte_in_text(name.rest(), index - prefix.len())
}

/// A byte of a text, 0 behind its end.
fn byte_in_text(text: &[u8], index: usize) -> u8
    ensures { result ≡ slice_index text.now index }
{
    if index < text.len() { text[index] } else { 0 }
}
