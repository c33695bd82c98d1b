//! How chains of names end, each part of a chain followed once.

ghost use Rattle.std.specs.Prelude.{◌≡◌, ◌<◌, ℕ, Bool, true, List, None, length, OnOk};
ghost use Rattle.std.specs.List.{All};
ghost use Rattle.symbol_names.specs.Interning.{Numbers};
ghost use Rattle.symbol_names.specs.LinkView.{LinkView};
ghost use Rattle.symbol_table.specs.Links.{link_at, next_of, end_of, LeadsBelow, AreSteps, AreKnown, AreMeanings, is_on, IsWalked};
ghost use Rattle.symbol_table.specs.Resolution.{slot_of, passed_on};

use crate::link::Link;
use crate::meaning::{Meaning, NoMeaning};
use indexmap::IndexSet;
use link_base::{Memory, Name};
use std::alloc::Global;
use symbol_names::name_at;

/// A name that a chain has passed, by its number.
#[derive(Clone, Copy)]
pub(crate) struct Passed {
    pub(crate) number: usize,
    /// The number of the name that it leads to.
    pub(crate) next: usize,
    /// It is a slot of that name.
    pub(crate) slot: bool,
}

/// Follows the chain of each name that leads to another. Then none does: each link says what its name means.
pub(crate) fn settle<'a>(
    alloc: Global,
    names: &IndexSet<Name<'a>>,
    links: &mut Vec<Link<'a>>,
) -> Result<(), Memory>
    requires long { length links.old.items ≡ length names.now.keys }
    requires below { All (LeadsBelow (length links.old.items)) links.old.items }
    ensures { OnOk result ((view : LinkView) (chosen : List (List Bool))
        → AreSteps view chosen names.now.keys links.old.items → AreMeanings view chosen names.now.keys links.new.items) }
{
    let mut path = Vec::new(alloc);
    for number in 0..links.len() {
        if next_of(&links[number]).is_some() {
            follow(names, links, &mut path, number)?;
        }
    }
    Ok(())
}

/// Follows the chain of a name to its end, by which those of all names of the chain are noted. A name that the chain has come to
/// is taken for a cycle until its end is known, so that a chain that comes back to itself ends there as one.
fn follow<'a>(
    names: &IndexSet<Name<'a>>,
    links: &mut Vec<Link<'a>>,
    path: &mut Vec<Passed>,
    number: usize,
) -> Result<(), Memory>
    requires long { length links.old.items ≡ length names.now.keys }
    requires within { number < length links.old.items }
    requires below { All (LeadsBelow (length links.old.items)) links.old.items }
    ensures long { OnOk result (length links.new.items ≡ length links.old.items) }
    ensures below { OnOk result (All (LeadsBelow (length links.old.items)) links.new.items) }
    ensures known { OnOk result ((view : LinkView) (chosen : List (List Bool))
        → AreKnown view chosen names.now.keys links.old.items → AreKnown view chosen names.now.keys links.new.items) }
    ensures ended { OnOk result (next_of (link_at links.new.items number) ≡ None) }
    ensures stay { OnOk result ((other : ℕ) → next_of (link_at links.old.items other) ≡ None → next_of (link_at links.new.items other) ≡ None) }
{
    path.clear();
    let mut at = number;
    while let Some((next, slot)) = next_of(&links[at]) {
        path.push(Passed {
            number: at,
            next,
            slot,
        })?;
        links[at] = Link::Ends(Err(NoMeaning::WeakCycle));
        at = next;
    }
    let end = end_of(&links[at]);
    note_ends(names, links, path, end);
    Ok(())
}

/// The number of the name that a link leads to, and whether it is a slot of that.
fn next_of(link: &Link<'_>) -> Option<(usize, bool)>
    ensures { result ≡ next_of link.now }
{
    match link {
        Link::Ends(_) => None,
        Link::Leads { number, slot } => Some((*number, *slot)),
    }
}

/// The end that a link says. One that leads on has none.
pub(crate) fn end_of<'a>(link: &Link<'a>) -> Result<Meaning<'a>, NoMeaning>
    ensures { result ≡ end_of link.now }
{
    match link {
        Link::Ends(end) => again(end),
        Link::Leads { .. } => Err(NoMeaning::WeakCycle),
    }
}

/// The same end.
fn again<'a>(end: &Result<Meaning<'a>, NoMeaning>) -> Result<Meaning<'a>, NoMeaning>
    ensures { result ≡ end.now }
{
    match end {
        Ok(meaning) => Ok(meaning.again()),
        Err(none) => Err(*none),
    }
}

/// Walks a path back, which leads to a name with this end, and notes the end of each name on it.
fn note_ends<'a>(
    names: &IndexSet<Name<'a>>,
    links: &mut Vec<Link<'a>>,
    path: &mut Vec<Passed>,
    end: Result<Meaning<'a>, NoMeaning>,
)
    requires long { length links.old.items ≡ length names.now.keys }
    requires within { All (λ one. (one.number < length names.now.keys) × (one.next < length names.now.keys)) path.old.items }
    ensures long { length links.new.items ≡ length links.old.items }
    ensures below { (count : ℕ) → All (LeadsBelow count) links.old.items → All (LeadsBelow count) links.new.items }
    ensures known { (view : LinkView) (chosen : List (List Bool)) (number : ℕ)
        → IsWalked view chosen names.now.keys number path.old.items end.entry links.old.items
        → AreKnown view chosen names.now.keys links.new.items }
    ensures ended { (other : ℕ) → next_of (link_at links.old.items other) ≡ None → next_of (link_at links.new.items other) ≡ None }
{
    let mut end = end;
    while let Some(passed) = path.pop() {
        end = passed_on(names, passed, end);
        links[passed.number] = Link::Ends(again(&end));
    }
}

/// What a name means that was passed, by what the name means that it leads to.
fn passed_on<'a>(
    names: &IndexSet<Name<'a>>,
    passed: Passed,
    end: Result<Meaning<'a>, NoMeaning>,
) -> Result<Meaning<'a>, NoMeaning>
    requires { passed.next < length names.now.keys }
    ensures { (name : List ℕ) → Numbers names.now.keys passed.next name → result ≡ passed_on passed.slot name end.entry }
{
    if passed.slot {
        slot_of(name_at(names, passed.next), end)
    } else {
        end
    }
}

/// What a slot of a name means, by what the name means: a pointer to that, but for a pointer there is none.
pub(crate) fn slot_of<'a>(
    name: Name<'a>,
    end: Result<Meaning<'a>, NoMeaning>,
) -> Result<Meaning<'a>, NoMeaning>
    ensures { result ≡ slot_of name.entry end.entry }
{
    match end {
        Ok(Meaning::LocalSlot(_)) => Err(NoMeaning::Undefined),
        Ok(_) => Ok(Meaning::LocalSlot(name)),
        Err(none) => Err(none),
    }
}
