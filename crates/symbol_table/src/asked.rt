//! The names that a link asks for, and which of all names it asks for and has.

ghost use Rattle.std.specs.Prelude.{◌≡◌, ◌<◌, ◌&&◌, ◌||◌, not, [], ℕ, List, length, map, is_some, IfOk, OnOk, OnErr};
ghost use Rattle.std.specs.List.{AllZip, IsDistinct, list_any};
ghost use Rattle.link_base.specs.NameText.{same_name};
ghost use Rattle.symbol_table.specs.LinkerNames.{linker_meaning};
ghost use Rattle.symbol_names.specs.References.{asked_by_name};
ghost use Rattle.symbol_names.specs.Interning.{Numbers, KeepsNumbers, NotesAsked};
ghost use Rattle.symbol_names.specs.Flags.{seeks, flag_of};
ghost use Rattle.symbol_table.specs.AskedParts.{KeepsParts, AddsLists, AreWithin};

use crate::linker_names::linker_meaning;
use indexmap::IndexSet;
use link_base::{Memory, Name};
use std::alloc::Global;
use symbol_names::flags::{flag_at, grow, mark_commons, mark_definitions, mark_sought};
use symbol_names::{NotedAsked, NotedLists, name_at, note_words};

/// The names that a link asks for, in order, and flags by the numbers of all names.
#[derive(Drop)]
pub(crate) struct AskedNames {
    /// What the command line asks for, then what the modules ask for.
    pub(crate) list: Vec<NotedAsked>,
    /// A module defines or shares the name.
    pub(crate) provided: Vec<bool>,
    /// It is asked for with a search.
    pub(crate) sought: Vec<bool>,
}

/// What the command line asks for.
pub(crate) fn asked_by_words<'a>(
    alloc: Global,
    names: &mut IndexSet<Name<'a>>,
    words: &[Name<'a>],
) -> Result<AskedNames, Memory>
    ensures kept { KeepsNumbers names.old.keys names.new.keys }
    ensures distinct { OnOk result (IsDistinct same_name names.new.keys) }
    ensures list { IfOk result (λ asked. AllZip (NotesAsked names.new.keys) (map asked_by_name words.now) asked.list.items) }
    ensures provided { IfOk result (λ asked. asked.provided.items ≡ []) }
    ensures sought { IfOk result (λ asked. (number : ℕ) → flag_of asked.sought.items number ≡ list_any (seeks number) asked.list.items) }
{
    let list = note_words(alloc, names, words)?;
    let mut sought = vec![in alloc; false; names.len()]?;
    mark_sought(&mut sought, &list);
    Ok(AskedNames {
        list,
        provided: Vec::new(alloc),
        sought,
    })
}

/// Adds what a module provides and asks for, where there are so many names. Where memory is wanting, nothing is added.
pub(crate) fn add_lists(
    asked: &mut AskedNames,
    count: usize,
    lists: &NotedLists,
) -> Result<(), Memory>
    requires { AreWithin count lists.now }
    ensures added { OnOk result (AddsLists lists.now asked.old asked.new) }
    ensures unchanged { OnErr result (KeepsParts asked.old asked.new) }
{
    grow(&mut asked.provided, count)?;
    grow(&mut asked.sought, count)?;
    asked.list.extend_from_slice(&lists.asked)?;
    mark_definitions(&mut asked.provided, &lists.definitions);
    mark_commons(&mut asked.provided, &lists.commons);
    mark_sought(&mut asked.sought, &lists.asked);
    Ok(())
}

// ---- which are there, and which are open

/// Whether a module has the name of a number, or the linker gives it a meaning.
pub(crate) fn is_there(asked: &AskedNames, number: usize, name: &Name<'_>) -> bool
    ensures { result ≡ (flag_of asked.now.provided.items number || is_some (linker_meaning name.now)) }
{
    flag_at(&asked.provided, number) || linker_meaning(name).is_some()
}

/// Whether the name of a number is asked for with a search, and is not there.
pub(crate) fn is_sought(asked: &AskedNames, number: usize, name: &Name<'_>) -> bool
    ensures { result ≡ (flag_of asked.now.sought.items number
        && not (flag_of asked.now.provided.items number || is_some (linker_meaning name.now))) }
{
    flag_at(&asked.sought, number) && !is_there(asked, number, name)
}

/// Whether libraries are searched for what is asked for: with a search, and it is not there.
pub(crate) fn is_open<'a>(asked: &AskedNames, names: &IndexSet<Name<'a>>, one: NotedAsked) -> bool
    requires { one.name < length names.now.keys }
    ensures { (name : List ℕ) → Numbers names.now.keys one.name name
        → result ≡ (one.search && not (flag_of asked.now.provided.items one.name || is_some (linker_meaning name))) }
{
    if !one.search || flag_at(&asked.provided, one.name as usize) {
        return false;
    }
    linker_meaning(&name_at(names, one.name as usize)).is_none()
}
