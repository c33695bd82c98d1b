//! The choice in each of several groups.

ghost use Rattle.std.specs.Prelude.{◌≡◌, ◌<◌, ◌==◌, ◌&&◌, None, Some, List, length, map, slice_index, IfOk, OnOk, IfErr};
ghost use Rattle.std.specs.List.{All, AllPairs, list_all};
ghost use Rattle.coff_aux.specs.AuxRecords.{COMDAT_SELECT_ANY};
ghost use Rattle.module_view.specs.Module.{ModuleView};
ghost use Rattle.comdat.specs.Choice.{conflict_place};
ghost use Rattle.comdat.specs.Entries.{entry_at, named_by, selection_at, KeepsEntry, IsSection, AreApart};
ghost use Rattle.comdat.specs.Groups.{name_at, chosen_of, is_selected, is_same_section, conflict_in, first_conflict, RefusesChoice};
ghost use Rattle.comdat.specs.Numbering.{candidate_at, candidates_at, AreNumbers, AreLists, AreWinners};
ghost use Rattle.comdat.specs.Plain.{plain};

use crate::candidate::Candidate;
use crate::choice::choose;
use crate::entry::Entry;
use crate::error::ChooseError;
use crate::firsts::firsts_of_any;
use crate::lists::group_lists;
use crate::numbering::{Numbering, number_groups};
use indexmap::IndexSet;
use link_base::{Memory, Name};
use module_view::Module;
use std::alloc::Global;
use symbol_names::name_at;

/// For each section whether it is the chosen one of its group. Where all sections are ANY, that is the first of its name.
pub(crate) fn select<'a>(
    alloc: Global,
    modules: &[Module<'a>],
    names: &IndexSet<Name<'a>>,
    entries: &[Entry],
) -> Result<Vec<bool>, ChooseError<'a>>
    requires kept { All (KeepsEntry names.now.keys modules.now) entries.now }
    requires apart { AllPairs AreApart (named_by modules.now entries.now) }
    ensures selected { IfOk result (λ flags. flags.items
        ≡ map (is_selected (named_by modules.now entries.now)) (named_by modules.now entries.now)) }
    ensures accepted { OnOk result (first_conflict (named_by modules.now entries.now) ≡ None) }
    ensures refused { IfErr result (RefusesChoice (first_conflict (named_by modules.now entries.now))) }
{
    let firsts = firsts_of_any(alloc, names, entries)?;
    if let Some(flags) = firsts {
        return Ok(flags);
    }
    let numbering = number_groups(alloc, names, entries)?;
    let lists = group_lists(alloc, &numbering)?;
    let winners = winners(alloc, modules, names, entries, &numbering, &lists)?;
    let mut flags = Vec::with_capacity(alloc, entries.len())?;
    for (index, entry) in entries.iter().enumerate() {
        let winner = winners[numbering.numbers[index]] as usize;
        flags.push(is_same_section(entry, &entries[winner]))?;
    }
    Ok(flags)
}

/// The place of the section that each group chooses, by its number.
fn winners<'a>(
    alloc: Global,
    modules: &[Module<'a>],
    names: &IndexSet<Name<'a>>,
    entries: &[Entry],
    numbering: &Numbering,
    lists: &[Vec<u32>],
) -> Result<Vec<u32>, ChooseError<'a>>
    requires kept { All (KeepsEntry names.now.keys modules.now) entries.now }
    requires numbers { AreNumbers (named_by modules.now entries.now) numbering.now.numbers.items numbering.now.firsts.items }
    requires lists { AreLists numbering.now.numbers.items (length numbering.now.numbers.items) (length numbering.now.firsts.items) lists.now }
    ensures within { IfOk result (λ winners. All (λ k. k < length entries.now) winners.items) }
    ensures winners { IfOk result (λ winners. AreWinners (named_by modules.now entries.now) numbering.now.firsts.items winners.items) }
    ensures accepted { OnOk result (first_conflict (named_by modules.now entries.now) ≡ None) }
    ensures refused { IfErr result (RefusesChoice (first_conflict (named_by modules.now entries.now))) }
{
    let mut winners = Vec::with_capacity(alloc, lists.len())?;
    let mut group = Vec::new(alloc);
    for places in lists {
        let winner = group_winner(&mut group, modules, names, entries, places)?;
        winners.push(winner)?;
    }
    Ok(winners)
}

/// The place of the section that a group chooses, which is the first where each is ANY: no size or body is read then.
fn group_winner<'a>(
    group: &mut Vec<Candidate<'a>>,
    modules: &[Module<'a>],
    names: &IndexSet<Name<'a>>,
    entries: &[Entry],
    places: &[u32],
) -> Result<u32, ChooseError<'a>>
    requires kept { All (KeepsEntry names.now.keys modules.now) entries.now }
    requires places { All (λ k. k < length entries.now) places.now }
    requires some { 0 < length places.now }
    ensures within { IfOk result (λ winner. winner < length entries.now) }
    ensures chosen { IfOk result (λ winner. chosen_of (candidates_at (named_by modules.now entries.now) places.now)
        ≡ Some (candidate_at (named_by modules.now entries.now) winner)) }
    ensures accepted { OnOk result (conflict_place (candidates_at (named_by modules.now entries.now) places.now) ≡ None) }
    ensures refused { IfErr result (RefusesChoice (conflict_in (name_at (named_by modules.now entries.now) (slice_index places.now 0))
        (candidates_at (named_by modules.now entries.now) places.now))) }
{
    let first = places[0];
    if are_all_any(entries, places) {
        return Ok(first);
    }
    gather(group, modules, entries, places)?;
    match choose(group) {
        Ok(place) => Ok(places[place]),
        Err(conflict) => Err(ChooseError::Conflict {
            name: name_at(names, entries[first as usize].number as usize),
            first: group[0].module,
            second: group[conflict.second].module,
        }),
    }
}

/// Whether the sections at these places are all ANY.
fn are_all_any(entries: &[Entry], places: &[u32]) -> bool
    requires { All (λ k. k < length entries.now) places.now }
    ensures { result ≡ list_all (λ k. selection_at entries.now k == COMDAT_SELECT_ANY) places.now }
{
    for place in places {
        if !entries[*place as usize].is_any() {
            return false;
        }
    }
    true
}

/// Replaces a list by the sections at these places.
fn gather<'a>(
    group: &mut Vec<Candidate<'a>>,
    modules: &[Module<'a>],
    entries: &[Entry],
    places: &[u32],
) -> Result<(), Memory>
    requires sections { All (IsSection modules.now) entries.now }
    requires places { All (λ k. k < length entries.now) places.now }
    ensures { OnOk result (map plain group.new.items ≡ candidates_at (named_by modules.now entries.now) places.now) }
{
    group.clear();
    for place in places {
        group.push(entries[*place as usize].candidate(modules))?;
    }
    Ok(())
}

/// Whether two are one section.
fn is_same_section(one: &Entry, other: &Entry) -> bool
    ensures { (modules : List ModuleView) → result
        ≡ is_same_section (entry_at modules one.now).candidate (entry_at modules other.now).candidate }
{
    one.module == other.module && one.section == other.section
}
