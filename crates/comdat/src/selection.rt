//! Which sections of a link are chosen.

ghost use Rattle.std.specs.Prelude.{◌≡◌, ◌≤◌, ◌++◌, ℕ, Bool, List, None, length, map, IfOk, OnOk, IfErr};
ghost use Rattle.std.specs.List.{All};
ghost use Rattle.link_base.specs.Limits as limit;
ghost use Rattle.coff_aux.specs.Comdats.{parents_of};
ghost use Rattle.comdat.specs.Chains.{chain_end};
ghost use Rattle.comdat.specs.Groups.{is_selected, first_conflict, RefusesChoice};
ghost use Rattle.comdat.specs.Selection.{named_sections, sections_of, own_flag, all_entries, chosen_sections};
ghost use Rattle.symbol_names.specs.Interning.{NotesModule};
ghost use Rattle.symbol_names.specs.Kept.{row_flags, rows_of, noted_view};

use crate::chains::follow_chains;
use crate::error::ChooseError;
use crate::groups::select;
use crate::rows::{flags_in_order, own_flags, parents};
use crate::sections::{read_sections, section_count};
use indexmap::IndexSet;
use link_base::{Memory, Name};
use module_view::Module;
use std::alloc::Global;
use symbol_names::{Chosen, ChosenRow, ModuleNames};

/// Which sections of the modules are chosen. Each COMDAT section goes by the name of its leader, the second symbol of the
/// section, where that is external, and of all that go by one name one is chosen, as `choose` says. An associative section
/// is chosen where the section at the end of its chain of parents is. One that is no COMDAT section is chosen, and so is one
/// with neither leader nor parent. The first group that conflicts is told, in the order of the first sections of groups.
/// (PE Format, "COMDAT Sections (Object Only)".) Names go by the numbers that are noted of what the modules define: none is
/// read or hashed. Sizes and contents are read only of groups that are not all ANY.
pub fn choose_all<'a>(
    alloc: Global,
    modules: &[Module<'a>],
    names: &IndexSet<Name<'a>>,
    noted: &[ModuleNames<'a>],
) -> Result<Chosen, ChooseError<'a>>
    requires few { length modules.now ≤ limit.MODULE_LIMIT }
    requires modules { map noted_view noted.now ≡ modules.now }
    requires noted { All (NotesModule names.now.keys) noted.now }
    ensures chosen { IfOk result (λ chosen. rows_of chosen.items ≡ chosen_sections modules.now) }
    ensures accepted { OnOk result (first_conflict (all_entries modules.now) ≡ None) }
    ensures refused { IfErr result (RefusesChoice (first_conflict (all_entries modules.now))) }
{
    let entries = read_sections(alloc, modules, names, noted)?;
    let selected = select(alloc, modules, names, &entries)?;
    let rows = chosen_rows(alloc, modules, &selected)?;
    Ok(rows)
}

/// The sections of each module, by what is said of all that go by a name.
fn chosen_rows(alloc: Global, modules: &[Module<'_>], selected: &[bool]) -> Result<Chosen, Memory>
    requires { selected.now ≡ map (is_selected (all_entries modules.now)) (all_entries modules.now) }
    ensures { IfOk result (λ chosen. rows_of chosen.items ≡ chosen_sections modules.now) }
{
    let mut rest = selected;
    let mut chosen = Vec::with_capacity(alloc, modules.len())?;
    for position in 0..modules.len() {
        let (row, later) = chosen_row(alloc, &modules[position], rest)?;
        chosen.push(row)?;
        rest = later;
    }
    Ok(chosen)
}

/// The sections of a module, and what is said of those of later modules. The list has an entry for each section that goes
/// by a name. Where no section is a COMDAT section, all are chosen; where each parent stands before, no chain is followed.
fn chosen_row<'w>(
    alloc: Global,
    module: &Module<'_>,
    selected: &'w [bool],
) -> Result<(ChosenRow, &'w [bool]), Memory>
    requires { length (named_sections «module».now.bytes) ≤ length selected.now }
    ensures { IfOk result (λ r. (chosen : ℕ → Bool) (later : List Bool)
        → selected.now ≡ map chosen (named_sections «module».now.bytes) ++ later
        → (row_flags r.0 ≡ map (λ section. own_flag chosen «module».now.bytes (chain_end (parents_of «module».now.bytes) section)) (sections_of «module».now.bytes))
        × (r.1.now ≡ later)) }
{
    let count = section_count(module);
    let choices = module.comdat_choices();
    if choices.is_empty() {
        return Ok((ChosenRow::All(count), selected));
    }
    let in_order = flags_in_order(alloc, choices, selected)?;
    if let Some((flags, later)) = in_order {
        return Ok((ChosenRow::Said(flags), later));
    }
    let (own, later) = own_flags(alloc, choices, selected)?;
    let parents = parents(alloc, choices)?;
    let flags = follow_chains(alloc, &parents, &own)?;
    Ok((ChosenRow::Said(flags), later))
}
