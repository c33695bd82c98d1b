//! The sections of modules that go by a name: one walk over what each module keeps of its COMDAT sections.

ghost use Rattle.std.specs.Prelude.{◌≡◌, ◌≤◌, ◌<◌, ◌++◌, ◌∷◌, [], if◌then◌else◌, ℕ, List, length, map, IfOk, OnOk};
ghost use Rattle.std.specs.List.{All, AllZip};
ghost use Rattle.std.specs.Option.{IfSome};
ghost use Rattle.link_base.specs.Limits as limit;
ghost use Rattle.coff_records.specs.ObjectFile.{section_total};
ghost use Rattle.module_view.specs.Choices.{SaysChoice};
ghost use Rattle.module_view.specs.Module.{ModuleView, module_at};
ghost use Rattle.module_view.specs.ImportModule.{module_definitions};
ghost use Rattle.module_view.specs.Opening.{IsOpened};
ghost use Rattle.symbol_names.specs.Interning.{NotesDefinition, NotesModule};
ghost use Rattle.symbol_names.specs.Kept.{noted_view};
ghost use Rattle.comdat.specs.Entries.{IsSectionOf, KeepsEntries};
ghost use Rattle.comdat.specs.Groups.{Named};
ghost use Rattle.comdat.specs.Selection.{goes_by_name, entry_in, entries_of, all_entries};

use crate::entry::Entry;
use indexmap::IndexSet;
use link_base::{Memory, Name};
use module_view::{ComdatChoice, Module};
use std::alloc::Global;
use symbol_names::{ModuleNames, NotedDefinition};

/// Reads the sections of all modules that go by a name, in the order of the modules and of their sections. Of each module is
/// noted what it defines, by the numbers of names.
pub(crate) fn read_sections<'a>(
    alloc: Global,
    modules: &[Module<'a>],
    names: &IndexSet<Name<'a>>,
    noted: &[ModuleNames<'a>],
) -> Result<Vec<Entry>, Memory>
    requires few { length modules.now ≤ limit.MODULE_LIMIT }
    requires modules { map noted_view noted.now ≡ modules.now }
    requires noted { All (NotesModule names.now.keys) noted.now }
    ensures { IfOk result (λ entries. KeepsEntries names.now.keys modules.now (all_entries modules.now) entries.items) }
{
    let mut entries = Vec::new(alloc);
    for position in 0..modules.len() {
        let definitions = &noted[position].definitions;
        read_module(
            &mut entries,
            position as u32,
            &modules[position],
            definitions,
        )?;
    }
    Ok(entries)
}

/// Reads those of the module at a position, and appends those that go by a name.
fn read_module(
    entries: &mut Vec<Entry>,
    position: u32,
    module: &Module<'_>,
    noted: &[NotedDefinition],
) -> Result<(), Memory>
    requires { length noted.now ≡ length (module_definitions «module».now) }
    ensures { OnOk result ((names : List (List ℕ)) (modules : List ModuleView) (named : List Named)
        → position < length modules
        → module_at modules position ≡ «module».now
        → AllZip (NotesDefinition names) (module_definitions «module».now) noted.now
        → KeepsEntries names modules named entries.old.items
        → KeepsEntries names modules (named ++ entries_of position «module».now.bytes) entries.new.items) }
{
    let choices = module.comdat_choices();
    if choices.is_empty() {
        return Ok(());
    }
    for index in 0..section_count(module) {
        read_section(
            entries,
            position,
            index + 1,
            &choices[index as usize],
            noted,
        )?;
    }
    Ok(())
}

/// Appends a section, where it goes by a name, with the number that is noted of the definition of its leader.
fn read_section(
    entries: &mut Vec<Entry>,
    position: u32,
    section: u32,
    choice: &Option<ComdatChoice>,
    noted: &[NotedDefinition],
) -> Result<(), Memory>
    requires { IfSome choice.now (λ said. IfSome said.leader (λ k. k < length noted.now)) }
    ensures { OnOk result ((names : List (List ℕ)) (modules : List ModuleView) (named : List Named) (view : ModuleView)
        → IsSectionOf modules position view section
        → SaysChoice view.bytes (module_definitions view) section choice.now
        → AllZip (NotesDefinition names) (module_definitions view) noted.now
        → KeepsEntries names modules named entries.old.items
        → KeepsEntries names modules
        (named ++ (if goes_by_name view.bytes section then entry_in position view.bytes section ∷ [] else []))
        entries.new.items) }
{
    let Some(choice) = choice else {
        return Ok(());
    };
    if choice.parent.is_some() {
        return Ok(());
    }
    let Some(leader) = choice.leader else {
        return Ok(());
    };
    entries.push(Entry {
        number: noted[leader as usize].name,
        module: position,
        section,
        selection: choice.selection,
    })?;
    Ok(())
}

/// How many sections a module has.
pub(crate) fn section_count(module: &Module<'_>) -> u32
    ensures count { result ≡ section_total «module».now.bytes }
    ensures opened { IsOpened «module».now }
{
    match module.object() {
        Some(object) => object.section_count(),
        None => 0,
    }
}
