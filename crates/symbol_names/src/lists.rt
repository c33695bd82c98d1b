//! The lists of a module, with names by their numbers.

ghost use Rattle.std.specs.Prelude.{◌≡◌, ℕ, List, IfOk, OnOk};
ghost use Rattle.std.specs.List.{All, AllZip};
ghost use Rattle.symbol_names.specs.Interning.{KeepsNumbers, AreRecords, IsNamedSo, NotesDefinition, NotesCommon, NotesDefault, NotesWeak, NotesLists};
ghost use Rattle.module_view.specs.ImportModule.{module_definitions};
ghost use Rattle.module_view.specs.SymbolLists.{weaks_of};

use crate::alternates::note_directives;
use crate::interning::{number_of, number_symbol};
use crate::noted::{NotedAsked, NotedCommon, NotedDefault, NotedDefinition, NotedLists, NotedWeak};
use crate::records::no_records;
use crate::references::note_asked;
use crate::weak_default::{WeakDefault, default_of};
use indexmap::IndexSet;
use link_base::{Memory, Name};
use module_view::{Common, Definition, Module};
use std::alloc::Global;

/// The lists of a module, by the numbers of their names. That of what it asks for takes the memory of another one.
pub fn note_lists<'a>(
    alloc: Global,
    names: &mut IndexSet<Name<'a>>,
    module: &Module<'a>,
    other: Vec<NotedAsked>,
) -> Result<NotedLists, Memory>
    ensures kept { KeepsNumbers names.old.keys names.new.keys }
    ensures noted { IfOk result (NotesLists names.new.keys «module».now) }
{
    reserve_names(names, module)?;
    let alternates = note_directives(alloc, names, module.directives())?;
    let mut records = no_records(alloc, record_count(module))?;
    let definitions = note_provided(alloc, names, &mut records, module)?;
    let commons = note_commons(alloc, names, &mut records, module.commons())?;
    let weaks = note_weaks(alloc, names, &mut records, module)?;
    let asked = note_asked(names, &mut records, module, other)?;
    Ok(NotedLists {
        definitions,
        commons,
        weaks,
        alternates,
        records,
        asked,
    })
}

/// Room for the names that a module defines and asks for.
fn reserve_names<'a>(names: &mut IndexSet<Name<'a>>, module: &Module<'a>) -> Result<(), Memory>
    ensures { names.new.keys ≡ names.old.keys }
{
    let most = module
        .definitions()
        .len()
        .saturating_add(module.references().len());
    names.reserve(most)?;
    Ok(())
}

/// How many symbol records a module has.
fn record_count(module: &Module<'_>) -> u32 {
    match module.object() {
        Some(object) => object.record_count(),
        None => 0,
    }
}

/// What a module defines, by the numbers of its names. A short import has no records.
fn note_provided<'a>(
    alloc: Global,
    names: &mut IndexSet<Name<'a>>,
    records: &mut Vec<u32>,
    module: &Module<'a>,
) -> Result<Vec<NotedDefinition>, Memory>
    ensures kept { KeepsNumbers names.old.keys names.new.keys }
    ensures noted { IfOk result (λ noted. AllZip (NotesDefinition names.new.keys) (module_definitions «module».now) noted.items) }
    ensures records { OnOk result (AreRecords names.old.keys «module».now.bytes records.old.items
        → AreRecords names.new.keys «module».now.bytes records.new.items) }
{
    let definitions = note_definitions(alloc, names, records, module.definitions())?;
    if module.import().is_some() {
        records.clear();
    }
    Ok(definitions)
}

/// Definitions, by the numbers of their names.
fn note_definitions<'a>(
    alloc: Global,
    names: &mut IndexSet<Name<'a>>,
    records: &mut Vec<u32>,
    definitions: &[Definition<'a>],
) -> Result<Vec<NotedDefinition>, Memory>
    ensures kept { KeepsNumbers names.old.keys names.new.keys }
    ensures noted { IfOk result (λ noted. AllZip (NotesDefinition names.new.keys) definitions.now noted.items) }
    ensures records { OnOk result ((bytes : List ℕ) → All (λ definition. IsNamedSo bytes definition.symbol definition.name) definitions.now
        → AreRecords names.old.keys bytes records.old.items → AreRecords names.new.keys bytes records.new.items) }
{
    let mut noted = Vec::with_capacity(alloc, definitions.len())?;
    for definition in definitions {
        let name = number_symbol(names, records, definition.symbol, &definition.name)?;
        noted.push(NotedDefinition {
            name,
            place: definition.place,
        })?;
    }
    Ok(noted)
}

/// Commons, by the numbers of their names.
fn note_commons<'a>(
    alloc: Global,
    names: &mut IndexSet<Name<'a>>,
    records: &mut Vec<u32>,
    commons: &[Common<'a>],
) -> Result<Vec<NotedCommon>, Memory>
    ensures kept { KeepsNumbers names.old.keys names.new.keys }
    ensures noted { IfOk result (λ noted. AllZip (NotesCommon names.new.keys) commons.now noted.items) }
    ensures records { OnOk result ((bytes : List ℕ) → All (λ common. IsNamedSo bytes common.symbol common.name) commons.now
        → AreRecords names.old.keys bytes records.old.items → AreRecords names.new.keys bytes records.new.items) }
{
    let mut noted = Vec::with_capacity(alloc, commons.len())?;
    for common in commons {
        let name = number_symbol(names, records, common.symbol, &common.name)?;
        noted.push(NotedCommon {
            name,
            symbol: common.symbol,
            size: common.size,
        })?;
    }
    Ok(noted)
}

/// The weak externals of a module, by the numbers of their names.
fn note_weaks<'a>(
    alloc: Global,
    names: &mut IndexSet<Name<'a>>,
    records: &mut Vec<u32>,
    module: &Module<'a>,
) -> Result<Vec<NotedWeak>, Memory>
    ensures kept { KeepsNumbers names.old.keys names.new.keys }
    ensures noted { IfOk result (λ noted.
        AllZip (NotesWeak names.new.keys «module».now.bytes) (weaks_of «module».now.bytes) noted.items) }
    ensures records { OnOk result (AreRecords names.old.keys «module».now.bytes records.old.items
        → AreRecords names.new.keys «module».now.bytes records.new.items) }
{
    let weaks = module.weaks();
    let mut noted = Vec::with_capacity(alloc, weaks.len())?;
    for weak in weaks {
        let name = number_symbol(names, records, weak.symbol, &weak.name)?;
        let default = note_default(names, default_of(module, weak.tag))?;
        noted.push(NotedWeak { name, default })?;
    }
    Ok(noted)
}

/// A default, by the number of its name.
fn note_default<'a>(
    names: &mut IndexSet<Name<'a>>,
    default: WeakDefault<'a>,
) -> Result<NotedDefault, Memory>
    ensures kept { KeepsNumbers names.old.keys names.new.keys }
    ensures noted { IfOk result (λ noted. NotesDefault names.new.keys default.entry noted) }
{
    match default {
        WeakDefault::Name(name) => {
            let number = number_of(names, &name)?;
            Ok(NotedDefault::Name(number))
        }
        WeakDefault::Place { section, value } => Ok(NotedDefault::Place { section, value }),
        WeakDefault::Absolute(value) => Ok(NotedDefault::Absolute(value)),
        WeakDefault::Nothing => Ok(NotedDefault::Nothing),
    }
}
