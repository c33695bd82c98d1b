//! The names that modules refer to.

ghost use Rattle.std.specs.Prelude.{◌≡◌, ◌≤◌, ◌∷◌, [], length, map, filter_map, Some, None, Err, OnOk, IfErr};
ghost use Rattle.std.specs.List.{cons_option};
ghost use Rattle.link_base.specs.Limits.{MODULE_LIMIT};
ghost use Rattle.link_base.specs.Refusals.{RefusesFor};
ghost use Rattle.directives.specs.Said.{said};
ghost use Rattle.coff_records.specs.ObjectFile.{symbol_at, symbol_entries};
ghost use Rattle.module_view.specs.Module.{module_at};
ghost use Rattle.symbol_names.specs.References.{name_said};
ghost use Rattle.link_pieces.specs.LocalSlots.{asks, name_asked, names_asked, modules_asked, with_meant};
ghost use Rattle.link_plan.specs.References.{no_meaning_fault, name_fault, symbol_fault, symbols_fault, names_fault, object_fault_among, references_fault};

use coff_object::{Object, SymbolRecord};
use directives::Directive;
use link_base::pe_format::{SYM_CLASS_EXTERNAL, SYM_CLASS_WEAK_EXTERNAL, SYM_UNDEFINED};
use link_base::{Fault, Name, Refusal};
use link_pieces::{LinkNames, note_slot};
use module_view::Module;
use std::collections::BTreeSet;
use symbol_names::asked_name;
use symbol_table::NoMeaning;

/// That each name that a symbol of a module stands for, or a directive of it asks for, means something, and notes the slots
/// that they mean. The first that means nothing is refused. Where all names mean something that stands already, none is asked
/// for.
pub(crate) fn check_references<'a>(
    names: &LinkNames<'a>,
    modules: &[Module<'a>],
    slots: &mut BTreeSet<Name<'a>>,
) -> Result<(), Refusal<'a>>
    requires same { names.now.modules ≡ modules.now }
    requires few { length modules.now ≤ MODULE_LIMIT }
    ensures accepted { OnOk result (references_fault names.now ≡ None) }
    ensures refused { IfErr result (RefusesFor (references_fault names.now)) }
    ensures slots { OnOk result (slots.new.keys ≡ with_meant names.now slots.old.keys (modules_asked names.now)) }
{
    if names.all_stand() {
        return Ok(());
    }
    for position in 0..modules.len() {
        check_module(names, &modules[position], position as u32, slots)?;
    }
    Ok(())
}

/// That each of some names, which the command line asks for, means something, and notes the slots that they mean. The first that means
/// nothing is refused.
pub(crate) fn check_names<'a>(
    names: &LinkNames<'a>,
    asked: &[Name<'a>],
    slots: &mut BTreeSet<Name<'a>>,
) -> Result<(), Refusal<'a>>
    ensures accepted { OnOk result (names_fault names.now None asked.now ≡ None) }
    ensures refused { IfErr result (RefusesFor (names_fault names.now None asked.now)) }
    ensures slots { OnOk result (slots.new.keys ≡ with_meant names.now slots.old.keys asked.now) }
{
    for name in asked {
        check_name(names, name, None, slots)?;
    }
    Ok(())
}

/// The same of the module at a position: its symbols, then its directives.
fn check_module<'a>(
    names: &LinkNames<'a>,
    module: &Module<'a>,
    position: u32,
    slots: &mut BTreeSet<Name<'a>>,
) -> Result<(), Refusal<'a>>
    requires { «module».now.bytes ≡ (module_at names.now.modules position).bytes }
    ensures accepted { OnOk result (object_fault_among names.now position «module».now.bytes ≡ None) }
    ensures refused { IfErr result (RefusesFor (object_fault_among names.now position «module».now.bytes)) }
    ensures slots { OnOk result (slots.new.keys ≡ with_meant names.now slots.old.keys (names_asked names.now position «module».now.bytes)) }
{
    if let Some(object) = module.object() {
        check_object(names, object, position, slots)?;
    }
    check_directives(names, module.directives(), position, slots)
}

/// The same of the names that directives of the module at a position ask for.
fn check_directives<'a>(
    names: &LinkNames<'a>,
    directives: &[Directive<'a>],
    position: u32,
    slots: &mut BTreeSet<Name<'a>>,
) -> Result<(), Refusal<'a>>
    ensures accepted { OnOk result (names_fault names.now (Some position) (filter_map name_said (map said directives.now)) ≡ None) }
    ensures refused { IfErr result (RefusesFor (names_fault names.now (Some position) (filter_map name_said (map said directives.now)))) }
    ensures slots { OnOk result (slots.new.keys ≡ with_meant names.now slots.old.keys (filter_map name_said (map said directives.now))) }
{
    for directive in directives {
        check_directive(names, directive, position, slots)?;
    }
    Ok(())
}

/// The same of a name that a directive asks for.
fn check_directive<'a>(
    names: &LinkNames<'a>,
    directive: &Directive<'a>,
    position: u32,
    slots: &mut BTreeSet<Name<'a>>,
) -> Result<(), Refusal<'a>>
    ensures accepted { OnOk result (names_fault names.now (Some position) (filter_map name_said (said directive.now ∷ [])) ≡ None) }
    ensures refused { IfErr result (RefusesFor (names_fault names.now (Some position) (filter_map name_said (said directive.now ∷ [])))) }
    ensures slots { OnOk result (slots.new.keys ≡ with_meant names.now slots.old.keys (filter_map name_said (said directive.now ∷ []))) }
{
    match asked_name(directive) {
        Some(name) => check_name(names, &name, Some(position), slots),
        None => Ok(()),
    }
}

/// The same of the symbols of the object of the module at a position.
fn check_object<'a>(
    names: &LinkNames<'a>,
    object: &Object<'a>,
    position: u32,
    slots: &mut BTreeSet<Name<'a>>,
) -> Result<(), Refusal<'a>>
    requires { object.now ≡ (module_at names.now.modules position).bytes }
    ensures accepted { OnOk result (symbols_fault names.now position object.now ≡ None) }
    ensures refused { IfErr result (RefusesFor (symbols_fault names.now position object.now)) }
    ensures slots { OnOk result (slots.new.keys ≡ with_meant names.now slots.old.keys (filter_map (name_asked names.now position) (symbol_entries object.now))) }
{
    for (index, symbol) in object.symbols() {
        check_symbol(names, index, &symbol, position, slots)?;
    }
    Ok(())
}

/// That the name of a symbol of the module at a position means something, where it asks for a meaning. The slot that it
/// means is noted.
fn check_symbol<'a>(
    names: &LinkNames<'a>,
    index: u32,
    symbol: &SymbolRecord<'a>,
    position: u32,
    slots: &mut BTreeSet<Name<'a>>,
) -> Result<(), Refusal<'a>>
    requires { symbol.now ≡ symbol_at (module_at names.now.modules position).bytes index }
    ensures accepted { OnOk result (symbol_fault names.now position (index, symbol.now) ≡ None) }
    ensures refused { IfErr result (RefusesFor (symbol_fault names.now position (index, symbol.now))) }
    ensures slots { OnOk result (slots.new.keys ≡ with_meant names.now slots.old.keys (cons_option (name_asked names.now position (index, symbol.now)) [])) }
{
    if !asks(names, symbol, position) {
        return Ok(());
    }
    match names.resolve_symbol(position, index, symbol) {
        Ok(meaning) => {
            note_slot(slots, &meaning)?;
            Ok(())
        }
        Err(none) => Err(Refusal::Fault(name_fault(&symbol.name(), Some(position), none))),
    }
}

/// Whether a symbol of the module at a position stands for what its name means: it is undefined or weak, or it is defined in
/// a section that takes no part in the link.
#[tactic(auto, unfolding(link_pieces::specs::LocalSlots::asks, module_view::specs::SymbolLists::is_reference, module_view::specs::SymbolLists::is_undefined, module_view::specs::SymbolLists::is_definition))]
fn asks(names: &LinkNames<'_>, symbol: &SymbolRecord<'_>, position: u32) -> bool
    ensures { result ≡ asks names.now position symbol.now }
{
    let class = symbol.class();
    if class == SYM_CLASS_WEAK_EXTERNAL {
        return true;
    }
    if class != SYM_CLASS_EXTERNAL {
        return false;
    }
    let section = symbol.section();
    if section == SYM_UNDEFINED {
        return symbol.value() == 0;
    }
    section > SYM_UNDEFINED && !names.takes_part(position, section as u32)
}

/// That a name means something, said by the module at a position or before all modules. The slot that it means is noted.
fn check_name<'a>(
    names: &LinkNames<'a>,
    name: &Name<'a>,
    module: Option<u32>,
    slots: &mut BTreeSet<Name<'a>>,
) -> Result<(), Refusal<'a>>
    ensures accepted { OnOk result (name_fault names.now name.now «module» ≡ None) }
    ensures refused { IfErr result (RefusesFor (name_fault names.now name.now «module»)) }
    ensures slots { OnOk result (slots.new.keys ≡ with_meant names.now slots.old.keys (name.now ∷ [])) }
{
    match names.resolve(name.again()) {
        Ok(meaning) => {
            note_slot(slots, &meaning)?;
            Ok(())
        }
        Err(none) => Err(Refusal::Fault(name_fault(name, module, none))),
    }
}

/// The fault of a name that means nothing, said by the module at a position or before all modules.
pub(crate) fn name_fault<'a>(name: &Name<'a>, module: Option<u32>, none: NoMeaning) -> Fault<'a>
    ensures { no_meaning_fault name.now «module» (Err none) ≡ Some result }
{
    match none {
        NoMeaning::Undefined => Fault::Undefined {
            name: name.again(),
            module,
        },
        NoMeaning::WeakCycle => Fault::WeakCycle {
            name: name.again(),
            module,
        },
    }
}
