//! The lists that one pass over the symbols of an object makes.

ghost use Rattle.std.specs.Prelude.{◌≡◌, ◌≤◌, ◌++◌, ◌∷◌, [], true, false, Some, length, is_some, IfSome, IfOk, OnOk, IfErr, if◌then◌else◌};
ghost use Rattle.std.specs.Option.{option_copied};
ghost use Rattle.link_base.specs.PeFormat as pe;
ghost use Rattle.link_base.specs.declared.kinds.form.Kind.TheVariants as form;
ghost use Rattle.coff_records.specs.ObjectFile.{name_in, starts_symbol, string_table, symbol_at};
ghost use Rattle.coff_aux.specs.AuxRecords.{said_by, tag_in, characteristics_in};
ghost use Rattle.module_view.specs.SymbolLists.{is_definition, place_of, definition_of, definitions_of, is_weak, weak_of, weaks_of, is_common, common_of, commons_of, is_undefined, is_reference, reference_of, references_of};
ghost use Rattle.module_view.specs.Steps.{KeepsStarts};
ghost use Rattle.module_view.specs.Opening.{unsupported, has_long_symbol_name, RefusesToOpen};

use crate::definition::{Common, Definition, Place};
use crate::error::ModuleError;
use crate::reference::{Reference, Weak};
use coff_aux::aux_records::WEAK_EXTERN_SEARCH_LIBRARY;
use coff_aux::{characteristics_in, first_aux, symbol_starts, tag_in};
use coff_object::{LongTexts, Object, SymbolRecord};
use link_base::pe_format::{
    SYM_ABSOLUTE, SYM_CLASS_EXTERNAL, SYM_CLASS_WEAK_EXTERNAL, SYM_UNDEFINED,
};
use link_base::{Kind, Memory, Name};
use std::alloc::Global;

/// What the symbols of an object are.
#[derive(Drop)]
pub(crate) struct SymbolLists<'a> {
    pub(crate) definitions: Vec<Definition<'a>>,
    pub(crate) references: Vec<Reference<'a>>,
    pub(crate) weaks: Vec<Weak<'a>>,
    pub(crate) commons: Vec<Common<'a>>,
    /// For each symbol record, whether a symbol starts there: made where there are weak externals.
    pub(crate) starts: Vec<bool>,
}

/// Reads the symbols of an object. It is refused where a symbol's name is too long.
pub(crate) fn read_symbols<'a>(
    alloc: Global,
    object: &Object<'a>,
    texts: &LongTexts<'_>,
) -> Result<SymbolLists<'a>, ModuleError>
    requires { texts.now ≡ string_table object.now }
    ensures definitions { IfOk result (λ lists. lists.definitions.items ≡ definitions_of object.now) }
    ensures references { IfOk result (λ lists. lists.references.items ≡ references_of object.now) }
    ensures weaks { IfOk result (λ lists. lists.weaks.items ≡ weaks_of object.now) }
    ensures commons { IfOk result (λ lists. lists.commons.items ≡ commons_of object.now) }
    ensures starts { IfOk result (λ lists. KeepsStarts object.now lists.weaks.items lists.starts.items) }
    ensures accepted { OnOk result (has_long_symbol_name object.now ≡ false) }
    ensures refused { IfErr result (RefusesToOpen (unsupported (has_long_symbol_name object.now) form.LongName)) }
{
    let mut lists = no_lists(alloc, object.section_count() as usize)?;
    for (index, symbol) in object.symbols() {
        if texts.is_long_symbol(&symbol) {
            return Err(ModuleError::Unsupported(Kind::LongName));
        }
        note_symbol(&mut lists, object, index, &symbol)?;
    }
    if lists.weaks.is_empty() {
        return Ok(lists);
    }
    lists.starts = symbol_starts(alloc, object)?;
    Ok(lists)
}

/// The lists of no symbols, with room for so many definitions.
fn no_lists<'a>(alloc: Global, count: usize) -> Result<SymbolLists<'a>, Memory>
    ensures definitions { IfOk result (λ lists. lists.definitions.items ≡ []) }
    ensures references { IfOk result (λ lists. lists.references.items ≡ []) }
    ensures weaks { IfOk result (λ lists. lists.weaks.items ≡ []) }
    ensures commons { IfOk result (λ lists. lists.commons.items ≡ []) }
{
    let definitions = Vec::with_capacity(alloc, count)?;
    Ok(SymbolLists {
        definitions,
        references: Vec::new(alloc),
        weaks: Vec::new(alloc),
        commons: Vec::new(alloc),
        starts: Vec::new(alloc),
    })
}

/// Notes what a symbol is. Its name is read only where its class and its section ask for it.
fn note_symbol<'a>(
    lists: &mut SymbolLists<'a>,
    object: &Object<'a>,
    index: u32,
    symbol: &SymbolRecord<'a>,
) -> Result<(), Memory>
    requires start { starts_symbol object.now index ≡ true }
    requires symbol { symbol.now ≡ symbol_at object.now index }
    ensures definitions { OnOk result (lists.new.definitions.items ≡ lists.old.definitions.items
        ++ (if is_definition symbol.now then definition_of (index, symbol.now) ∷ [] else [])) }
    ensures references { OnOk result (lists.new.references.items ≡ lists.old.references.items
        ++ (if is_reference symbol.now then reference_of object.now (index, symbol.now) ∷ [] else [])) }
    ensures weaks { OnOk result (lists.new.weaks.items ≡ lists.old.weaks.items
        ++ (if is_weak symbol.now then weak_of object.now (index, symbol.now) ∷ [] else [])) }
    ensures commons { OnOk result (lists.new.commons.items ≡ lists.old.commons.items
        ++ (if is_common symbol.now then common_of (index, symbol.now) ∷ [] else [])) }
{
    if let Some(place) = definition_place(symbol) {
        push_definition(&mut lists.definitions, index, symbol, place)?;
        return Ok(());
    }
    if is_undefined(symbol) {
        push_undefined(&mut lists.references, index, symbol)?;
        return Ok(());
    }
    if is_common(symbol) {
        push_common(&mut lists.commons, index, symbol)?;
        return Ok(());
    }
    if is_weak(symbol) {
        push_weak(
            &mut lists.references,
            &mut lists.weaks,
            object,
            index,
            symbol,
        )?;
    }
    Ok(())
}

// ---- definitions

/// Where a symbol stands, where it is a definition.
#[tactic(auto, unfolding(crate::specs::SymbolLists::is_definition))]
fn definition_place(symbol: &SymbolRecord<'_>) -> Option<Place>
    ensures some { IfSome result (λ place. place ≡ place_of symbol.now) }
    ensures is { is_some result ≡ is_definition symbol.now }
{
    if symbol.class() != SYM_CLASS_EXTERNAL {
        return None;
    }
    let section = symbol.section();
    if section == SYM_ABSOLUTE {
        return Some(Place::Absolute(symbol.value()));
    }
    if section > SYM_UNDEFINED {
        return Some(Place::Section {
            section: section as u32,
            value: symbol.value(),
        });
    }
    None
}

/// Appends a definition that stands at a place.
fn push_definition<'a>(
    definitions: &mut Vec<Definition<'a>>,
    index: u32,
    symbol: &SymbolRecord<'a>,
    place: Place,
) -> Result<(), Memory>
    requires { place ≡ place_of symbol.now }
    ensures { OnOk result (definitions.new.items ≡ definitions.old.items ++ definition_of (index, symbol.now) ∷ []) }
{
    definitions.push(Definition {
        name: symbol.name(),
        symbol: index,
        place,
    })?;
    Ok(())
}

// ---- undefined symbols

/// Whether a symbol is external and undefined, and no common.
#[tactic(auto, unfolding(crate::specs::SymbolLists::is_undefined))]
fn is_undefined(symbol: &SymbolRecord<'_>) -> bool
    ensures { result ≡ is_undefined symbol.now }
{
    symbol.class() == SYM_CLASS_EXTERNAL && symbol.section() == SYM_UNDEFINED && symbol.value() == 0
}

/// Appends the reference of an undefined symbol: libraries are searched for its name.
fn push_undefined<'a>(
    references: &mut Vec<Reference<'a>>,
    index: u32,
    symbol: &SymbolRecord<'a>,
) -> Result<(), Memory>
    ensures { OnOk result (references.new.items ≡ references.old.items
        ++ record { name = name_in symbol.now; symbol = index; search = true } ∷ []) }
{
    references.push(Reference {
        name: symbol.name(),
        symbol: index,
        search: true,
    })?;
    Ok(())
}

// ---- weak externals

fn is_weak(symbol: &SymbolRecord<'_>) -> bool
    ensures { result ≡ is_weak symbol.now }
{
    symbol.class() == SYM_CLASS_WEAK_EXTERNAL
}

/// Appends a weak external, and the reference that it is.
#[tactic(auto, unfolding(crate::specs::SymbolLists::asks_for_search))]
fn push_weak<'a>(
    references: &mut Vec<Reference<'a>>,
    weaks: &mut Vec<Weak<'a>>,
    object: &Object<'a>,
    index: u32,
    symbol: &SymbolRecord<'a>,
) -> Result<(), Memory>
    requires start { starts_symbol object.now index ≡ true }
    requires symbol { symbol.now ≡ symbol_at object.now index }
    requires weak { is_weak symbol.now ≡ true }
    ensures references { OnOk result (references.new.items ≡ references.old.items ++ reference_of object.now (index, symbol.now) ∷ []) }
    ensures weaks { OnOk result (weaks.new.items ≡ weaks.old.items ++ weak_of object.now (index, symbol.now) ∷ []) }
{
    let name = symbol.name();
    let aux = first_aux(object, index, symbol.aux());
    references.push(Reference {
        name: name.again(),
        symbol: index,
        search: characteristics_said(aux) == WEAK_EXTERN_SEARCH_LIBRARY,
    })?;
    weaks.push(Weak {
        name,
        symbol: index,
        tag: tag_said(aux),
    })?;
    Ok(())
}

/// The record of the symbol that a weak external means, 0 without an auxiliary record.
fn tag_said(aux: Option<&[u8]>) -> u32
    requires whole { IfSome aux (λ aux. pe.SIZEOF_SYMBOL ≤ length aux.now) }
    ensures { result ≡ said_by tag_in (option_copied aux.entry) }
{
    match aux {
        Some(aux) => tag_in(aux),
        None => 0,
    }
}

/// How libraries are searched for a weak external, 0 without an auxiliary record.
fn characteristics_said(aux: Option<&[u8]>) -> u32
    requires whole { IfSome aux (λ aux. pe.SIZEOF_SYMBOL ≤ length aux.now) }
    ensures { result ≡ said_by characteristics_in (option_copied aux.entry) }
{
    match aux {
        Some(aux) => characteristics_in(aux),
        None => 0,
    }
}

// ---- commons

/// Whether a symbol is a common: external, in no section, and with a size as its value.
#[tactic(auto, unfolding(crate::specs::SymbolLists::is_common))]
fn is_common(symbol: &SymbolRecord<'_>) -> bool
    ensures { result ≡ is_common symbol.now }
{
    symbol.class() == SYM_CLASS_EXTERNAL && symbol.section() == SYM_UNDEFINED && symbol.value() != 0
}

/// Appends a common.
fn push_common<'a>(
    commons: &mut Vec<Common<'a>>,
    index: u32,
    symbol: &SymbolRecord<'a>,
) -> Result<(), Memory>
    ensures { OnOk result (commons.new.items ≡ commons.old.items ++ common_of (index, symbol.now) ∷ []) }
{
    commons.push(Common {
        name: symbol.name(),
        symbol: index,
        size: symbol.value(),
    })?;
    Ok(())
}
