//! What COMDAT sections say of themselves, read by one pass over the symbols of an object.

ghost use Rattle.std.specs.Prelude.{◌≡◌, ◌<◌, ◌≤◌, ◌^◌, true, length, map, IfSome, IfOk};
ghost use Rattle.link_base.specs.Bytes.{has_flag};
ghost use Rattle.link_base.specs.PeFormat.{SCN_LNK_COMDAT};
ghost use Rattle.coff_records.specs.ObjectFile.{section_total, record_total, starts_symbol};
ghost use Rattle.coff_aux.specs.Comdats.{section_symbols_of, said_by_symbol, said_by_first, comdat_record_of, is_associative, is_section_number, parent_in, parent_said};
ghost use Rattle.coff_aux.specs.Steps.{NO_SYMBOL, symbol_noted, symbols_noted, all_section_symbols, all_comdat_records, parents_in, with_symbol, noted_symbols};

use crate::aux_records::{COMDAT_SELECT_ASSOCIATIVE, associated_in, first_aux, selection_in};
use crate::comdat::{ComdatRecord, NO_SYMBOL, NotedSymbols};
use coff_object::Object;
use link_base::Memory;
use link_base::pe_format::{SCN_LNK_COMDAT, SYM_CLASS_STATIC, SYM_UNDEFINED};
use std::alloc::Global;

/// Of a section without symbols.
const NO_SYMBOLS: NotedSymbols = NotedSymbols {
    first: NO_SYMBOL,
    second: NO_SYMBOL,
};

// ---- the symbols of a section

/// The first two symbols of each section.
pub fn section_symbols(alloc: Global, object: &Object<'_>) -> Result<Vec<NotedSymbols>, Memory>
    requires { record_total object.now < 2 ^ 32 }
    ensures { IfOk result (λ symbols. map symbols_noted symbols.items ≡ all_section_symbols object.now) }
{
    let mut symbols = vec![in alloc; NO_SYMBOLS; object.section_count() as usize]?;
    for (index, symbol) in object.symbols() {
        note_symbol(&mut symbols, symbol.section(), index);
    }
    Ok(symbols)
}

/// Notes a symbol of a section, where the number is that of one.
#[tactic(auto, unfolding(crate::specs::Steps::noted_symbols))]
fn note_symbol(symbols: &mut Vec<NotedSymbols>, section: i32, index: u32)
    requires { index < NO_SYMBOL }
    ensures { map symbols_noted symbols.new.items ≡ noted_symbols (map symbols_noted symbols.old.items) section index }
{
    if section <= SYM_UNDEFINED {
        return;
    }
    let place = section as usize - 1;
    if place < symbols.len() {
        note_one(&mut symbols[place], index);
    }
}

/// Notes one more symbol of a section, where it is one of the first two.
#[tactic(auto, unfolding(crate::specs::Steps::with_symbol))]
fn note_one(noted: &mut NotedSymbols, index: u32)
    requires { index < NO_SYMBOL }
    ensures { symbols_noted noted.new ≡ with_symbol (symbols_noted noted.old) index }
{
    if noted.first == NO_SYMBOL {
        *noted = NotedSymbols {
            first: index,
            second: NO_SYMBOL,
        };
    } else if noted.second == NO_SYMBOL {
        noted.second = index;
    }
}

// ---- what they say

/// Whether a section with these flags is a COMDAT.
pub fn is_comdat(flags: u32) -> bool
    ensures { result ≡ has_flag flags SCN_LNK_COMDAT }
{
    flags & SCN_LNK_COMDAT != 0
}

/// What each COMDAT section says of itself, by the sections' numbers from 1.
pub(crate) fn comdat_records(
    alloc: Global,
    object: &Object<'_>,
    symbols: &[NotedSymbols],
) -> Result<Vec<Option<ComdatRecord>>, Memory>
    requires { map symbols_noted symbols.now ≡ all_section_symbols object.now }
    ensures { IfOk result (λ records. records.items ≡ all_comdat_records object.now) }
{
    let mut records = Vec::new(alloc);
    records.reserve(symbols.len())?;
    for index in 0..object.section_count() {
        let said = comdat_record(object, index + 1, symbols[index as usize].first);
        records.push(said)?;
    }
    Ok(records)
}

/// What a section with this section symbol says of itself, where it is a COMDAT.
#[tactic(auto, unfolding(crate::specs::Comdats::comdat_record_of))]
pub fn comdat_record(object: &Object<'_>, number: u32, first: u32) -> Option<ComdatRecord>
    requires low { 1 ≤ number }
    requires high { number ≤ section_total object.now }
    requires symbol { symbol_noted first ≡ (section_symbols_of object.now number).first }
    ensures { result ≡ comdat_record_of object.now number }
{
    if is_comdat(object.section_flags(number)) {
        Some(said_by_first(object, first))
    } else {
        None
    }
}

/// What the section symbol of a section says of it: nothing, where there is none.
fn said_by_first(object: &Object<'_>, first: u32) -> ComdatRecord
    requires { IfSome (symbol_noted first) (λ symbol. starts_symbol object.now symbol ≡ true) }
    ensures { result ≡ said_by_first object.now (symbol_noted first) }
{
    if first == NO_SYMBOL {
        ComdatRecord {
            has_symbol: false,
            selection: 0,
            associated: 0,
        }
    } else {
        said_by_symbol(object, first)
    }
}

/// What a section symbol says of its section.
#[tactic(auto, unfolding(crate::specs::Comdats::said_by_symbol))]
fn said_by_symbol(object: &Object<'_>, symbol: u32) -> ComdatRecord
    requires { starts_symbol object.now symbol ≡ true }
    ensures { result ≡ said_by_symbol object.now symbol }
{
    let section_symbol = object.symbol_record(symbol);
    let aux_count = section_symbol.aux();
    let has_symbol = section_symbol.class() == SYM_CLASS_STATIC && aux_count > 0;
    match first_aux(object, symbol, aux_count) {
        Some(aux) => ComdatRecord {
            has_symbol,
            selection: selection_in(aux),
            associated: associated_in(aux),
        },
        None => ComdatRecord {
            has_symbol,
            selection: 0,
            associated: 0,
        },
    }
}

/// The section that a COMDAT section is selected with, where its selection says so.
pub fn parent_said(said: &ComdatRecord) -> Option<u32>
    ensures { result ≡ parent_said said.now }
{
    if is_associative(said) {
        Some(said.associated)
    } else {
        None
    }
}

// ---- parents

/// The parent of each section, by its number: 0 where it has none, and at 0.
pub(crate) fn parents_of(
    alloc: Global,
    records: &[Option<ComdatRecord>],
) -> Result<Vec<u32>, Memory>
    requires { length records.now < 2 ^ 32 }
    ensures { IfOk result (λ parents. parents.items ≡ parents_in records.now) }
{
    let count = records.len() as u32;
    let mut parents = Vec::new(alloc);
    parents.reserve(records.len() + 1)?;
    parents.push(0)?;
    for index in 0..count {
        parents.push(parent_in(count, &records[index as usize]))?;
    }
    Ok(parents)
}

#[tactic(auto, unfolding(crate::specs::Comdats::parent_in))]
fn parent_in(count: u32, said: &Option<ComdatRecord>) -> u32
    ensures { result ≡ parent_in count said.now }
{
    match said {
        Some(said) if is_associative(said) && is_section_number(count, said.associated) => {
            said.associated
        }
        _ => 0,
    }
}

pub(crate) fn is_associative(said: &ComdatRecord) -> bool
    ensures { result ≡ is_associative said.now }
{
    said.selection == COMDAT_SELECT_ASSOCIATIVE
}

/// Whether one of this many sections has a number.
pub fn is_section_number(count: u32, number: u32) -> bool
    ensures { result ≡ is_section_number count number }
{
    (1..=count).contains(&number)
}
