//! What is wrong with COMDAT sections, by what they say of themselves.

ghost use Rattle.std.specs.Prelude.{◌≡◌, ◌<◌, ◌≤◌, ◌+◌, ◌-◌, ◌^◌, Bool, length, map, IfSome, IfOk};
ghost use Rattle.coff_records.specs.ObjectFile.{section_total, record_total};
ghost use Rattle.coff_object.specs.ObjectFaults.{least_place};
ghost use Rattle.coff_aux.specs.AuxFaults.{lacks_symbol, has_no_selection, has_no_parent};
ghost use Rattle.coff_aux.specs.Steps.{symbols_noted, all_section_symbols, all_comdat_records, is_out_of_order, first_record, parent_place_in, record_fault, DecidesRecords};

use crate::aux_records::{COMDAT_SELECT_LARGEST, COMDAT_SELECT_NODUPLICATES};
use crate::comdat::{ComdatRecord, NotedSymbols};
use crate::comdats::{comdat_records, is_associative, is_section_number, parents_of};
use crate::parents::first_circle;
use coff_object::{ObjError, Object};
use link_base::{Memory, ObjFault};
use std::alloc::Global;

/// What is wrong with the COMDAT sections of an object with these symbols of its sections.
pub fn comdat_fault(
    alloc: Global,
    object: &Object<'_>,
    symbols: &[NotedSymbols],
) -> Result<Option<ObjError>, Memory>
    requires noted { map symbols_noted symbols.now ≡ all_section_symbols object.now }
    requires few { record_total object.now + section_total object.now < 2 ^ 32 - 1 }
    ensures { IfOk result (λ fault. fault ≡ record_fault (record_total object.now) (all_comdat_records object.now)) }
{
    let records = comdat_records(alloc, object, symbols)?;
    record_fault(alloc, object.record_count(), &records)
}

/// What is wrong with the COMDAT sections of an object with so many symbol records.
#[tactic(auto, unfolding(crate::specs::Steps::record_fault))]
fn record_fault(
    alloc: Global,
    symbol_records: u32,
    records: &[Option<ComdatRecord>],
) -> Result<Option<ObjError>, Memory>
    requires { symbol_records + length records.now < 2 ^ 32 - 1 }
    ensures { IfOk result (λ fault. fault ≡ record_fault symbol_records records.now) }
{
    if let Some(section) = first_record(records, |said| lacks_symbol(said)) {
        return Ok(Some(ObjError {
            kind: ObjFault::Aux,
            index: symbol_records + section,
        }));
    }
    if let Some(section) = first_record(records, |said| has_no_selection(said)) {
        return Ok(Some(ObjError {
            kind: ObjFault::Selection,
            index: section,
        }));
    }
    match parent_place(alloc, records)? {
        Some(section) => Ok(Some(ObjError {
            kind: ObjFault::Associative,
            index: section,
        })),
        None => Ok(None),
    }
}

/// Whether it lacks a symbol or a selection, or is selected with none of so many sections before it. Where no section of an
/// object does, as of nearly all objects, no chain of parents comes back, and nothing is wrong.
pub fn is_out_of_order(before: u32, said: &ComdatRecord) -> bool
    ensures { result ≡ is_out_of_order before said.now }
{
    lacks_symbol(said) || has_no_selection(said) || has_no_parent(before, said)
}

/// The first section whose parent is none, or whose chain of parents comes back.
fn parent_place(alloc: Global, records: &[Option<ComdatRecord>]) -> Result<Option<u32>, Memory>
    requires { length records.now < 2 ^ 32 - 1 }
    ensures { IfOk result (λ place. place ≡ parent_place_in records.now) }
{
    let missing = missing_parent(records);
    let parents = parents_of(alloc, records)?;
    let circle = first_circle(alloc, &parents)?;
    Ok(least_place(missing, circle))
}

/// The first section that is selected with what is no section.
fn missing_parent(records: &[Option<ComdatRecord>]) -> Option<u32>
    requires { length records.now < 2 ^ 32 - 1 }
    ensures { result ≡ first_record records.now (has_no_parent (length records.now)) }
{
    let count = records.len() as u32;
    first_record(records, |said| has_no_parent(count, said))
}

/// The lesser of two places, where there are two.
fn least_place(place: Option<u32>, other: Option<u32>) -> Option<u32>
    ensures { result ≡ least_place place other }
{
    let Some(first) = place else {
        return other;
    };
    match other {
        Some(second) if second < first => other,
        _ => place,
    }
}

/// The first COMDAT section, by its number, of which a test says yes.
fn first_record<F: Fn(&ComdatRecord) -> bool>(
    records: &[Option<ComdatRecord>],
    fails: F,
) -> Option<u32>
    requires few { length records.now < 2 ^ 32 - 1 }
    requires callable { F.IsAlwaysCallable fails }
    ensures first { (test : ComdatRecord → Bool) → DecidesRecords (F.post fails) test
        → result ≡ first_record records.now test }
    ensures bound { IfSome result (λ section. section ≤ length records.now) }
{
    for index in 0..records.len() as u32 {
        if let Some(said) = &records[index as usize] {
            if fails(said) {
                return Some(index + 1);
            }
        }
    }
    None
}

fn lacks_symbol(said: &ComdatRecord) -> bool
    ensures { result ≡ lacks_symbol said.now }
{
    !said.has_symbol
}

fn has_no_selection(said: &ComdatRecord) -> bool
    ensures { result ≡ has_no_selection said.now }
{
    !(COMDAT_SELECT_NODUPLICATES..=COMDAT_SELECT_LARGEST).contains(&said.selection)
}

/// Whether it is selected with what is none of so many sections.
fn has_no_parent(count: u32, said: &ComdatRecord) -> bool
    ensures { result ≡ has_no_parent count said.now }
{
    is_associative(said) && !is_section_number(count, said.associated)
}
