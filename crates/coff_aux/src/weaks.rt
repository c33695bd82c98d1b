//! Weak externals whose records are malformed.

ghost use Rattle.std.specs.Prelude.{◌≡◌, ◌≤◌, ℕ, List, false, true, length, slice_index_or, IfSome};
ghost use Rattle.std.specs.Option.{option_copied};
ghost use Rattle.link_base.specs.PeFormat as pe;
ghost use Rattle.coff_records.specs.ObjectFile.{starts_symbol, symbol_at, symbol_entries};
ghost use Rattle.coff_object.specs.ObjectFaults.{first_of};
ghost use Rattle.coff_aux.specs.AuxFaults.{is_search, says_weak, is_weak_in_order, is_bad_weak};
ghost use Rattle.coff_aux.specs.Steps.{HasStarts};

use crate::aux_records::{
    WEAK_EXTERN_SEARCH_ALIAS, WEAK_EXTERN_SEARCH_NOLIBRARY, characteristics_in, first_aux, tag_in,
};
use coff_object::{Object, SymbolRecord};
use link_base::pe_format::{SYM_CLASS_WEAK_EXTERNAL, SYM_UNDEFINED};

/// The first weak external that stands in a section, or has no auxiliary record that says what it is, by its record.
pub fn first_bad_weak(object: &Object<'_>, starts: &[bool]) -> Option<u32>
    requires { HasStarts object.now starts.now }
    ensures { result ≡ first_of (is_bad_weak object.now) (symbol_entries object.now) }
{
    for (index, symbol) in object.symbols() {
        if is_bad_weak(object, starts, index, &symbol) {
            return Some(index);
        }
    }
    None
}

#[tactic(auto, unfolding(crate::specs::AuxFaults::is_bad_weak))]
fn is_bad_weak(object: &Object<'_>, starts: &[bool], index: u32, symbol: &SymbolRecord<'_>) -> bool
    requires starts { HasStarts object.now starts.now }
    requires start { starts_symbol object.now index ≡ true }
    requires symbol { symbol.now ≡ symbol_at object.now index }
    ensures { result ≡ is_bad_weak object.now (index, symbol.now) }
{
    symbol.class() == SYM_CLASS_WEAK_EXTERNAL && !is_in_order(object, starts, index, symbol)
}

#[tactic(auto, unfolding(crate::specs::AuxFaults::is_weak_in_order))]
fn is_in_order(object: &Object<'_>, starts: &[bool], index: u32, symbol: &SymbolRecord<'_>) -> bool
    requires starts { HasStarts object.now starts.now }
    requires start { starts_symbol object.now index ≡ true }
    requires symbol { symbol.now ≡ symbol_at object.now index }
    ensures { result ≡ is_weak_in_order object.now (index, symbol.now) }
{
    symbol.section() == SYM_UNDEFINED && says_weak(starts, first_aux(object, index, symbol.aux()))
}

/// Whether an auxiliary record says how libraries are searched, and names a symbol.
#[tactic(auto, unfolding(crate::specs::AuxFaults::says_weak))]
fn says_weak(starts: &[bool], aux: Option<&[u8]>) -> bool
    requires whole { IfSome aux (λ aux. pe.SIZEOF_SYMBOL ≤ length aux.now) }
    ensures { (bytes : List ℕ) → HasStarts bytes starts.now → result ≡ says_weak bytes (option_copied aux.entry) }
{
    match aux {
        Some(aux) => is_search(characteristics_in(aux)) && is_start(starts, tag_in(aux)),
        None => false,
    }
}

fn is_search(kind: u32) -> bool
    ensures { result ≡ is_search kind }
{
    (WEAK_EXTERN_SEARCH_NOLIBRARY..=WEAK_EXTERN_SEARCH_ALIAS).contains(&kind)
}

/// Whether a symbol starts at a record.
fn is_start(starts: &[bool], index: u32) -> bool
    ensures { result ≡ slice_index_or starts.now index false }
{
    match starts.get(index as usize) {
        Some(starts) => *starts,
        None => false,
    }
}
