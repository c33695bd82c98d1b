//! What is wrong with the symbols of an object, kind by kind: the first that fails.

ghost use Rattle.std.specs.Prelude.{◌≡◌, ◌<◌, ◌≤◌, ◌+◌, ◌*◌, ℕ, pos, length, true, false, None, Some, IfSome, nat_lt};
ghost use Rattle.std.specs.Int.Signed.{◌<ℤ◌};
ghost use Rattle.coff_records.specs.ObjectHeader.{record_total, symbol_size};
ghost use Rattle.coff_records.specs.StringTable.{string_table};
ghost use Rattle.coff_records.specs.SymbolRecord.{section_of_number, lacks_symbol_name};
ghost use Rattle.coff_records.specs.ObjectFile.{record_offset};
ghost use Rattle.coff_records.specs.FileRanges.{is_truncated, HasRecords};
ghost use Rattle.coff_object.specs.ObjectFaults.{first_symbol, first_torn_record, symbol_range_fault, has_no_section, value_exceeds, means_a_place};
ghost use Rattle.coff_records.specs.TextEnd.{EndsTexts};

use coff_records::{CoffFile, SymbolRecord, Symbols, next_start};
use link_base::pe_format::{
    SYM_CLASS_EXTERNAL, SYM_CLASS_LABEL, SYM_CLASS_STATIC, SYM_DEBUG, SYM_UNDEFINED,
};

// ---- records

/// How many of the symbol records are whole in the file.
pub(crate) fn whole_records(file: &CoffFile<'_>) -> u32
    ensures within { result ≤ record_total file.now }
    ensures whole { (index : ℕ) → index < result → record_offset file.now index + symbol_size file.now ≤ length file.now }
    ensures torn { result < record_total file.now → first_torn_record file.now ≡ Some result }
    ensures none { result ≡ record_total file.now → first_torn_record file.now ≡ None }
{
    let count = file.record_count();
    let start = file.symbols_offset() as usize;
    let len = file.bytes().len();
    if len < start {
        return 0;
    }
    let whole = (len - start) / file.symbol_size();
    if whole < count as usize {
        whole as u32
    } else {
        count
    }
}

/// Whether the auxiliary records of a symbol leave the table of so many records.
pub(crate) fn aux_leave(index: u32, aux: u8, count: u32) -> bool
    requires { index < count }
    ensures { result ≡ nat_lt count (index + 1 + aux) }
{
    u32::from(aux) > count - index - 1
}

/// The first record that leaves the file, or the first symbol whose auxiliary records leave the table: the lesser of them.
/// It stops at the end of the file, however many records the header counts.
pub(crate) fn symbol_range_fault(file: &CoffFile<'_>) -> Option<u32>
    ensures { result ≡ symbol_range_fault file.now }
{
    let count = file.record_count();
    let whole = whole_records(file);
    let mut index = 0;
    while index < whole {
        let aux = file.aux_count(index);
        if aux_leave(index, aux, count) {
            return Some(index);
        }
        index = next_start(index, aux, count);
    }
    if whole < count { Some(whole) } else { None }
}

// ---- one symbol

/// Whether a symbol's section number is above the sections, or below those for debuggers.
#[tactic(auto, unfolding(crate::specs::ObjectFaults::has_no_section))]
pub(crate) fn has_no_section(file: &CoffFile<'_>, symbol: &SymbolRecord<'_>) -> bool
    ensures { result ≡ has_no_section file.now symbol.now }
{
    let section = symbol.section();
    section < SYM_DEBUG || i64::from(section) > i64::from(file.section_count())
}

/// Whether a symbol means a place in a section, and lies above the section's size.
#[tactic(auto, unfolding(crate::specs::ObjectFaults::value_exceeds))]
pub(crate) fn value_exceeds(file: &CoffFile<'_>, symbol: &SymbolRecord<'_>) -> bool
    requires headers { is_truncated file.now ≡ false }
    requires number { has_no_section file.now symbol.now ≡ false }
    ensures { result ≡ value_exceeds file.now symbol.now }
{
    let section = symbol.section();
    if section <= SYM_UNDEFINED || !means_a_place(symbol.class()) {
        return false;
    }
    let header = file.section_header(section_of_number(section));
    symbol.value() > header.size()
}

/// The section that a number above 0 is that of.
fn section_of_number(number: i32) -> u32
    requires { pos 0 <ℤ number }
    ensures { result ≡ section_of_number number }
{
    number as u32
}

/// Whether symbols of a storage class mean places where they have a section.
fn means_a_place(class: u8) -> bool
    ensures { result ≡ means_a_place class }
{
    class == SYM_CLASS_EXTERNAL || class == SYM_CLASS_STATIC || class == SYM_CLASS_LABEL
}

// ---- all symbols

/// The first symbol whose name is missing in the string table.
pub(crate) fn symbol_name_fault<'a>(
    file: &CoffFile<'a>,
    strings: &'a [u8],
    texts_end: usize,
) -> Option<u32>
    requires records { HasRecords file.now }
    requires table { strings.now ≡ string_table file.now }
    requires texts { EndsTexts strings.now texts_end }
    ensures least { result ≡ first_symbol file.now lacks_symbol_name }
    ensures bound { IfSome result (λ index. index < record_total file.now) }
{
    for (index, symbol) in Symbols::of(file.again(), strings) {
        if symbol.lacks_name(texts_end) {
            return Some(index);
        }
    }
    None
}

/// The first symbol whose section number is none.
pub(crate) fn section_number_fault<'a>(file: &CoffFile<'a>, strings: &'a [u8]) -> Option<u32>
    requires records { HasRecords file.now }
    requires table { strings.now ≡ string_table file.now }
    ensures { result ≡ first_symbol file.now (has_no_section file.now) }
{
    for (index, symbol) in Symbols::of(file.again(), strings) {
        if has_no_section(file, &symbol) {
            return Some(index);
        }
    }
    None
}

/// The first symbol whose value is above its section's size.
pub(crate) fn value_fault<'a>(file: &CoffFile<'a>, strings: &'a [u8]) -> Option<u32>
    requires headers { is_truncated file.now ≡ false }
    requires records { HasRecords file.now }
    requires table { strings.now ≡ string_table file.now }
    requires numbers { first_symbol file.now (has_no_section file.now) ≡ None }
    ensures { result ≡ first_symbol file.now (value_exceeds file.now) }
{
    for (index, symbol) in Symbols::of(file.again(), strings) {
        if value_exceeds(file, &symbol) {
            return Some(index);
        }
    }
    None
}
