//! Whether an object is well formed, by one walk over its sections and one over its symbols.

ghost use Rattle.std.specs.Prelude.{◌≡◌, ◌<◌, false, true, None};
ghost use Rattle.coff_records.specs.ObjectHeader.{record_total};
ghost use Rattle.coff_records.specs.StringTable.{string_table};
ghost use Rattle.coff_records.specs.ObjectFile.{symbol_entries};
ghost use Rattle.coff_records.specs.FileRanges.{is_truncated, HasRecords};
ghost use Rattle.coff_object.specs.ObjectFaults.{first_section, first_of, object_fault};
ghost use Rattle.coff_object.specs.AnyFault.{section_fails, symbol_fails};
ghost use Rattle.coff_records.specs.TextEnd.{EndsTexts};

use crate::section::has_no_alignment;
use crate::section_fault::{first_section, is_other_machine};
use crate::symbol_fault::{aux_leave, has_no_section, value_exceeds, whole_records};
use coff_records::{
    CoffFile, SectionHeader, SymbolRecord, Symbols, body_leaves, is_truncated, lacks_section_name,
    relocations_leave, string_table, table_leaves, texts_end,
};

/// Whether no kind of fault stands. Where this says no, the kinds have to be judged in their order.
pub(crate) fn is_well_formed(bytes: &[u8]) -> bool
    ensures { result ≡ true → object_fault bytes.now ≡ None }
{
    if is_truncated(bytes) {
        return false;
    }
    let file = CoffFile::read(bytes);
    if is_other_machine(&file)
        || whole_records(&file) < file.record_count()
        || table_leaves(&file)
    {
        return false;
    }
    let strings = string_table(&file);
    let texts_end = texts_end(strings);
    sections_pass(&file, strings, texts_end) && symbols_pass(&file, strings, texts_end)
}

/// Whether no section fails for any kind.
fn sections_pass(file: &CoffFile<'_>, strings: &[u8], texts_end: usize) -> bool
    requires headers { is_truncated file.now ≡ false }
    requires texts { EndsTexts strings.now texts_end }
    ensures { result ≡ true → first_section file.now (section_fails file.now strings.now) ≡ None }
{
    first_section(
        file,
        |header| section_fails(file, strings, header, texts_end),
    )
    .is_none()
}

/// Whether a section fails for some kind.
#[tactic(auto, unfolding(crate::specs::AnyFault::section_fails))]
fn section_fails(
    file: &CoffFile<'_>,
    strings: &[u8],
    header: &SectionHeader<'_>,
    texts_end: usize,
) -> bool
    requires { EndsTexts strings.now texts_end }
    ensures { result ≡ section_fails file.now strings.now header.now }
{
    body_leaves(file, header)
        || relocations_leave(file, header)
        || lacks_section_name(strings, header, texts_end)
        || has_no_alignment(header)
}

/// Whether no symbol fails for any kind.
fn symbols_pass<'a>(file: &CoffFile<'a>, strings: &'a [u8], texts_end: usize) -> bool
    requires headers { is_truncated file.now ≡ false }
    requires records { HasRecords file.now }
    requires table { strings.now ≡ string_table file.now }
    requires texts { EndsTexts strings.now texts_end }
    ensures { result ≡ true → first_of (symbol_fails file.now) (symbol_entries file.now) ≡ None }
{
    for (index, symbol) in Symbols::of(file.again(), strings) {
        if symbol_fails(file, index, &symbol, texts_end) {
            return false;
        }
    }
    true
}

/// Whether a symbol fails for some kind.
#[tactic(auto, unfolding(crate::specs::AnyFault::symbol_fails))]
fn symbol_fails(
    file: &CoffFile<'_>,
    index: u32,
    symbol: &SymbolRecord<'_>,
    texts_end: usize,
) -> bool
    requires headers { is_truncated file.now ≡ false }
    requires below { index < record_total file.now }
    requires texts { EndsTexts symbol.now.strings texts_end }
    ensures { result ≡ symbol_fails file.now (index, symbol.now) }
{
    if aux_leave(index, symbol.aux(), file.record_count()) {
        return true;
    }
    if symbol.lacks_name(texts_end) || has_no_section(file, symbol) {
        return true;
    }
    value_exceeds(file, symbol)
}
