//! The first fault of an object: the kinds in their order, each judged where no earlier one stands.

ghost use Rattle.std.specs.Prelude.{◌≡◌, ◌<◌, ◌^◌, length, false, None, Some};
ghost use Rattle.coff_records.specs.FileRanges.{is_truncated, HasRecords};
ghost use Rattle.coff_object.specs.ObjectFaults.{string_table_fault, object_fault};

use crate::error::ObjError;
use crate::section_fault::{
    alignment_fault, body_fault, is_other_machine, relocation_fault, section_name_fault,
};
use crate::symbol_fault::{
    section_number_fault, symbol_name_fault, symbol_range_fault, value_fault,
};
use coff_records::{CoffFile, is_truncated, string_table, table_leaves, texts_end};
use link_base::ObjFault;

/// The first fault, or none where the object is well formed.
#[tactic(auto, unfolding(crate::specs::ObjectFaults::object_fault))]
pub(crate) fn object_fault(bytes: &[u8]) -> Option<ObjError>
    requires { length bytes.now < 2 ^ 32 }
    ensures { result ≡ object_fault bytes.now }
{
    if is_truncated(bytes) {
        return refusal(ObjFault::Truncated, 0);
    }
    let file = CoffFile::read(bytes);
    if is_other_machine(&file) {
        return refusal(ObjFault::Machine, 0);
    }
    if let Some(section) = body_fault(&file) {
        return refusal(ObjFault::SectionRange, section);
    }
    if let Some(section) = relocation_fault(&file) {
        return refusal(ObjFault::RelocationRange, section);
    }
    if let Some(index) = symbol_range_fault(&file) {
        return refusal(ObjFault::SymbolRange, index);
    }
    if let Some(index) = string_table_fault(&file) {
        return refusal(ObjFault::StringTable, index);
    }
    if let Some(section) = alignment_fault(&file) {
        return refusal(ObjFault::Alignment, section);
    }
    let strings = string_table(&file);
    if let Some(index) = section_number_fault(&file, strings) {
        return refusal(ObjFault::SectionNumber, index);
    }
    if let Some(index) = value_fault(&file, strings) {
        return refusal(ObjFault::SymbolValue, index);
    }
    None
}

fn refusal(kind: ObjFault, index: u32) -> Option<ObjError>
    ensures { result ≡ Some (record { kind = kind; index = index }) }
{
    Some(ObjError { kind, index })
}

/// The string table leaves the file (0), or does not have the text that a section (its number) or a symbol
/// (its record and the number of sections together) is named by.
#[tactic(auto, unfolding(crate::specs::ObjectFaults::string_table_fault))]
fn string_table_fault(file: &CoffFile<'_>) -> Option<u32>
    requires headers { is_truncated file.now ≡ false }
    requires records { HasRecords file.now }
    requires indexed { length file.now < 2 ^ 32 }
    ensures { result ≡ string_table_fault file.now }
{
    if table_leaves(file) {
        return Some(0);
    }
    let strings = string_table(file);
    let texts_end = texts_end(strings);
    if let Some(section) = section_name_fault(file, strings, texts_end) {
        return Some(section);
    }
    match symbol_name_fault(file, strings, texts_end) {
        Some(index) => Some(file.section_count() + index),
        None => None,
    }
}
