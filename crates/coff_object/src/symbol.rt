//! Symbols, with all their fields read.

ghost use Rattle.std.specs.Prelude.{◌≡◌};
ghost use Rattle.coff_records.specs.SymbolRecord.{name_in, value_in, section_number_in, kind_in, class_in, aux_count_in};

use coff_records::SymbolRecord;
use link_base::Name;

/// A symbol: its name, its value (mostly an offset in its section), its section (from 1; 0 is undefined, -1
/// absolute, -2 for debuggers), its type, its storage class, and how many auxiliary records follow it.
#[derive(Drop)]
pub struct Symbol<'a> {
    pub name: Name<'a>,
    pub value: u32,
    pub section: i32,
    pub kind: u16,
    pub class: u8,
    pub aux: u8,
}

/// The symbol in a record.
pub(crate) fn symbol_in<'a>(entry: &SymbolRecord<'a>) -> Symbol<'a>
    ensures name { result.name ≡ name_in entry.now }
    ensures value { result.value ≡ value_in entry.now }
    ensures section { result.section ≡ section_number_in entry.now }
    ensures kind { result.kind ≡ kind_in entry.now }
    ensures class { result.class ≡ class_in entry.now }
    ensures aux { result.aux ≡ aux_count_in entry.now }
{
    Symbol {
        name: entry.name(),
        value: entry.value(),
        section: entry.section(),
        kind: entry.kind(),
        class: entry.class(),
        aux: entry.aux(),
    }
}
