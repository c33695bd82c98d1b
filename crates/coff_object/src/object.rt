//! An object file, as a view of its bytes.

ghost use Rattle.std.specs.Prelude.{◌≡◌, ◌<◌, ◌≤◌, ◌^◌, length, take, IfOk, OnOk, IfErr, is_ok, is_none, true, false, None, Some};
ghost use Rattle.std.specs.List.{before_first};
ghost use Rattle.std.specs.Option.{option_copied};
ghost use Rattle.link_base.specs.Bytes.{is_nul};
ghost use Rattle.coff_records.specs.SectionHeader.{names_an_offset};
ghost use Rattle.coff_records.specs.ObjectFile.{section_total, section_name_of, name_field_of, name_offset_of, raw_size_of, flags_of, alignment_of, body_of, relocation_total, relocation_of, relocations_of, record_total, symbol_size, string_table, starts_symbol, symbol_at, symbol_name_of, symbol_value_of, symbol_section_of, symbol_kind_of, symbol_class_of, aux_total_of, aux_record, symbol_entries};
ghost use Rattle.coff_object.specs.ObjectFaults.{object_fault};

use crate::error::ObjError;
use crate::fault::object_fault;
use crate::section::{Section, section_in};
use crate::symbol::{Symbol, symbol_in};
use crate::well_formed::is_well_formed;
use coff_records::{
    CoffFile, Relocation, Relocations, SymbolRecord, Symbols, data_in, name_offset, relocation_at,
    relocation_count, relocations_place, section_name_start, string_table,
};
use link_base::Name;
use link_base::pe_format::SIZEOF_RELOCATION;
use std::marker::Model;

/// An object file that was opened, a plain or a big one. What it gives out is borrowed from the file's bytes. Sections are
/// numbered from 1, and symbol records from 0; a symbol stands at record 0, and after each symbol and its auxiliary records.
#[derive(Drop)]
pub struct Object<'a> {
    file: CoffFile<'a>,
    strings: &'a [u8],
}

impl<'a> Model for Object<'a> {
    ghost use Rattle.std.specs.Prelude.{List, ℕ};
    ghost use Rattle.coff_object.specs.OpenObject.{IsOpen};

    ghost Value = { List ℕ };

    ghost view = { λ object. object.file };

    ghost invariant = { λ object. IsOpen object.file object.strings.now };
}

impl<'a> Object<'a> {
    /// The object with these bytes. A malformed one is refused for the least kind of fault that stands, at the
    /// least place where it does, as `ObjFault` and `ObjError` say.
    pub fn open(bytes: &'a [u8]) -> Result<Object<'a>, ObjError>
        requires { length bytes.now < 2 ^ 32 }
        ensures same_bytes { IfOk result (λ object. object ≡ bytes.now) }
        ensures well_formed { OnOk result (object_fault bytes.now ≡ None) }
        ensures refused { IfErr result (λ error. object_fault bytes.now ≡ Some error) }
        ensures opens { is_ok result ≡ is_none (object_fault bytes.now) }
    {
        if is_well_formed(bytes) {
            return Ok(Object::of(bytes));
        }
        match object_fault(bytes) {
            Some(error) => Err(error),
            None => Ok(Object::of(bytes)),
        }
    }

    /// The object with these bytes, which are known to be well formed: they are not judged again.
    pub fn of(bytes: &'a [u8]) -> Object<'a>
        requires { object_fault bytes.now ≡ None }
        ensures { result ≡ bytes.now }
    {
        let file = CoffFile::read(bytes);
        let strings = string_table(&file);
        Object { file, strings }
    }

    /// How many sections there are.
    pub fn section_count(&self) -> u32
        ensures { result ≡ section_total self.now }
    {
        self.file.section_count()
    }

    /// A section, by its number.
    pub fn section(&self, i: u32) -> Section<'a>
        requires first { 1 ≤ i }
        requires last { i ≤ section_total self.now }
        ensures name { result.name ≡ section_name_of self.now i }
        ensures flags { result.flags ≡ flags_of self.now i }
        ensures size { result.size ≡ raw_size_of self.now i }
        ensures align { result.align ≡ alignment_of (flags_of self.now i) }
        ensures body { option_copied result.body ≡ body_of self.now i }
    {
        let header = self.file.section_header(i);
        section_in(self.file.bytes(), self.strings, &header)
    }

    /// The flags of a section, by its number.
    pub fn section_flags(&self, i: u32) -> u32
        requires first { 1 ≤ i }
        requires last { i ≤ section_total self.now }
        ensures { result ≡ flags_of self.now i }
    {
        self.file.section_header(i).flags()
    }

    /// The size of a section, by its number.
    pub fn section_size(&self, i: u32) -> u32
        requires first { 1 ≤ i }
        requires last { i ≤ section_total self.now }
        ensures { result ≡ raw_size_of self.now i }
    {
        self.file.section_header(i).size()
    }

    /// The data of a section, by its number: none where it is uninitialised.
    pub fn section_body(&self, i: u32) -> Option<&'a [u8]>
        requires first { 1 ≤ i }
        requires last { i ≤ section_total self.now }
        ensures { option_copied result ≡ body_of self.now i }
    {
        let header = self.file.section_header(i);
        data_in(self.file.bytes(), &header)
    }

    /// The first bytes of a section's name, at most `limit`: a name that is longer costs no more.
    pub fn section_name_start(&self, i: u32, limit: usize) -> Name<'a>
        requires first { 1 ≤ i }
        requires last { i ≤ section_total self.now }
        ensures { result ≡ take limit (section_name_of self.now i) }
    {
        let header = self.file.section_header(i);
        section_name_start(self.strings, &header, limit)
    }

    /// The name field of a section. Where it does not begin with a slash, the name stands in it, before its first NUL.
    #[tactic(auto, using(coff_records::proofs::CallerLemmas::name_in_field))]
    pub fn section_name_field(&self, i: u32) -> &'a [u8]
        requires first { 1 ≤ i }
        requires last { i ≤ section_total self.now }
        ensures field { result.now ≡ name_field_of self.now i }
        ensures len { length result.now ≡ 8 }
        ensures name { names_an_offset result.now ≡ false → section_name_of self.now i ≡ before_first is_nul result.now }
    {
        self.file.section_header(i).name_field()
    }

    /// The offset in the string table that a section's name field refers to, where it does. The name is not looked at.
    pub fn section_name_offset(&self, i: u32) -> Option<usize>
        requires first { 1 ≤ i }
        requires last { i ≤ section_total self.now }
        ensures { result ≡ name_offset_of self.now i }
    {
        let header = self.file.section_header(i);
        name_offset(header.short_name())
    }

    /// How many relocations a section has.
    pub fn relocation_count(&self, i: u32) -> u32
        requires first { 1 ≤ i }
        requires last { i ≤ section_total self.now }
        ensures { result ≡ relocation_total self.now i }
    {
        let header = self.file.section_header(i);
        relocation_count(self.file.bytes(), &header)
    }

    /// A relocation of a section, by its index among them.
    pub fn relocation(&self, i: u32, k: u32) -> Relocation
        requires first { 1 ≤ i }
        requires last { i ≤ section_total self.now }
        requires there { k < relocation_total self.now i }
        ensures { result ≡ relocation_of self.now i k }
    {
        let header = self.file.section_header(i);
        let place = relocations_place(&header) + SIZEOF_RELOCATION * k as usize;
        relocation_at(self.file.bytes(), place)
    }

    /// The relocations of a section, in the order of their records.
    pub fn relocations(&self, i: u32) -> Relocations<'a>
        requires first { 1 ≤ i }
        requires last { i ≤ section_total self.now }
        ensures { result ≡ relocations_of self.now i }
    {
        let header = self.file.section_header(i);
        let bytes = self.file.bytes();
        let count = relocation_count(bytes, &header);
        Relocations::from_place(bytes, relocations_place(&header), count)
    }

    /// How many symbol records there are, the auxiliary ones included.
    pub fn record_count(&self) -> u32
        ensures { result ≡ record_total self.now }
    {
        self.file.record_count()
    }

    /// The record of the symbol that starts at one. Its name is not looked for until it is asked for.
    pub fn symbol_record(&self, j: u32) -> SymbolRecord<'a>
        requires { starts_symbol self.now j ≡ true }
        ensures { result ≡ symbol_at self.now j }
    {
        self.file.symbol(j, self.strings)
    }

    /// The symbol that starts at a record.
    pub fn symbol(&self, j: u32) -> Symbol<'a>
        requires { starts_symbol self.now j ≡ true }
        ensures name { result.name ≡ symbol_name_of self.now j }
        ensures value { result.value ≡ symbol_value_of self.now j }
        ensures section { result.section ≡ symbol_section_of self.now j }
        ensures kind { result.kind ≡ symbol_kind_of self.now j }
        ensures class { result.class ≡ symbol_class_of self.now j }
        ensures aux { result.aux ≡ aux_total_of self.now j }
    {
        symbol_in(&self.symbol_record(j))
    }

    /// All symbols with their records' indexes, in the order of their records.
    pub fn symbols(&self) -> Symbols<'a>
        ensures { result ≡ symbol_entries self.now }
    {
        Symbols::of(self.file.again(), self.strings)
    }

    /// An auxiliary record of the symbol that starts at a record, by its index after it: 18 bytes, or 20 in a big object.
    pub fn aux(&self, j: u32, k: u8) -> &'a [u8]
        requires symbol { starts_symbol self.now j ≡ true }
        requires there { k < aux_total_of self.now j }
        ensures part { result.now ≡ aux_record self.now j k }
        ensures len { length result.now ≡ symbol_size self.now }
    {
        self.file.aux_record(j, k)
    }

    /// The string table, with the four bytes of its size. It is empty where there is none.
    pub fn string_table(&self) -> &'a [u8]
        ensures { result.now ≡ string_table self.now }
    {
        self.strings
    }
}
