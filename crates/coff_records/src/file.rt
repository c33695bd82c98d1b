//! An object file by its header: where its section headers and symbol records stand.

ghost use Rattle.std.specs.Prelude.{◌≡◌, ◌≤◌, ◌<◌, ◌+◌, ◌*◌, ◌^◌, length, false};
ghost use Rattle.coff_records.specs.ObjectHeader.{header_size, symbol_size, machine_of, section_total, section_headers_offset, symbols_offset, record_total};
ghost use Rattle.coff_records.specs.StringTable.{string_table};
ghost use Rattle.coff_records.specs.ObjectFile.{section_at, record_offset, record_at, symbol_at, aux_total_of};
ghost use Rattle.coff_records.specs.FileRanges.{is_truncated};

use crate::header::{Header, header_size};
use crate::ranges::leaves_file;
use crate::section_header::SectionHeader;
use crate::symbol_record::SymbolRecord;
use link_base::pe_format::SIZEOF_SECTION_HEADER;
use link_base::slice_in;
use std::marker::Model;

/// A file whose header was read. Nothing is known of what the header says but that it says it.
#[derive(Drop)]
pub struct CoffFile<'a> {
    bytes: &'a [u8],
    header: Header,
}

impl<'a> Model for CoffFile<'a> {
    ghost use Rattle.std.specs.Prelude.{List, ℕ};
    ghost use Rattle.coff_records.specs.FileParts.{ReadsHeader};

    ghost Value = { List ℕ };

    ghost view = { λ file. file.bytes.now };

    ghost invariant = { λ file. ReadsHeader file.bytes.now file.header };
}

impl<'a> CoffFile<'a> {
    /// The file with these bytes, which have its header.
    pub fn read(bytes: &'a [u8]) -> CoffFile<'a>
        requires { header_size bytes.now ≤ length bytes.now }
        ensures { result ≡ bytes.now }
    {
        CoffFile {
            bytes,
            header: Header::read(bytes),
        }
    }

    /// The same file.
    pub fn again(&self) -> CoffFile<'a>
        ensures { result ≡ self.now }
    {
        CoffFile {
            bytes: self.bytes,
            header: self.header,
        }
    }

    /// The file's bytes.
    pub fn bytes(&self) -> &'a [u8]
        ensures { result.now ≡ self.now }
    {
        self.bytes
    }

    /// The machine that the object is for.
    pub fn machine(&self) -> u16
        ensures { result ≡ machine_of self.now }
    {
        self.header.machine
    }

    /// How many sections the header counts.
    pub fn section_count(&self) -> u32
        ensures { result ≡ section_total self.now }
    {
        self.header.section_count
    }

    /// Where the section headers begin.
    pub(crate) fn section_headers(&self) -> u32
        ensures { result ≡ section_headers_offset self.now }
    {
        self.header.section_headers
    }

    /// Where the symbol records begin, or 0.
    pub fn symbols_offset(&self) -> u32
        ensures { result ≡ symbols_offset self.now }
    {
        self.header.symbols
    }

    /// How many symbol records there are, the auxiliary ones included.
    pub fn record_count(&self) -> u32
        ensures { result ≡ record_total self.now }
    {
        self.header.record_count
    }

    /// How many bytes a symbol record has.
    pub fn symbol_size(&self) -> usize
        ensures size { result ≡ symbol_size self.now }
        ensures low { 18 ≤ result }
        ensures high { result ≤ 20 }
    {
        self.header.symbol_size()
    }

    /// The header of a section.
    pub fn section_header(&self, section: u32) -> SectionHeader<'a>
        requires headers { is_truncated self.now ≡ false }
        requires first { 1 ≤ section }
        requires last { section ≤ section_total self.now }
        ensures { result ≡ section_at self.now section }
    {
        let start = self.section_headers() as usize
            + SIZEOF_SECTION_HEADER * (section as usize - 1);
        SectionHeader::of(slice_in(self.bytes, start, SIZEOF_SECTION_HEADER))
    }

    /// Where a symbol record begins.
    pub(crate) fn record_offset(&self, index: u32) -> usize
        ensures place { result ≡ record_offset self.now index }
        ensures bound { result < 2 ^ 40 }
    {
        self.symbols_offset() as usize + self.symbol_size() * index as usize
    }

    /// A symbol record, or an auxiliary one.
    pub(crate) fn record(&self, index: u32) -> &'a [u8]
        requires { record_offset self.now index + symbol_size self.now ≤ length self.now }
        ensures part { result.now ≡ record_at self.now index }
        ensures len { length result.now ≡ symbol_size self.now }
    {
        slice_in(self.bytes, self.record_offset(index), self.symbol_size())
    }

    /// An auxiliary record of a symbol, by its index after it.
    pub fn aux_record(&self, index: u32, place: u8) -> &'a [u8]
        requires { record_offset self.now (index + 1 + place) + symbol_size self.now ≤ length self.now }
        ensures part { result.now ≡ record_at self.now (index + 1 + place) }
        ensures len { length result.now ≡ symbol_size self.now }
    {
        let size = self.symbol_size();
        let start = self.record_offset(index) + size * (1 + usize::from(place));
        slice_in(self.bytes, start, size)
    }

    /// How many auxiliary records follow the symbol in a record.
    pub fn aux_count(&self, index: u32) -> u8
        requires { record_offset self.now index + symbol_size self.now ≤ length self.now }
        ensures { result ≡ aux_total_of self.now index }
    {
        SymbolRecord::of(self.header.is_big, self.record(index), &[]).aux()
    }

    /// A record read as a symbol, with the file's string table.
    pub fn symbol(&self, index: u32, strings: &'a [u8]) -> SymbolRecord<'a>
        requires whole { record_offset self.now index + symbol_size self.now ≤ length self.now }
        requires table { strings.now ≡ string_table self.now }
        ensures { result ≡ symbol_at self.now index }
    {
        SymbolRecord::of(self.header.is_big, self.record(index), strings)
    }
}

/// Whether the file header or the section headers leave the file.
#[tactic(auto, unfolding(crate::specs::FileRanges::is_truncated))]
pub fn is_truncated(bytes: &[u8]) -> bool
    ensures { result ≡ is_truncated bytes.now }
{
    if bytes.len() < header_size(bytes) {
        return true;
    }
    let file = CoffFile::read(bytes);
    let size = SIZEOF_SECTION_HEADER * file.section_count() as usize;
    leaves_file(bytes, file.section_headers() as usize, size)
}
