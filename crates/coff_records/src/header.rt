//! The header of an object, in its two forms.

ghost use Rattle.std.specs.Prelude.{◌≡◌, ◌≤◌, length, drop, true, false, ◌==◌, if◌then◌else◌};
ghost use Rattle.link_base.specs.NameText.{begins};
ghost use Rattle.coff_records.specs.ObjectHeader.{is_big_object, big_object_class, header_size};
ghost use Rattle.coff_records.specs.SymbolRecord.{record_size};
ghost use Rattle.coff_records.specs.FileParts.{ReadsHeader};

use crate::offsets::{
    BIG_CLASS, BIG_MACHINE, BIG_NUMBER_OF_SECTIONS, BIG_NUMBER_OF_SYMBOLS,
    BIG_POINTER_TO_SYMBOL_TABLE, FILE_MACHINE, FILE_NUMBER_OF_SECTIONS, FILE_NUMBER_OF_SYMBOLS,
    FILE_POINTER_TO_SYMBOL_TABLE, FILE_SIZE_OF_OPTIONAL_HEADER,
};
use link_base::pe_format::{
    SIZEOF_BIG_OBJECT_HEADER, SIZEOF_FILE_HEADER, SIZEOF_SYMBOL, SIZEOF_SYMBOL_EX,
};
use link_base::{u16_in, u32_in};

/// Whether the bytes begin as those of a big object.
#[tactic(auto, unfolding(crate::specs::ObjectHeader::is_big_object))]
pub fn is_big_object(bytes: &[u8]) -> bool
    ensures { result ≡ is_big_object bytes.now }
{
    if begins_otherwise(bytes) {
        return false;
    }
    bytes.starts_with(b"\x00\x00\xff\xff\x02\x00") && has_big_object_class(bytes)
}

/// Whether the first byte is that of no big object, which it mostly is.
#[tactic(auto, using(crate::proofs::HeaderLemmas::not_big))]
fn begins_otherwise(bytes: &[u8]) -> bool
    ensures { result ≡ true → is_big_object bytes.now ≡ false }
{
    !bytes.is_empty() && bytes[0] != 0
}

/// Whether the class identifier of big objects stands in its place.
#[tactic(auto, using(crate::proofs::HeaderLemmas::no_class))]
fn has_big_object_class(bytes: &[u8]) -> bool
    ensures { result ≡ begins (drop BIG_CLASS bytes.now) big_object_class }
{
    if bytes.len() < BIG_CLASS {
        return false;
    }
    bytes[BIG_CLASS..].starts_with(big_object_class())
}

/// The class identifier of big objects.
#[tactic(auto, unfolding(crate::specs::ObjectHeader::big_object_class))]
fn big_object_class() -> &'static [u8]
    ensures { result.now ≡ big_object_class }
{
    b"\xc7\xa1\xba\xd1\xee\xba\xa9\x4b\xaf\x20\xfa\xf6\x6a\xa4\xdc\xb8"
}

/// How many bytes the header of a file has.
#[tactic(auto, unfolding(crate::specs::ObjectHeader::header_size))]
pub(crate) fn header_size(bytes: &[u8]) -> usize
    ensures { result ≡ header_size bytes.now }
{
    if is_big_object(bytes) {
        SIZEOF_BIG_OBJECT_HEADER
    } else {
        SIZEOF_FILE_HEADER
    }
}

/// The numbers of an object's header: where its section headers and its symbol records begin, and how many there are.
#[derive(Clone, Copy)]
pub(crate) struct Header {
    pub(crate) is_big: bool,
    pub(crate) machine: u16,
    pub(crate) section_count: u32,
    pub(crate) section_headers: u32,
    pub(crate) symbols: u32,
    pub(crate) record_count: u32,
}

impl Header {
    /// The header of these bytes.
    #[tactic(auto, unfolding(crate::specs::ObjectHeader::header_size))]
    pub(crate) fn read(bytes: &[u8]) -> Header
        requires { header_size bytes.now ≤ length bytes.now }
        ensures { ReadsHeader bytes.now result }
    {
        if is_big_object(bytes) {
            big_header(bytes)
        } else {
            plain_header(bytes)
        }
    }

    /// How many bytes a symbol record has.
    pub(crate) fn symbol_size(&self) -> usize
        ensures { result ≡ record_size self.now.is_big }
    {
        if self.is_big {
            SIZEOF_SYMBOL_EX
        } else {
            SIZEOF_SYMBOL
        }
    }
}

fn plain_header(bytes: &[u8]) -> Header
    requires form { is_big_object bytes.now ≡ false }
    requires whole { SIZEOF_FILE_HEADER ≤ length bytes.now }
    ensures { ReadsHeader bytes.now result }
{
    let symbols = u32_in(bytes, FILE_POINTER_TO_SYMBOL_TABLE);
    Header {
        is_big: false,
        machine: u16_in(bytes, FILE_MACHINE),
        section_count: u32::from(u16_in(bytes, FILE_NUMBER_OF_SECTIONS)),
        section_headers: SIZEOF_FILE_HEADER as u32
            + u32::from(u16_in(bytes, FILE_SIZE_OF_OPTIONAL_HEADER)),
        symbols,
        record_count: counted(symbols, u32_in(bytes, FILE_NUMBER_OF_SYMBOLS)),
    }
}

fn big_header(bytes: &[u8]) -> Header
    requires form { is_big_object bytes.now ≡ true }
    requires whole { SIZEOF_BIG_OBJECT_HEADER ≤ length bytes.now }
    ensures { ReadsHeader bytes.now result }
{
    let symbols = u32_in(bytes, BIG_POINTER_TO_SYMBOL_TABLE);
    Header {
        is_big: true,
        machine: u16_in(bytes, BIG_MACHINE),
        section_count: u32_in(bytes, BIG_NUMBER_OF_SECTIONS),
        section_headers: SIZEOF_BIG_OBJECT_HEADER as u32,
        symbols,
        record_count: counted(symbols, u32_in(bytes, BIG_NUMBER_OF_SYMBOLS)),
    }
}

/// How many symbol records there are, by their pointer and their count: none where the pointer is 0.
fn counted(symbols: u32, count: u32) -> u32
    ensures { result ≡ (if symbols == 0 then 0 else count) }
{
    if symbols == 0 { 0 } else { count }
}
