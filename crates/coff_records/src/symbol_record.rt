//! Symbol records (PE Format, "COFF Symbol Table"; for big objects LLVM, `COFF::symbol32`).

ghost use Rattle.std.specs.Prelude.{◌≡◌, ◌<◌, ◌≤◌, length, pos, ◌-ℤ◌, nat_le, if◌then◌else◌};
ghost use Rattle.coff_records.specs.SymbolRecord.{record_size, short_symbol_name, signed_field, long_name_offset_in, name_in, value_in, section_number_in, kind_in, class_in, aux_count_in, lacks_symbol_name};
ghost use Rattle.coff_records.specs.TextEnd.{EndsTexts};

use crate::offsets::{
    BIG_SYMBOL_NUMBER_OF_AUX_SYMBOLS, BIG_SYMBOL_STORAGE_CLASS, BIG_SYMBOL_TYPE, SIZEOF_SHORT_NAME,
    SYMBOL_NAME_OFFSET, SYMBOL_NUMBER_OF_AUX_SYMBOLS, SYMBOL_SECTION_NUMBER, SYMBOL_STORAGE_CLASS,
    SYMBOL_TYPE, SYMBOL_VALUE,
};
use crate::ranges::before_nul;
use crate::strings::{has_text, text_in};
use link_base::{Name, slice_in, u16_in, u32_in};
use std::marker::Model;

/// A symbol, as its record: 18 bytes, or 20 in a big object. A field is read when it is asked for, and only its name costs
/// a search.
#[derive(Drop)]
pub struct SymbolRecord<'a> {
    is_big: bool,
    bytes: &'a [u8],
    strings: &'a [u8],
}

impl<'a> Model for SymbolRecord<'a> {
    ghost use Rattle.std.specs.Prelude.{◌≡◌, length};
    ghost use Rattle.coff_records.specs.SymbolRecord.{SymbolView, record_size};

    ghost Value = { SymbolView };

    ghost view = { λ symbol. record { is_big = symbol.is_big; bytes = symbol.bytes.now; strings = symbol.strings.now } };

    ghost invariant = { λ symbol. length symbol.bytes.now ≡ record_size symbol.is_big };
}

impl<'a> SymbolRecord<'a> {
    /// The symbol in a record, with the string table that its name may stand in.
    pub(crate) fn of(is_big: bool, bytes: &'a [u8], strings: &'a [u8]) -> SymbolRecord<'a>
        requires { length bytes.now ≡ record_size is_big }
        ensures { result ≡ record { is_big = is_big; bytes = bytes.now; strings = strings.now } }
    {
        SymbolRecord {
            is_big,
            bytes,
            strings,
        }
    }

    /// The symbol's name: that in its record, or the text of the string table that it refers to. It is found by a search for
    /// the NUL that ends it.
    #[tactic(auto, unfolding(crate::specs::SymbolRecord::name_in))]
    pub fn name(&self) -> Name<'a>
        ensures { result ≡ name_in self.now }
    {
        if u32_in(self.bytes, 0) != 0 {
            return Name::of(short_name(self.bytes));
        }
        match text_in(
            self.strings,
            u32_in(self.bytes, SYMBOL_NAME_OFFSET) as usize,
        ) {
            Some(name) => name,
            None => Name::of(&[]),
        }
    }

    /// Where the symbol's name stands in the string table, where it stands there.
    #[tactic(auto, unfolding(crate::specs::SymbolRecord::long_name_offset_in))]
    pub fn long_name_offset(&self) -> Option<u32>
        ensures { result ≡ long_name_offset_in self.now }
    {
        if u32_in(self.bytes, 0) != 0 {
            return None;
        }
        Some(u32_in(self.bytes, SYMBOL_NAME_OFFSET))
    }

    /// Whether the symbol's name refers to a text that is not in the string table, by the place where its texts end.
    #[tactic(auto, unfolding(crate::specs::SymbolRecord::lacks_symbol_name))]
    pub fn lacks_name(&self, texts_end: usize) -> bool
        requires { EndsTexts self.now.strings texts_end }
        ensures { result ≡ lacks_symbol_name self.now }
    {
        match self.long_name_offset() {
            Some(offset) => !has_text(self.strings, offset as usize, texts_end),
            None => false,
        }
    }

    /// The symbol's value, mostly an offset in its section.
    pub fn value(&self) -> u32
        ensures { result ≡ value_in self.now }
    {
        u32_in(self.bytes, SYMBOL_VALUE)
    }

    /// The number of the symbol's section, from 1; 0 is undefined, -1 absolute, -2 for debuggers.
    #[tactic(auto, unfolding(crate::specs::SymbolRecord::section_number_in))]
    pub fn section(&self) -> i32
        ensures { result ≡ section_number_in self.now }
    {
        if self.is_big {
            signed_long(u32_in(self.bytes, SYMBOL_SECTION_NUMBER))
        } else {
            signed_short(u16_in(self.bytes, SYMBOL_SECTION_NUMBER))
        }
    }

    /// The symbol's type.
    #[tactic(auto, unfolding(crate::specs::SymbolRecord::kind_in))]
    pub fn kind(&self) -> u16
        ensures { result ≡ kind_in self.now }
    {
        if self.is_big {
            u16_in(self.bytes, BIG_SYMBOL_TYPE)
        } else {
            u16_in(self.bytes, SYMBOL_TYPE)
        }
    }

    /// The symbol's storage class.
    #[tactic(auto, unfolding(crate::specs::SymbolRecord::class_in))]
    pub fn class(&self) -> u8
        ensures { result ≡ class_in self.now }
    {
        if self.is_big {
            self.bytes[BIG_SYMBOL_STORAGE_CLASS]
        } else {
            self.bytes[SYMBOL_STORAGE_CLASS]
        }
    }

    /// How many auxiliary records follow the symbol.
    #[tactic(auto, unfolding(crate::specs::SymbolRecord::aux_count_in))]
    pub fn aux(&self) -> u8
        ensures { result ≡ aux_count_in self.now }
    {
        if self.is_big {
            self.bytes[BIG_SYMBOL_NUMBER_OF_AUX_SYMBOLS]
        } else {
            self.bytes[SYMBOL_NUMBER_OF_AUX_SYMBOLS]
        }
    }
}

/// The text in the name field of a record, up to its first NUL.
fn short_name(bytes: &[u8]) -> &[u8]
    requires { SIZEOF_SHORT_NAME ≤ length bytes.now }
    ensures { result.now ≡ short_symbol_name bytes.now }
{
    before_nul(slice_in(bytes, 0, SIZEOF_SHORT_NAME))
}

/// The greatest section number of two bytes that is one; those above it are the negative ones.
const LAST_SECTION_NUMBER: u16 = 65_279;

/// A section number as its field of two bytes means it.
fn signed_short(field: u16) -> i32
    ensures { result ≡ signed_field 65279 65536 field }
{
    if field <= LAST_SECTION_NUMBER {
        i32::from(field)
    } else {
        i32::from(field) - 65_536
    }
}

/// A section number as its field of four bytes means it.
fn signed_long(field: u32) -> i32
    ensures { result ≡ signed_field 0x7FFF_FFFF 0x1_0000_0000 field }
{
    if field <= 0x7fff_ffff {
        field as i32
    } else {
        (i64::from(field) - 0x1_0000_0000) as i32
    }
}
