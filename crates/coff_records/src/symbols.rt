//! The symbols of an object, one after the other.

ghost use Rattle.std.specs.Prelude.{◌≡◌, ◌<◌, ◌≤◌, ◌+◌, map};
ghost use Rattle.std.specs.Iterator.{YieldsFirst, item_count};
ghost use Rattle.coff_records.specs.StringTable.{string_table};
ghost use Rattle.coff_records.specs.ObjectFile.{symbol_entries};
ghost use Rattle.coff_records.specs.FileRanges.{HasRecords};

use crate::file::CoffFile;
use crate::symbol_record::SymbolRecord;
use std::marker::Model;

/// The symbols of an object that are still to come, each with its record's index, in the order of their records. Auxiliary
/// records are passed over.
#[derive(Drop)]
pub struct Symbols<'a> {
    file: CoffFile<'a>,
    strings: &'a [u8],
    index: u32,
}

impl<'a> Model for Symbols<'a> {
    ghost use Rattle.std.specs.Prelude.{◌≡◌, List, ℕ, map};
    ghost use Rattle.coff_records.specs.SymbolRecord.{SymbolView};
    ghost use Rattle.coff_records.specs.StringTable.{string_table};
    ghost use Rattle.coff_records.specs.ObjectFile.{starts_from, symbol_entry};
    ghost use Rattle.coff_records.specs.FileParts.{IsWalked};

    ghost Value = { List (ℕ × SymbolView) };

    ghost view = { λ it. map (symbol_entry it.file) (starts_from it.file it.index) };

    ghost invariant = { λ it. IsWalked it.file it.strings.now };
}

impl<'a> Symbols<'a> {
    /// All symbols of a file whose records are there.
    pub fn of(file: CoffFile<'a>, strings: &'a [u8]) -> Symbols<'a>
        requires records { HasRecords file }
        requires table { strings.now ≡ string_table file }
        ensures { result ≡ symbol_entries file.entry }
    {
        Symbols {
            file,
            strings,
            index: 0,
        }
    }
}

impl<'a> Iterator for Symbols<'a> {
    type Item = (u32, SymbolRecord<'a>);

    ghost next_gives = { YieldsFirst (λ symbols. symbols) };

    ghost remaining = { item_count (λ symbols. symbols) };

    fn next(&mut self) -> Option<(u32, SymbolRecord<'a>)> {
        let count = self.file.record_count();
        let index = self.index;
        if index >= count {
            return None;
        }
        let symbol = self.file.symbol(index, self.strings);
        self.index = next_start(index, symbol.aux(), count);
        Some((index, symbol))
    }
}

/// The record after a symbol and its auxiliary records, or the count of records where that is beyond it.
pub fn next_start(index: u32, aux: u8, count: u32) -> u32
    requires { index < count }
    ensures there { index + 1 + aux < count → result ≡ index + 1 + aux }
    ensures beyond { count ≤ index + 1 + aux → result ≡ count }
{
    let aux = u32::from(aux);
    if aux < count - index - 1 {
        index + 1 + aux
    } else {
        count
    }
}
