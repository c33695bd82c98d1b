//! The string table, and the texts that stand in it (PE Format, "COFF String Table").

ghost use Rattle.std.specs.Prelude.{◌≡◌, ◌<◌, ◌+◌, ◌^◌, [], take, false, is_some, is_none, unwrap_or};
ghost use Rattle.coff_records.specs.StringTable.{string_table_offset, string_table_size, string_table, text_in};
ghost use Rattle.coff_records.specs.FileRanges.{table_leaves};
ghost use Rattle.coff_records.specs.TextEnd.{EndsTexts};

use crate::file::CoffFile;
use crate::ranges::{before_nul, first_bytes, leaves_file, range_in};
use link_base::{Name, cstr, u32_in};
use memchr::memrchr;

/// The size of the table stands in its first four bytes.
const SIZEOF_STRING_TABLE_SIZE: usize = 4;

/// Where the string table begins: after the symbol records.
#[tactic(auto, unfolding(crate::specs::StringTable::string_table_offset))]
fn string_table_offset(file: &CoffFile<'_>) -> usize
    ensures place { result ≡ string_table_offset file.now }
    ensures bound { result < 2 ^ 40 }
{
    file.symbols_offset() as usize + file.symbol_size() * file.record_count() as usize
}

/// The size of the string table, with the four bytes of its size; 0 where there is none.
#[tactic(auto, unfolding(crate::specs::StringTable::string_table_size))]
fn string_table_size(file: &CoffFile<'_>) -> usize
    ensures size { result ≡ string_table_size file.now }
    ensures bound { result < 2 ^ 32 }
{
    let start = string_table_offset(file);
    let bytes = file.bytes();
    if file.symbols_offset() == 0 || start + SIZEOF_STRING_TABLE_SIZE > bytes.len() {
        return 0;
    }
    u32_in(bytes, start) as usize
}

/// Whether the string table leaves the file.
#[tactic(auto, unfolding(crate::specs::FileRanges::table_leaves))]
pub fn table_leaves(file: &CoffFile<'_>) -> bool
    ensures { result ≡ table_leaves file.now }
{
    leaves_file(
        file.bytes(),
        string_table_offset(file),
        string_table_size(file),
    )
}

/// The string table, whole.
#[tactic(auto, unfolding(crate::specs::FileRanges::table_leaves, crate::specs::StringTable::string_table))]
pub fn string_table<'a>(file: &CoffFile<'a>) -> &'a [u8]
    requires { table_leaves file.now ≡ false }
    ensures { result.now ≡ string_table file.now }
{
    range_in(
        file.bytes(),
        string_table_offset(file),
        string_table_size(file),
    )
}

/// The place after the last NUL of a table: a text ends in the table where it begins before it. Found once, it spares a walk
/// along each text.
pub fn texts_end(strings: &[u8]) -> usize
    ensures { EndsTexts strings.now result }
{
    match memrchr(0, strings) {
        Some(last) => last + 1,
        None => 0,
    }
}

/// The text at an offset of the string table, where one ends in it.
#[tactic(auto, unfolding(crate::specs::StringTable::text_in))]
pub(crate) fn text_in(strings: &[u8], offset: usize) -> Option<Name<'_>>
    ensures { result ≡ text_in strings.now offset }
{
    if offset < SIZEOF_STRING_TABLE_SIZE {
        return None;
    }
    cstr(strings, offset)
}

/// The first bytes, at most `limit`, of the text that begins at an offset of the string table and is known to end in it. No
/// byte after the first `limit` is looked at.
#[tactic(auto, using(crate::proofs::TextStartLemmas::text_start), unfolding(crate::specs::StringTable::text_in))]
pub(crate) fn text_start(strings: &[u8], offset: usize, limit: usize) -> &[u8]
    requires { is_none (text_in strings.now offset) ≡ false }
    ensures { result.now ≡ take limit (unwrap_or (text_in strings.now offset) []) }
{
    let (_, rest) = strings.split_at(offset);
    before_nul(first_bytes(rest, limit))
}

/// Whether a text ends in the string table that begins at an offset of it.
#[tactic(auto, unfolding(crate::specs::StringTable::text_in))]
pub(crate) fn has_text(strings: &[u8], offset: usize, texts_end: usize) -> bool
    requires { EndsTexts strings.now texts_end }
    ensures { result ≡ is_some (text_in strings.now offset) }
{
    offset >= SIZEOF_STRING_TABLE_SIZE && offset < texts_end
}
