//! The names of sections: in their headers, or in the string table (PE Format, "Section Table (Section Headers)").

ghost use Rattle.std.specs.Prelude.{◌≡◌, ◌≤◌, [], length, take, false, is_some, is_none, unwrap_or};
ghost use Rattle.coff_records.specs.SectionHeader.{names_an_offset, name_offset, long_section_name, section_name_in, lacks_section_name};
ghost use Rattle.coff_records.specs.TextEnd.{EndsTexts};

use crate::ranges::first_bytes;
use crate::section_header::SectionHeader;
use crate::strings::{has_text, text_in, text_start};
use link_base::{Name, decimal_number};

/// The name of a section: that in its header, or the text of the string table that it refers to.
#[tactic(auto, unfolding(crate::specs::SectionHeader::section_name_in))]
pub fn section_name<'a>(strings: &'a [u8], header: &SectionHeader<'a>) -> Name<'a>
    ensures { result ≡ section_name_in strings.now header.now }
{
    let text = header.short_name();
    if !names_an_offset(text) {
        return Name::of(text);
    }
    match long_section_name(strings, text) {
        Some(name) => name,
        None => Name::of(&[]),
    }
}

/// The first bytes of a section's name, at most `limit`.
#[tactic(auto, using(crate::proofs::NameFieldLemmas::field_tells), unfolding(crate::specs::SectionHeader::section_name_in, crate::specs::SectionHeader::lacks_section_name))]
pub fn section_name_start<'a>(
    strings: &'a [u8],
    header: &SectionHeader<'a>,
    limit: usize,
) -> Name<'a>
    requires { lacks_section_name strings.now header.now ≡ false }
    ensures { result ≡ take limit (section_name_in strings.now header.now) }
{
    if names_an_offset(header.name_field()) {
        Name::of(long_name_start(strings, header.short_name(), limit))
    } else {
        Name::of(first_bytes(header.short_name(), limit))
    }
}

/// Whether a section's name refers to a text that is not in the string table.
#[tactic(auto, using(crate::proofs::NameFieldLemmas::field_tells), unfolding(crate::specs::SectionHeader::lacks_section_name))]
pub fn lacks_section_name(strings: &[u8], header: &SectionHeader<'_>, texts_end: usize) -> bool
    requires { EndsTexts strings.now texts_end }
    ensures { result ≡ lacks_section_name strings.now header.now }
{
    names_an_offset(header.name_field()) && !has_long_name(strings, header.short_name(), texts_end)
}

// ---- the text of a name field

/// Whether a section's name field, or its text, refers to the string table: the first byte tells.
fn names_an_offset(text: &[u8]) -> bool
    ensures { result ≡ names_an_offset text.now }
{
    !text.is_empty() && text[0] == b'/'
}

/// The offset that the text of a section's name field writes, where it writes one.
#[tactic(auto, unfolding(crate::specs::SectionHeader::name_offset))]
pub fn name_offset(text: &[u8]) -> Option<usize>
    requires { length text.now ≤ 8 }
    ensures { result ≡ name_offset text.now }
{
    if !names_an_offset(text) {
        return None;
    }
    decimal_number(&text[1..])
}

/// The name that the text of a section's name field refers to.
#[tactic(auto, unfolding(crate::specs::SectionHeader::long_section_name))]
fn long_section_name<'a>(strings: &'a [u8], text: &[u8]) -> Option<Name<'a>>
    requires { length text.now ≤ 8 }
    ensures { result ≡ long_section_name strings.now text.now }
{
    let offset = name_offset(text)?;
    text_in(strings, offset)
}

/// The first bytes, at most `limit`, of the name that the text of a section's name field refers to.
#[tactic(auto, unfolding(crate::specs::SectionHeader::long_section_name))]
fn long_name_start<'a>(strings: &'a [u8], text: &[u8], limit: usize) -> &'a [u8]
    requires short { length text.now ≤ 8 }
    requires named { is_none (long_section_name strings.now text.now) ≡ false }
    ensures { result.now ≡ take limit (unwrap_or (long_section_name strings.now text.now) []) }
{
    match name_offset(text) {
        Some(offset) => text_start(strings, offset, limit),
        None => &[],
    }
}

/// Whether the text of a section's name field refers to a text of the string table.
#[tactic(auto, unfolding(crate::specs::SectionHeader::long_section_name))]
fn has_long_name(strings: &[u8], text: &[u8], texts_end: usize) -> bool
    requires texts { EndsTexts strings.now texts_end }
    requires short { length text.now ≤ 8 }
    ensures { result ≡ is_some (long_section_name strings.now text.now) }
{
    match name_offset(text) {
        Some(offset) => has_text(strings, offset, texts_end),
        None => false,
    }
}
