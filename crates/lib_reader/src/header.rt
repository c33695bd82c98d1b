//! The header of a member, 60 bytes: its name field, its size, and where its data end (PE Format, "Archive Member
//! Headers").

ghost use Rattle.std.specs.Prelude.{◌≡◌, ◌<◌, ◌≤◌, ◌+◌, ◌^◌, length, false, is_none, IfSome};
ghost use Rattle.lib_reader.specs.ArchiveMember.{trimmed, name_text, size_number, size_of, header_is_bad, size_is_bad, data_of, next_header};

use crate::constants::{ARCHIVE_END, SIZEOF_ARCHIVE_MEMBER_HDR};
use link_base::{decimal_number, slice_in};

/// The text of a field: what stands before the blanks at its end.
#[tactic(auto, unfolding(crate::specs::ArchiveMember::trimmed))]
fn trimmed(text: &[u8]) -> &[u8]
    ensures text { result.now ≡ trimmed text.now }
    ensures short { length result.now ≤ length text.now }
{
    let mut len = text.len();
    while len > 0 && text[len - 1] == b' ' {
        len -= 1;
    }
    let (front, _) = text.split_at(len);
    front
}

/// Whether the header leaves the file, or does not end as a header does.
#[tactic(auto, unfolding(crate::specs::ArchiveMember::header_is_bad))]
pub(crate) fn header_is_bad(bytes: &[u8], at: usize) -> bool
    requires { at < 2 ^ 32 }
    ensures bad { result ≡ header_is_bad bytes.now at }
    ensures whole { result ≡ false → at + 60 ≤ length bytes.now }
{
    at + SIZEOF_ARCHIVE_MEMBER_HDR > bytes.len() || slice_in(bytes, at + 58, 2) != ARCHIVE_END
}

/// The text of the name field.
#[tactic(auto, unfolding(crate::specs::ArchiveMember::name_text))]
pub(crate) fn name_text(bytes: &[u8], at: usize) -> &[u8]
    requires { at + 60 ≤ length bytes.now }
    ensures text { result.now ≡ name_text bytes.now at }
    ensures short { length result.now ≤ 16 }
{
    trimmed(slice_in(bytes, at, 16))
}

/// The number of the size field, where it writes one.
#[tactic(auto, unfolding(crate::specs::ArchiveMember::size_number))]
fn size_number(bytes: &[u8], at: usize) -> Option<usize>
    requires { at + 60 ≤ length bytes.now }
    ensures number { result ≡ size_number bytes.now at }
    ensures bound { IfSome result (λ number. number < 10 ^ 15) }
{
    decimal_number(trimmed(slice_in(bytes, at + 48, 10)))
}

/// How many bytes of data a member has: none where the size is no decimal number, or the data leave the file.
#[tactic(auto, unfolding(crate::specs::ArchiveMember::size_is_bad))]
pub(crate) fn whole_size(bytes: &[u8], at: usize) -> Option<usize>
    requires small { at < 2 ^ 32 }
    requires header { at + 60 ≤ length bytes.now }
    ensures bad { is_none result ≡ size_is_bad bytes.now at }
    ensures size { IfSome result (λ size. size ≡ size_of bytes.now at) }
    ensures whole { IfSome result (λ size. at + 60 + size ≤ length bytes.now) }
{
    let size = size_number(bytes, at)?;
    if at + SIZEOF_ARCHIVE_MEMBER_HDR + size > bytes.len() {
        return None;
    }
    Some(size)
}

/// How many bytes of data a member has.
#[tactic(auto, unfolding(crate::specs::ArchiveMember::size_is_bad))]
fn size_in(bytes: &[u8], at: usize) -> usize
    requires header { at + 60 ≤ length bytes.now }
    requires size { size_is_bad bytes.now at ≡ false }
    ensures size { result ≡ size_of bytes.now at }
    ensures whole { at + 60 + result ≤ length bytes.now }
{
    match size_number(bytes, at) {
        Some(size) => size,
        None => 0,
    }
}

/// The data of a member.
pub(crate) fn data_in(bytes: &[u8], at: usize) -> &[u8]
    requires header { at + 60 ≤ length bytes.now }
    requires size { size_is_bad bytes.now at ≡ false }
    ensures { result.now ≡ data_of bytes.now at }
{
    slice_in(bytes, at + SIZEOF_ARCHIVE_MEMBER_HDR, size_in(bytes, at))
}

/// Where the next header stands: at the next even offset behind the data.
#[tactic(auto, unfolding(crate::specs::ArchiveMember::next_header))]
pub(crate) fn next_header(bytes: &[u8], at: usize) -> usize
    requires file { length bytes.now < 2 ^ 32 }
    requires header { at + 60 ≤ length bytes.now }
    requires size { size_is_bad bytes.now at ≡ false }
    ensures place { result ≡ next_header bytes.now at }
    ensures behind { at + 60 ≤ result }
    ensures near { result ≤ length bytes.now + 1 }
{
    let end = at + SIZEOF_ARCHIVE_MEMBER_HDR + size_in(bytes, at);
    end + end % 2
}
