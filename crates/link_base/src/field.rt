//! Fields of a format, read at a byte offset, and texts that end with a NUL. The numbers are
//! little-endian, as everywhere in the PE format.

ghost use Rattle.std.specs.Prelude.{◌≡◌, ◌≤◌, ◌+◌, ◌-◌, ◌<◌, length, drop, IfSome, IfNone, option_map, MatchOption};
ghost use Rattle.std.specs.Option.{option_copied};
ghost use Rattle.link_base.specs.Bytes.{field, text_at, has_bytes};

use crate::name::Name;
use byteorder::{ByteOrder, LittleEndian};
use memchr::memchr;

/// The number in the two bytes at `at`, where they are there.
#[tactic(auto, using(crate::proofs::Bytes::field_is))]
pub fn field_u16(bytes: &[u8], at: usize) -> Option<u16>
    ensures { result ≡ field 2 bytes.now at }
{
    let rest = tail_of(bytes, at, 2)?;
    Some(LittleEndian::read_u16(rest))
}

/// The number in the four bytes at `at`, where they are there.
#[tactic(auto, using(crate::proofs::Bytes::field_is))]
pub fn field_u32(bytes: &[u8], at: usize) -> Option<u32>
    ensures { result ≡ field 4 bytes.now at }
{
    let rest = tail_of(bytes, at, 4)?;
    Some(LittleEndian::read_u32(rest))
}

/// The number in the eight bytes at `at`, where they are there.
#[tactic(auto, using(crate::proofs::Bytes::field_is))]
pub fn field_u64(bytes: &[u8], at: usize) -> Option<u64>
    ensures { result ≡ field 8 bytes.now at }
{
    let rest = tail_of(bytes, at, 8)?;
    Some(LittleEndian::read_u64(rest))
}

/// The bytes from `at` on, where there are at least `width`.
fn tail_of(bytes: &[u8], at: usize, width: usize) -> Option<&[u8]>
    ensures none { IfNone result (length bytes.now < at + width) }
    ensures fits { IfSome result (λ rest. at + width ≤ length bytes.now) }
    ensures tail { IfSome result (λ rest. rest.now ≡ drop at bytes.now) }
{
    if at > bytes.len() || bytes.len() - at < width {
        return None;
    }
    Some(&bytes[at..])
}

/// The text from `at` up to the first NUL at or after it, where there is one.
#[tactic(auto, using(crate::proofs::Bytes::text_beyond))]
pub fn cstr<'a>(bytes: &'a [u8], at: usize) -> Option<Name<'a>>
    ensures { result ≡ text_at bytes.now at }
{
    if at > bytes.len() {
        return None;
    }
    let (_, rest) = bytes.split_at(at);
    match memchr(0, rest) {
        Some(len) => Some(Name::of(&rest[..len])),
        None => None,
    }
}
