//! Fields of a format, and ranges of bytes, at a byte offset that is known to lie in the bytes at hand. The numbers are
//! little-endian, as everywhere in the PE format.

ghost use Rattle.std.specs.Prelude.{◌≡◌, ◌≤◌, ◌+◌, length, drop};
ghost use Rattle.link_base.specs.Bytes.{u16_at, u32_at, u64_at, bytes_at};

use byteorder::{ByteOrder, LittleEndian};

/// The number in the two bytes at `at`.
#[tactic(auto, using(crate::proofs::Bytes::number_is))]
pub fn u16_in(bytes: &[u8], at: usize) -> u16
    requires { at + 2 ≤ length bytes.now }
    ensures { result ≡ u16_at bytes.now at }
{
    LittleEndian::read_u16(tail_in(bytes, at))
}

/// The number in the four bytes at `at`.
#[tactic(auto, using(crate::proofs::Bytes::number_is))]
pub fn u32_in(bytes: &[u8], at: usize) -> u32
    requires { at + 4 ≤ length bytes.now }
    ensures { result ≡ u32_at bytes.now at }
{
    LittleEndian::read_u32(tail_in(bytes, at))
}

/// The number in the eight bytes at `at`.
#[tactic(auto, using(crate::proofs::Bytes::number_is))]
pub fn u64_in(bytes: &[u8], at: usize) -> u64
    requires { at + 8 ≤ length bytes.now }
    ensures { result ≡ u64_at bytes.now at }
{
    LittleEndian::read_u64(tail_in(bytes, at))
}

/// The bytes from `at` on.
fn tail_in(bytes: &[u8], at: usize) -> &[u8]
    requires { at ≤ length bytes.now }
    ensures { result.now ≡ drop at bytes.now }
{
    &bytes[at..]
}

/// The `count` bytes from `at` on.
pub fn slice_in(bytes: &[u8], at: usize, count: usize) -> &[u8]
    requires { at + count ≤ length bytes.now }
    ensures part { result.now ≡ bytes_at bytes.now at count }
    ensures len { length result.now ≡ count }
{
    let (_, rest) = bytes.split_at(at);
    let (part, _) = rest.split_at(count);
    part
}
