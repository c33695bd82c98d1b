//! The bytes of a stream, one that is not there being empty.

ghost use Rattle.std.specs.Prelude.{◌≡◌, ◌<◌, ◌≤◌, ◌+◌, ◌^◌, IsTrue, nat_le, length, slice_index};
ghost use Rattle.link_base.specs.Bytes.{u16_at, u32_at};
ghost use Rattle.pdb_publics.specs.Lookup.{stream_bytes_of};

use pdb_msf::Msf;

/// Whether a stream has so many bytes.
pub(crate) fn has_bytes(msf: &Msf<'_>, stream: u32, count: usize) -> bool
    ensures there { result ≡ nat_le count (length (stream_bytes_of msf.now stream)) }
    ensures small { IsTrue result → count < 2 ^ 32 }
{
    if count == 0 {
        return true;
    }
    let Some(len) = msf.stream_len(stream) else {
        return false;
    };
    if count > len as usize {
        return false;
    }
    // The last of the bytes is asked for, which is what shows that the others are there.
    msf.stream_byte(stream, (count - 1) as u32).is_some()
}

/// A byte of a stream, 0 behind its end.
pub(crate) fn byte_in(msf: &Msf<'_>, stream: u32, at: usize) -> u8
    requires { at < 2 ^ 32 }
    ensures { result ≡ slice_index (stream_bytes_of msf.now stream) at }
{
    match msf.stream_byte(stream, at as u32) {
        Some(byte) => byte,
        None => 0,
    }
}

/// The number in two bytes of a stream.
pub(crate) fn u16_in(msf: &Msf<'_>, stream: u32, at: usize) -> u16
    requires { at + 2 ≤ 2 ^ 32 }
    ensures { result ≡ u16_at (stream_bytes_of msf.now stream) at }
{
    u16::from(byte_in(msf, stream, at)) + 256 * u16::from(byte_in(msf, stream, at + 1))
}

/// The number in four bytes of a stream.
pub(crate) fn u32_in(msf: &Msf<'_>, stream: u32, at: usize) -> u32
    requires { at + 4 ≤ 2 ^ 32 }
    ensures { result ≡ u32_at (stream_bytes_of msf.now stream) at }
{
    u32::from(u16_in(msf, stream, at)) + 0x1_0000 * u32::from(u16_in(msf, stream, at + 2))
}
