//! Ranges of a file's bytes, and texts that end with a NUL.

ghost use Rattle.std.specs.Prelude.{◌≡◌, ◌<◌, ◌≤◌, ◌+◌, ◌^◌, length, take, false};
ghost use Rattle.std.specs.List.{before_first};
ghost use Rattle.link_base.specs.Bytes.{is_nul, bytes_at};
ghost use Rattle.coff_records.specs.FileRanges.{leaves_file};

use link_base::slice_in;
use memchr::memchr;

/// Whether a range of bytes goes beyond the end of the file. An empty one never does.
pub(crate) fn leaves_file(bytes: &[u8], at: usize, count: usize) -> bool
    requires { at + count < 2 ^ 64 }
    ensures { result ≡ leaves_file bytes.now at count }
{
    count > 0 && at + count > bytes.len()
}

/// The bytes of a range that is in the file. An empty one may begin anywhere.
pub(crate) fn range_in(bytes: &[u8], at: usize, count: usize) -> &[u8]
    requires { leaves_file bytes.now at count ≡ false }
    ensures { result.now ≡ bytes_at bytes.now at count }
{
    if count == 0 {
        return &[];
    }
    slice_in(bytes, at, count)
}

/// The bytes before the first NUL, or all where there is none.
pub(crate) fn before_nul(bytes: &[u8]) -> &[u8]
    ensures text { result.now ≡ before_first is_nul bytes.now }
    ensures short { length result.now ≤ length bytes.now }
{
    match memchr(0, bytes) {
        Some(len) => &bytes[..len],
        None => bytes,
    }
}

/// The first bytes, at most `limit`.
pub(crate) fn first_bytes(bytes: &[u8], limit: usize) -> &[u8]
    ensures { result.now ≡ take limit bytes.now }
{
    if limit >= bytes.len() {
        return bytes;
    }
    &bytes[..limit]
}
