//! The streams of a file that is known to be well formed.

ghost use Rattle.std.specs.Prelude.{◌≡◌, ◌<◌, ◌≤◌, ◌+◌, ◌*◌, ◌^◌, IfOk, None, length};
ghost use Rattle.link_base.specs.Bytes.{bytes_at};
ghost use Rattle.pdb_msf.specs.BlockFile.{BLOCK_SIZE, entry, stream_count, stream_size, list_of, msf_fault};
ghost use Rattle.pdb_msf.specs.Streams.{stream_bytes, stream_len, stream_byte};

use crate::directory::{blocks_before, entry};
use crate::format::{BLOCK_SIZE, blocks_for};
use link_base::{Memory, slice_in};
use std::alloc::Global;

/// The size of a stream.
#[tactic(auto, using(crate::proofs::StreamLemmas::directory_of))]
pub(crate) fn stream_len(bytes: &[u8], stream: u32) -> Option<u32>
    requires { msf_fault bytes.now ≡ None }
    ensures { result ≡ stream_len bytes.now stream }
{
    if stream >= entry(bytes, 0) {
        return None;
    }
    Some(entry(bytes, 1 + stream as usize))
}

/// A byte of a stream.
pub(crate) fn stream_byte(bytes: &[u8], stream: u32, offset: u32) -> Option<u8>
    requires { msf_fault bytes.now ≡ None }
    ensures { result ≡ stream_byte bytes.now stream offset }
{
    let len = stream_len(bytes, stream)?;
    if offset >= len {
        return None;
    }
    let list = list_of(bytes, stream as usize);
    let block = listed_block(bytes, list + offset as usize / BLOCK_SIZE);
    Some(block[offset as usize % BLOCK_SIZE])
}

/// The bytes of a stream of this size.
pub(crate) fn stream_bytes(
    alloc: Global,
    bytes: &[u8],
    stream: usize,
    len: u32,
) -> Result<Vec<u8>, Memory>
    requires opened { msf_fault bytes.now ≡ None }
    requires stream { stream < stream_count bytes.now }
    requires len { len ≡ stream_size bytes.now stream }
    ensures { IfOk result (λ out. out.items ≡ stream_bytes bytes.now stream) }
{
    let list = list_of(bytes, stream);
    let count = blocks_for(len as usize);
    let mut out = Vec::with_capacity(alloc, BLOCK_SIZE * count)?;
    for index in 0..count {
        out.extend_from_slice(listed_block(bytes, list + index))?;
    }
    out.truncate(len as usize);
    Ok(out)
}

/// Where the numbers of a stream's blocks begin in the directory.
#[tactic(auto, using(crate::proofs::StreamLemmas::directory_of))]
fn list_of(bytes: &[u8], stream: usize) -> usize
    requires opened { msf_fault bytes.now ≡ None }
    requires stream { stream < stream_count bytes.now }
    ensures place { result ≡ list_of bytes.now stream }
    ensures small { result < 2 ^ 48 }
{
    1 + entry(bytes, 0) as usize + blocks_before(bytes, stream)
}

/// The block of a number in the lists of the directory.
#[tactic(auto, using(crate::proofs::StreamLemmas::directory_of))]
fn listed_block(bytes: &[u8], place: usize) -> &[u8]
    requires opened { msf_fault bytes.now ≡ None }
    requires first { 1 + stream_count bytes.now ≤ place }
    requires last { place < list_of bytes.now (stream_count bytes.now) }
    ensures block { result.now ≡ bytes_at bytes.now (BLOCK_SIZE * entry bytes.now place) BLOCK_SIZE }
    ensures len { length result.now ≡ BLOCK_SIZE }
{
    slice_in(bytes, BLOCK_SIZE * entry(bytes, place) as usize, BLOCK_SIZE)
}
