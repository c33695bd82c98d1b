//! The file of some streams.

ghost use Rattle.std.specs.Prelude.{◌≡◌, ◌<◌, ◌≤◌, ◌+◌, ◌*◌, ◌^◌, ◌++◌, OnOk, IfOk, length, sum};
ghost use Rattle.std.specs.List.{flat_map};
ghost use Rattle.pdb_msf.specs.WrittenFile.{MSF_LIMIT, in_blocks, laid, parted, stream_total, directory_total, directory_extent, block_total, file_size, msf_of_sizes, Writes};

use crate::blocks::{push_block, push_blocks};
use crate::extent::Extent;
use crate::format::{BLOCK_SIZE, blocks_for};
use crate::tables::{directory, push_block_numbers, superblock};
use link_base::Memory;
use std::alloc::Global;

/// The greatest size of a file.
const MSF_LIMIT: u64 = 1_073_741_824;

/// Why a file is not written.
#[derive(Clone, Copy, Debug, PartialEq, Eq)]
pub enum MsfError {
    /// It would have this many bytes, more than 1,073,741,824.
    TooLarge(u64),
    /// Want of memory.
    Memory,
}

/// The file of streams that stand one after the other in `joined`, by their lengths.
pub fn write_msf(alloc: Global, joined: &[u8], lengths: &[u32]) -> Result<Vec<u8>, MsfError>
    requires few { length lengths.now ≤ 64 }
    requires whole { sum lengths.now ≡ length joined.now }
    ensures { Writes lengths.now (parted joined.now lengths.now) result }
{
    let extent = Extent::of(lengths);
    let size = (BLOCK_SIZE * extent.total) as u64;
    if size > MSF_LIMIT {
        return Err(MsfError::TooLarge(size));
    }
    match written(alloc, joined, lengths, extent) {
        Ok(file) => Ok(file),
        Err(Memory) => Err(MsfError::Memory),
    }
}

/// The file, which is not too large.
fn written(alloc: Global, joined: &[u8], lengths: &[u32], extent: Extent) -> Result<Vec<u8>, Memory>
    requires few { length lengths.now ≤ 64 }
    requires whole { sum lengths.now ≡ length joined.now }
    requires streams { extent.streams ≡ stream_total lengths.now }
    requires directory_len { extent.directory_len ≡ directory_extent lengths.now }
    requires directory { extent.directory ≡ directory_total lengths.now }
    requires total { extent.total ≡ block_total lengths.now }
    requires small { extent.total ≤ 262144 }
    ensures { IfOk result (λ out. out.items ≡ msf_of_sizes lengths.now (parted joined.now lengths.now)) }
{
    let total = extent.total;
    let first = 2 + extent.directory;
    let mut out = Vec::with_capacity(alloc, BLOCK_SIZE * total)?;
    let front = superblock(alloc, total as u32, extent.directory_len as u32)?;
    push_block(&mut out, total, 0, &front)?;
    let mut numbers = Vec::new(alloc);
    push_block_numbers(&mut numbers, 2, extent.directory)?;
    push_block(&mut out, total, 1, &numbers)?;
    let table = directory(alloc, lengths, first, extent.streams)?;
    push_blocks(&mut out, total, 2, &table)?;
    push_streams(&mut out, total, first, joined, lengths)?;
    Ok(out)
}

/// Appends the streams as blocks of data from the n-th on.
fn push_streams(
    out: &mut Vec<u8>,
    total: usize,
    first: usize,
    joined: &[u8],
    lengths: &[u32],
) -> Result<(), Memory>
    requires total { total < 2 ^ 48 }
    requires whole { sum lengths.now ≡ length joined.now }
    requires small { first + stream_total lengths.now < 2 ^ 32 }
    ensures { OnOk result (out.new.items ≡ out.old.items ++ laid total first (flat_map in_blocks (parted joined.now lengths.now))) }
{
    let mut rest = joined;
    let mut n = first;
    for len in lengths {
        let (stream, others) = rest.split_at(*len as usize);
        push_blocks(out, total, n, stream)?;
        n += blocks_for(*len as usize);
        rest = others;
    }
    Ok(())
}
