//! The blocks of data that a file has besides its streams.

ghost use Rattle.std.specs.Prelude.{◌≡◌, ◌<◌, ◌≤◌, ◌+◌, ◌++◌, ◌^◌, OnOk, IfOk, length};
ghost use Rattle.std.specs.List.{flat_map};
ghost use Rattle.link_base.specs.Bytes.{number_bytes};
ghost use Rattle.pdb_msf.specs.WrittenFile.{superblock, block_numbers, directory, stream_total, directory_total};

use crate::extent::block_number;
use crate::format::signature;
use link_base::{LeNumber, Memory, push_fields};
use std::alloc::Global;

/// The superblock of a file of so many blocks, whose directory has so many bytes.
#[tactic(auto, unfolding(crate::specs::WrittenFile::superblock))]
pub(crate) fn superblock(alloc: Global, total: u32, directory_len: u32) -> Result<Vec<u8>, Memory>
    ensures { IfOk result (λ out. out.items ≡ superblock total directory_len) }
{
    let mut out = Vec::new(alloc);
    out.extend_from_slice(signature())?;
    push_fields(
        &mut out,
        &[
            LeNumber::U32(4096),
            LeNumber::U32(1),
            LeNumber::U32(total),
            LeNumber::U32(directory_len),
            LeNumber::U32(0),
            LeNumber::U32(3),
        ],
    )?;
    Ok(out)
}

/// The directory of streams of these sizes, of which so many blocks of data stand from a given one on.
#[tactic(auto, unfolding(crate::specs::WrittenFile::directory))]
pub(crate) fn directory(
    alloc: Global,
    lengths: &[u32],
    first: usize,
    count: usize,
) -> Result<Vec<u8>, Memory>
    requires few { length lengths.now ≤ 64 }
    requires first { first ≡ 2 + directory_total lengths.now }
    requires count { count ≡ stream_total lengths.now }
    requires small { first + count < 2 ^ 30 }
    ensures { IfOk result (λ out. out.items ≡ directory lengths.now) }
{
    let mut out = Vec::new(alloc);
    push_fields(&mut out, &[LeNumber::U32(lengths.len() as u32)])?;
    push_sizes(&mut out, lengths)?;
    push_block_numbers(&mut out, first, count)?;
    Ok(out)
}

fn push_sizes(out: &mut Vec<u8>, lengths: &[u32]) -> Result<(), Memory>
    ensures { OnOk result (out.new.items ≡ out.old.items ++ flat_map (number_bytes 4) lengths.now) }
{
    for len in lengths {
        push_fields(out, &[LeNumber::U32(*len)])?;
    }
    Ok(())
}

/// Appends the numbers of so many blocks of data from the n-th on.
pub(crate) fn push_block_numbers(out: &mut Vec<u8>, n: usize, count: usize) -> Result<(), Memory>
    requires { n + count < 2 ^ 30 }
    ensures { OnOk result (out.new.items ≡ out.old.items ++ block_numbers n count) }
{
    for index in 0..count {
        push_fields(out, &[LeNumber::U32(block_number(n + index) as u32)])?;
    }
    Ok(())
}
