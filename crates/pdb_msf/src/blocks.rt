//! Blocks of data laid one behind the other, with the free maps between them.

ghost use Rattle.std.specs.Prelude.{◌≡◌, ◌<◌, ◌≤◌, ◌+◌, ◌-◌, ◌*◌, ◌^◌, ◌++◌, OnOk, length, replicate};
ghost use Rattle.pdb_msf.specs.BlockFile.{BLOCK_SIZE};
ghost use Rattle.pdb_msf.specs.WrittenFile.{map_byte, map_block, padded, numbered_block, cut_block, in_blocks, laid};

use crate::format::{BLOCK_SIZE, DATA_BLOCKS, blocks_for};
use link_base::Memory;
use std::cmp::min;

/// Appends bytes as blocks of data from the n-th on, of a file of so many blocks.
#[tactic(auto, unfolding(crate::specs::WrittenFile::in_blocks))]
pub(crate) fn push_blocks(
    out: &mut Vec<u8>,
    total: usize,
    n: usize,
    bytes: &[u8],
) -> Result<(), Memory>
    requires total { total < 2 ^ 48 }
    requires small { n < 2 ^ 44 }
    ensures { OnOk result (out.new.items ≡ out.old.items ++ laid total n (in_blocks bytes.now)) }
{
    for index in 0..blocks_for(bytes.len()) {
        push_block(out, total, n + index, cut_block(bytes, index))?;
    }
    Ok(())
}

/// The bytes of a block, of which the last may be cut.
fn cut_block(bytes: &[u8], index: usize) -> &[u8]
    requires { BLOCK_SIZE * index ≤ length bytes.now }
    ensures { result.now ≡ cut_block bytes.now index }
{
    let (_, rest) = bytes.split_at(BLOCK_SIZE * index);
    if rest.len() <= BLOCK_SIZE {
        return rest;
    }
    let (block, _) = rest.split_at(BLOCK_SIZE);
    block
}

/// Appends the n-th block of data, with the free maps where it has to stand behind them.
#[tactic(auto, unfolding(crate::specs::WrittenFile::numbered_block))]
pub(crate) fn push_block(
    out: &mut Vec<u8>,
    total: usize,
    n: usize,
    block: &[u8],
) -> Result<(), Memory>
    requires total { total < 2 ^ 48 }
    requires small { n < 2 ^ 52 }
    ensures { OnOk result (out.new.items ≡ out.old.items ++ numbered_block total (n, block.now)) }
{
    if n % DATA_BLOCKS == 1 {
        push_map(out, total, n / DATA_BLOCKS)?;
        push_map(out, total, n / DATA_BLOCKS)?;
        return push_padded(out, block);
    }
    push_padded(out, block)
}

/// Appends a block, with zeros behind it.
fn push_padded(out: &mut Vec<u8>, block: &[u8]) -> Result<(), Memory>
    ensures { OnOk result (out.new.items ≡ out.old.items ++ padded block.now) }
{
    out.extend_from_slice(block)?;
    push_zeros(out, BLOCK_SIZE.saturating_sub(block.len()))
}

fn push_zeros(out: &mut Vec<u8>, count: usize) -> Result<(), Memory>
    ensures { OnOk result (out.new.items ≡ out.old.items ++ replicate count 0) }
{
    let len = out.len().checked_add(count).ok_or(Memory)?;
    out.resize(len, 0)?;
    Ok(())
}

/// Appends a block of the free map.
#[tactic(auto, unfolding(crate::specs::WrittenFile::map_block))]
fn push_map(out: &mut Vec<u8>, total: usize, index: usize) -> Result<(), Memory>
    requires total { total < 2 ^ 48 }
    requires index { index < 2 ^ 44 }
    ensures { OnOk result (out.new.items ≡ out.old.items ++ map_block total index) }
{
    for place in 0..BLOCK_SIZE {
        out.push(map_byte(total, 8 * (BLOCK_SIZE * index + place)))?;
    }
    Ok(())
}

/// Eight bits of the free map from the n-th on.
fn map_byte(total: usize, n: usize) -> u8
    ensures { result ≡ map_byte total n }
{
    let used = min(8, total.saturating_sub(n));
    (256 - (1usize << used)) as u8
}
