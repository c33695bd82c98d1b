//! Why a file is refused.

ghost use Rattle.std.specs.Prelude.{◌≡◌, ◌≤◌, ◌<◌, ◌+◌, IsTrue, true, length};
ghost use Rattle.pdb_msf.specs.BlockFile.{SUPERBLOCK_SIZE, BLOCK_NUMBERS, directory_blocks, has_superblock, has_size, has_map, is_block, entry, stream_count, directory_is_there, listed_len, lists_are_there, has_blocks, has_directory, msf_fault};

use crate::directory::{blocks_before, directory_block, directory_len, entry, is_block};
use crate::format::{
    BLOCK_NUMBERS, BLOCK_SIZE, DIRECTORY_LIMIT, SUPERBLOCK_SIZE, blocks_for, signature,
};
use crate::superblock::{block_count, directory_size, map_block, size_of_blocks};
use link_base::PdbKind;
use std::cmp::min;

/// The first test that a file fails.
#[tactic(auto, unfolding(crate::specs::BlockFile::msf_fault), using(crate::proofs::DirectoryLemmas::directory_of_blocks))]
pub(crate) fn msf_fault(bytes: &[u8]) -> Option<PdbKind>
    ensures { result ≡ msf_fault bytes.now }
{
    if !has_superblock(bytes) {
        return Some(PdbKind::Superblock);
    }
    if !has_blocks(bytes) {
        return Some(PdbKind::Blocks);
    }
    if !has_directory(bytes) {
        return Some(PdbKind::Directory);
    }
    None
}

#[tactic(auto, unfolding(crate::specs::BlockFile::has_superblock))]
fn has_superblock(bytes: &[u8]) -> bool
    ensures test { result ≡ has_superblock bytes.now }
    ensures there { IsTrue result → SUPERBLOCK_SIZE ≤ length bytes.now }
{
    bytes.len() >= SUPERBLOCK_SIZE && bytes.starts_with(signature())
}

/// Whether the blocks have the one size, as many as are counted lie in the file, and each that is named does.
#[tactic(auto, unfolding(crate::specs::BlockFile::has_blocks))]
fn has_blocks(bytes: &[u8]) -> bool
    requires { SUPERBLOCK_SIZE ≤ length bytes.now }
    ensures { result ≡ has_blocks bytes.now }
{
    has_size(bytes) && (directory_is_there(bytes) && lists_are_there(bytes))
}

#[tactic(auto, unfolding(crate::specs::BlockFile::has_size))]
fn has_size(bytes: &[u8]) -> bool
    requires { SUPERBLOCK_SIZE ≤ length bytes.now }
    ensures { result ≡ has_size bytes.now }
{
    size_of_blocks(bytes) as usize == BLOCK_SIZE
        && BLOCK_SIZE * block_count(bytes) as usize <= bytes.len()
}

#[tactic(auto, unfolding(crate::specs::BlockFile::has_map))]
fn has_map(bytes: &[u8]) -> bool
    requires { SUPERBLOCK_SIZE ≤ length bytes.now }
    ensures { result ≡ has_map bytes.now }
{
    is_block(bytes, map_block(bytes))
}

/// Whether the blocks of the directory lie in the file, and the one that lists them.
#[tactic(auto, unfolding(crate::specs::BlockFile::directory_is_there))]
fn directory_is_there(bytes: &[u8]) -> bool
    requires { SUPERBLOCK_SIZE ≤ length bytes.now }
    ensures { result ≡ directory_is_there bytes.now }
{
    if !has_map(bytes) {
        return false;
    }
    let count = directory_blocks(bytes);
    for index in 0..count {
        if !is_block(bytes, directory_block(bytes, index)) {
            return false;
        }
    }
    true
}

/// How many blocks of the directory its block of numbers lists.
fn directory_blocks(bytes: &[u8]) -> usize
    requires { SUPERBLOCK_SIZE ≤ length bytes.now }
    ensures count { result ≡ directory_blocks bytes.now }
    ensures most { result ≤ BLOCK_NUMBERS }
{
    min(blocks_for(directory_size(bytes) as usize), BLOCK_NUMBERS)
}

/// Whether the blocks of streams lie in the file, as far as the directory has their numbers.
#[tactic(auto, unfolding(crate::specs::BlockFile::lists_are_there))]
fn lists_are_there(bytes: &[u8]) -> bool
    requires { directory_is_there bytes.now ≡ true }
    ensures { result ≡ lists_are_there bytes.now }
{
    let count = listed_len(bytes);
    for index in 0..count {
        if !is_listed_block(bytes, index) {
            return false;
        }
    }
    true
}

/// How many numbers of blocks of streams are there.
#[tactic(auto, unfolding(crate::specs::BlockFile::listed_len))]
fn listed_len(bytes: &[u8]) -> usize
    requires { directory_is_there bytes.now ≡ true }
    ensures { result ≡ listed_len bytes.now }
{
    let len = directory_len(bytes);
    if len == 0 {
        return 0;
    }
    let streams = entry(bytes, 0) as usize;
    if streams >= len {
        return 0;
    }
    min(blocks_before(bytes, streams), len - (1 + streams))
}

/// Whether the block of such a number lies in the file.
#[tactic(auto, using(crate::proofs::DirectoryLemmas::listed_there))]
fn is_listed_block(bytes: &[u8], index: usize) -> bool
    requires directory { directory_is_there bytes.now ≡ true }
    requires index { index < listed_len bytes.now }
    ensures { result ≡ is_block bytes.now (entry bytes.now (1 + stream_count bytes.now + index)) }
{
    let streams = entry(bytes, 0) as usize;
    is_block(bytes, entry(bytes, 1 + streams + index))
}

/// Whether the directory is no longer than it may be, and long enough for all of its numbers.
#[tactic(auto, unfolding(crate::specs::BlockFile::has_directory), using(crate::proofs::DirectoryLemmas::superblock_there))]
fn has_directory(bytes: &[u8]) -> bool
    requires { directory_is_there bytes.now ≡ true }
    ensures { result ≡ has_directory bytes.now }
{
    if directory_size(bytes) as usize > DIRECTORY_LIMIT {
        return false;
    }
    let len = directory_len(bytes);
    if len == 0 {
        return false;
    }
    let streams = entry(bytes, 0) as usize;
    if streams >= len {
        return false;
    }
    1 + streams + blocks_before(bytes, streams) <= len
}
