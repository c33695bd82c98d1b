//! The numbers of the directory, read where they are known to be there.

ghost use Rattle.std.specs.Prelude.{◌≡◌, ◌<◌, ◌≤◌, ◌+◌, ◌*◌, ◌^◌, true, length};
ghost use Rattle.pdb_msf.specs.BlockFile.{BLOCK_NUMBERS, is_block, has_map, directory_block, directory_len, entry, stream_count, blocks_before, directory_is_there};

use crate::format::{BLOCK_NUMBERS, BLOCK_SIZE, blocks_for};
use crate::superblock::{directory_size, map_block};
use link_base::u32_in;
use std::cmp::min;

/// Whether a block lies in the file.
pub(crate) fn is_block(bytes: &[u8], number: u32) -> bool
    ensures { result ≡ is_block bytes.now number }
{
    BLOCK_SIZE * number as usize + BLOCK_SIZE <= bytes.len()
}

/// A block of the directory, by its index among them.
#[tactic(auto, unfolding(crate::specs::BlockFile::directory_block), using(crate::proofs::DirectoryLemmas::map_there))]
pub(crate) fn directory_block(bytes: &[u8], index: usize) -> u32
    requires map { has_map bytes.now ≡ true }
    requires index { index < BLOCK_NUMBERS }
    ensures { result ≡ directory_block bytes.now index }
{
    u32_in(bytes, BLOCK_SIZE * map_block(bytes) as usize + 4 * index)
}

/// How many numbers of the directory are there.
#[tactic(auto, unfolding(crate::specs::BlockFile::directory_len), using(crate::proofs::DirectoryLemmas::superblock_there))]
pub(crate) fn directory_len(bytes: &[u8]) -> usize
    requires { directory_is_there bytes.now ≡ true }
    ensures count { result ≡ directory_len bytes.now }
    ensures most { result ≤ 1048576 }
{
    min(
        directory_size(bytes) as usize / 4,
        BLOCK_NUMBERS * BLOCK_NUMBERS,
    )
}

/// A number of the directory, by its index.
#[tactic(auto, unfolding(crate::specs::BlockFile::entry), using(crate::proofs::DirectoryLemmas::entry_there, crate::proofs::DirectoryLemmas::map_of_directory))]
pub(crate) fn entry(bytes: &[u8], index: usize) -> u32
    requires directory { directory_is_there bytes.now ≡ true }
    requires index { index < directory_len bytes.now }
    ensures { result ≡ entry bytes.now index }
{
    let block = directory_block(bytes, index / BLOCK_NUMBERS);
    u32_in(
        bytes,
        BLOCK_SIZE * block as usize + 4 * (index % BLOCK_NUMBERS),
    )
}

/// The blocks of the first streams together, of which the directory has the sizes.
pub(crate) fn blocks_before(bytes: &[u8], streams: usize) -> usize
    requires directory { directory_is_there bytes.now ≡ true }
    requires sizes { streams < directory_len bytes.now }
    ensures sum { result ≡ blocks_before bytes.now streams }
    ensures most { result ≤ 1048576 * streams }
{
    let mut blocks = 0;
    for stream in 0..streams {
        blocks += blocks_for(entry(bytes, 1 + stream) as usize);
    }
    blocks
}
