//! The fields of the superblock.

ghost use Rattle.std.specs.Prelude.{◌≡◌, ◌≤◌, length};
ghost use Rattle.pdb_msf.specs.BlockFile.{SUPERBLOCK_SIZE, size_of_blocks, block_count, directory_size, map_block};

use link_base::u32_in;

#[tactic(auto, unfolding(crate::specs::BlockFile::size_of_blocks))]
pub(crate) fn size_of_blocks(bytes: &[u8]) -> u32
    requires { SUPERBLOCK_SIZE ≤ length bytes.now }
    ensures { result ≡ size_of_blocks bytes.now }
{
    u32_in(bytes, 32)
}

#[tactic(auto, unfolding(crate::specs::BlockFile::block_count))]
pub(crate) fn block_count(bytes: &[u8]) -> u32
    requires { SUPERBLOCK_SIZE ≤ length bytes.now }
    ensures { result ≡ block_count bytes.now }
{
    u32_in(bytes, 40)
}

#[tactic(auto, unfolding(crate::specs::BlockFile::directory_size))]
pub(crate) fn directory_size(bytes: &[u8]) -> u32
    requires { SUPERBLOCK_SIZE ≤ length bytes.now }
    ensures { result ≡ directory_size bytes.now }
{
    u32_in(bytes, 44)
}

/// The block that lists the blocks of the directory.
#[tactic(auto, unfolding(crate::specs::BlockFile::map_block))]
pub(crate) fn map_block(bytes: &[u8]) -> u32
    requires { SUPERBLOCK_SIZE ≤ length bytes.now }
    ensures { result ≡ map_block bytes.now }
{
    u32_in(bytes, 52)
}
