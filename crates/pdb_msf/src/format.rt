//! Numbers of the format (LLVM, "The MSF File Format").

ghost use Rattle.std.specs.Prelude.{◌≡◌, ◌<◌, ◌^◌};
ghost use Rattle.pdb_msf.specs.BlockFile.{signature, blocks_for};

/// The bytes of a block.
pub(crate) const BLOCK_SIZE: usize = 4096;

/// The numbers that a block holds.
pub(crate) const BLOCK_NUMBERS: usize = 1024;

/// The blocks of data of every 4,096, of which two are free maps.
pub(crate) const DATA_BLOCKS: usize = BLOCK_SIZE - 2;

/// The bytes of the superblock that hold its fields.
pub(crate) const SUPERBLOCK_SIZE: usize = 56;

/// The greatest size of a directory.
pub(crate) const DIRECTORY_LIMIT: usize = BLOCK_SIZE * BLOCK_NUMBERS;

/// What a file begins with.
#[tactic(auto, unfolding(crate::specs::BlockFile::signature))]
pub(crate) fn signature() -> &'static [u8]
    ensures { result.now ≡ signature }
{
    b"Microsoft C/C++ MSF 7.00\r\n\x1aDS\0\0\0"
}

/// The blocks that so many bytes take.
pub(crate) fn blocks_for(size: usize) -> usize
    requires { size < 2 ^ 63 }
    ensures { result ≡ blocks_for size }
{
    (size + 4095) / BLOCK_SIZE
}
