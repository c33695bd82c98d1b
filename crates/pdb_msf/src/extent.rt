//! How many blocks a file takes.

ghost use Rattle.std.specs.Prelude.{◌≡◌, ◌<◌, ◌≤◌, ◌*◌, ◌^◌, length};
ghost use Rattle.pdb_msf.specs.WrittenFile.{block_number, stream_total, directory_extent, directory_total, block_total};

use crate::format::{DATA_BLOCKS, blocks_for};

/// The block in which the n-th block of data stands.
pub(crate) fn block_number(n: usize) -> usize
    requires { n < 2 ^ 48 }
    ensures { result ≡ block_number n }
{
    n + 2 * ((n + 4093) / DATA_BLOCKS)
}

/// The blocks and bytes of a file's parts.
#[derive(Clone, Copy)]
pub(crate) struct Extent {
    /// The blocks of the streams.
    pub streams: usize,
    /// The bytes of the directory.
    pub directory_len: usize,
    /// The blocks of the directory.
    pub directory: usize,
    /// All blocks.
    pub total: usize,
}

impl Extent {
    pub(crate) fn of(lengths: &[u32]) -> Extent
        requires { length lengths.now ≤ 64 }
        ensures streams { result.streams ≡ stream_total lengths.now }
        ensures directory_len { result.directory_len ≡ directory_extent lengths.now }
        ensures directory { result.directory ≡ directory_total lengths.now }
        ensures total { result.total ≡ block_total lengths.now }
        ensures small { result.total < 2 ^ 32 }
    {
        let streams = stream_total(lengths);
        let directory_len = 4 * (1 + lengths.len() + streams);
        let directory = blocks_for(directory_len);
        let total = block_number(1 + directory + streams) + 1;
        Extent {
            streams,
            directory_len,
            directory,
            total,
        }
    }
}

/// The blocks of the streams.
#[tactic(auto, unfolding(crate::specs::WrittenFile::stream_total))]
fn stream_total(lengths: &[u32]) -> usize
    requires { length lengths.now ≤ 64 }
    ensures sum { result ≡ stream_total lengths.now }
    ensures most { result ≤ 1048576 * length lengths.now }
{
    let mut blocks = 0;
    for len in lengths {
        blocks += blocks_for(*len as usize);
    }
    blocks
}
