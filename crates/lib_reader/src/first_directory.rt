//! The first linker member: how many names, the offset of each one's member, and the names, the numbers big-endian
//! (PE Format, "First Linker Member").

ghost use Rattle.std.specs.Prelude.{◌≡◌, ◌<◌, ◌≤◌, ◌+◌, length, false};
ghost use Rattle.lib_reader.specs.FirstDirectory.{big_u32_at, first_count, first_offset, first_names_place, first_table_leaves};

use byteorder::{BigEndian, ByteOrder};

/// The big-endian number in the four bytes at `at`.
#[tactic(auto, unfolding(crate::specs::FirstDirectory::big_u32_at))]
fn big_u32_in(bytes: &[u8], at: usize) -> u32
    requires { at + 4 ≤ length bytes.now }
    ensures { result ≡ big_u32_at bytes.now at }
{
    let (_, rest) = bytes.split_at(at);
    BigEndian::read_u32(rest)
}

/// How many names the directory counts.
pub(crate) fn first_count(directory: &[u8]) -> u32
    requires { 4 ≤ length directory.now }
    ensures { result ≡ first_count directory.now }
{
    big_u32_in(directory, 0)
}

/// Where the names begin.
pub(crate) fn first_names_place(directory: &[u8]) -> usize
    requires { 4 ≤ length directory.now }
    ensures { result ≡ first_names_place directory.now }
{
    4 + 4 * (first_count(directory) as usize)
}

/// Whether the count or the offsets leave the member.
#[tactic(auto, unfolding(crate::specs::FirstDirectory::first_table_leaves))]
pub(crate) fn first_table_leaves(directory: &[u8]) -> bool
    ensures leaves { result ≡ first_table_leaves directory.now }
{
    directory.len() < 4 || directory.len() < first_names_place(directory)
}

/// The offset of the header of a name's member.
#[tactic(auto, using(crate::proofs::TableLemmas::first_whole))]
pub(crate) fn first_offset(directory: &[u8], index: u32) -> u32
    requires table { first_table_leaves directory.now ≡ false }
    requires there { index < first_count directory.now }
    ensures { result ≡ first_offset directory.now index }
{
    big_u32_in(directory, 4 + 4 * (index as usize))
}
