//! The second linker member: the offset of each member's header, for each name the index of its member among them,
//! from 1, and the names, the numbers little-endian (PE Format, "Second Linker Member").

ghost use Rattle.std.specs.Prelude.{◌≡◌, ◌<◌, ◌≤◌, ◌+◌, ◌^◌, length, false};
ghost use Rattle.link_base.specs.Bytes.{all_below};
ghost use Rattle.lib_reader.specs.SecondDirectory.{member_count, name_count_place, second_count, member_index, second_offset, second_names_place, second_counts_leave, has_member, second_table_leaves};

use link_base::{u16_in, u32_in};

/// Where the count of names stands: behind the count of members and their offsets.
fn name_count_place(directory: &[u8]) -> usize
    requires { 4 ≤ length directory.now }
    ensures place { result ≡ name_count_place directory.now }
    ensures bound { result < 2 ^ 40 }
{
    4 + 4 * (u32_in(directory, 0) as usize)
}

/// How many names the directory counts.
pub(crate) fn second_count(directory: &[u8]) -> u32
    requires file { 4 ≤ length directory.now }
    requires count { name_count_place directory.now + 4 ≤ length directory.now }
    ensures { result ≡ second_count directory.now }
{
    u32_in(directory, name_count_place(directory))
}

/// Where the names begin.
pub(crate) fn second_names_place(directory: &[u8]) -> usize
    requires file { 4 ≤ length directory.now }
    requires count { name_count_place directory.now + 4 ≤ length directory.now }
    ensures { result ≡ second_names_place directory.now }
{
    name_count_place(directory) + 4 + 2 * (second_count(directory) as usize)
}

/// Whether a count, the offsets or the indices leave the member.
#[tactic(auto, unfolding(crate::specs::SecondDirectory::second_counts_leave))]
fn second_counts_leave(directory: &[u8]) -> bool
    ensures { result ≡ second_counts_leave directory.now }
{
    if directory.len() < 4 {
        return true;
    }
    directory.len() < name_count_place(directory) + 4
        || directory.len() < second_names_place(directory)
}

/// The index of a name's member, from 1.
#[tactic(auto, using(crate::proofs::TableLemmas::second_whole))]
fn member_index(directory: &[u8], index: u32) -> u16
    requires counts { second_counts_leave directory.now ≡ false }
    requires there { index < second_count directory.now }
    ensures { result ≡ member_index directory.now index }
{
    u16_in(
        directory,
        name_count_place(directory) + 4 + 2 * (index as usize),
    )
}

/// Whether the index of a name is one of the members'.
#[tactic(auto, using(crate::proofs::TableLemmas::second_whole), unfolding(crate::specs::SecondDirectory::has_member))]
fn has_member(directory: &[u8], index: u32) -> bool
    requires counts { second_counts_leave directory.now ≡ false }
    requires there { index < second_count directory.now }
    ensures { result ≡ has_member directory.now index }
{
    let member = member_index(directory, index);
    member > 0 && u32::from(member) <= u32_in(directory, 0)
}

/// Whether a name has no member, or the table leaves the member that it stands in.
#[tactic(auto, using(crate::proofs::TableLemmas::second_whole), unfolding(crate::specs::SecondDirectory::second_table_leaves))]
pub(crate) fn second_table_leaves(directory: &[u8]) -> bool
    ensures { result ≡ second_table_leaves directory.now }
{
    if second_counts_leave(directory) {
        return true;
    }
    for index in 0..second_count(directory) {
        if !has_member(directory, index) {
            return true;
        }
    }
    false
}

/// The offset of the header of a name's member.
#[tactic(auto, using(crate::proofs::TableLemmas::second_whole))]
pub(crate) fn second_offset(directory: &[u8], index: u32) -> u32
    requires table { second_table_leaves directory.now ≡ false }
    requires there { index < second_count directory.now }
    ensures { result ≡ second_offset directory.now index }
{
    let member = usize::from(member_index(directory, index));
    u32_in(directory, 4 + 4 * (member - 1))
}
