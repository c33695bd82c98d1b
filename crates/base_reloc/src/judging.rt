//! Where a table is malformed.

ghost use Rattle.std.specs.Prelude.{◌≡◌, ◌≤◌, ◌<◌, ◌+◌, ◌^◌, true, length};
ghost use Rattle.base_reloc.specs.Blocks.{has_block, block_entries, walk_of, malformed_place};

use crate::entry::{Entry, entry_of, has_block, page_in, size_in};
use crate::format::BLOCK_HEADER_LEN;
use link_base::u16_in;

/// The offset of the first malformed block or entry, of a mapped image of so many bytes.
pub(crate) fn first_malformed(memory_len: usize, blocks: &[u8]) -> Option<u32>
    requires memory { memory_len < 2 ^ 32 }
    requires blocks { length blocks.now < 2 ^ 32 }
    ensures { result ≡ malformed_place (walk_of memory_len blocks.now) }
{
    let mut at = 0;
    while at < blocks.len() {
        if !has_block(blocks, at) {
            return Some(at as u32);
        }
        let entry = first_malformed_entry(memory_len, blocks, at);
        if entry.is_some() {
            return entry;
        }
        at += size_in(blocks, at);
    }
    None
}

/// The offset of the first malformed entry of the block at `at`.
fn first_malformed_entry(memory_len: usize, blocks: &[u8], at: usize) -> Option<u32>
    requires memory { memory_len < 2 ^ 32 }
    requires blocks { length blocks.now < 2 ^ 32 }
    requires block { has_block blocks.now at ≡ true }
    ensures { result ≡ malformed_place (block_entries memory_len blocks.now at) }
{
    let page = page_in(blocks, at);
    let count = (size_in(blocks, at) - BLOCK_HEADER_LEN) / 2;
    for index in 0..count {
        let place = at + BLOCK_HEADER_LEN + 2 * index;
        if let Entry::Malformed = entry_of(memory_len, page, u16_in(blocks, place)) {
            return Some(place as u32);
        }
    }
    None
}
