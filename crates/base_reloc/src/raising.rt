//! Fields raised in a mapped image.

ghost use Rattle.std.specs.Prelude.{◌≡◌, ◌≤◌, ◌<◌, ◌+◌, ◌^◌, true, None, length};
ghost use Rattle.base_reloc.specs.Blocks.{width_of, entry_of, has_block, block_entries, walk_of, walked_fields, malformed_place, raised, entry_raised, raised_all};

use crate::entry::{Entry, entry_of, page_in, size_in};
use crate::field::BaseField;
use crate::format::BLOCK_HEADER_LEN;
use byteorder::{ByteOrder, LittleEndian};
use link_base::u16_in;

/// Raises each field that the blocks list, in order.
pub(crate) fn raise_listed(memory: &mut [u8], blocks: &[u8], delta: u64)
    requires memory { length memory.old < 2 ^ 32 }
    requires well_formed { malformed_place (walk_of (length memory.old) blocks.now) ≡ None }
    ensures { memory.new ≡ raised_all delta memory.old (walked_fields (walk_of (length memory.old) blocks.now)) }
{
    let mut at = 0;
    while at < blocks.len() {
        raise_block(memory, blocks, at, delta);
        at += size_in(blocks, at);
    }
}

/// Raises each field that the block at `at` lists.
fn raise_block(memory: &mut [u8], blocks: &[u8], at: usize, delta: u64)
    requires memory { length memory.old < 2 ^ 32 }
    requires block { has_block blocks.now at ≡ true }
    requires well_formed { malformed_place (block_entries (length memory.old) blocks.now at) ≡ None }
    ensures { memory.new ≡ raised_all delta memory.old (walked_fields (block_entries (length memory.old) blocks.now at)) }
{
    let page = page_in(blocks, at);
    let count = (size_in(blocks, at) - BLOCK_HEADER_LEN) / 2;
    for index in 0..count {
        let word = u16_in(blocks, at + BLOCK_HEADER_LEN + 2 * index);
        raise_entry(memory, page, word, delta);
    }
}

/// Raises the field that an entry of a page's block lists.
fn raise_entry(memory: &mut [u8], page: u32, word: u16, delta: u64)
    requires { length memory.old < 2 ^ 32 }
    ensures { memory.new ≡ entry_raised delta memory.old (entry_of (length memory.old) page word) }
{
    if let Entry::Field(field) = entry_of(memory.len(), page, word) {
        raise(memory, field, delta);
    }
}

/// Raises a field, modulo its width.
fn raise(memory: &mut [u8], field: BaseField, delta: u64)
    requires { field.rva + width_of field ≤ length memory.old }
    ensures { memory.new ≡ raised delta memory.old field }
{
    let (_, rest) = memory.split_at_mut(field.rva as usize);
    if field.wide {
        let value = LittleEndian::read_u64(rest);
        LittleEndian::write_u64(rest, value.wrapping_add(delta));
    } else {
        let value = LittleEndian::read_u32(rest);
        LittleEndian::write_u32(rest, value.wrapping_add((delta % (1 << 32)) as u32));
    }
}
