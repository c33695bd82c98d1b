//! The blocks and entries of a table, read at a byte offset.

ghost use Rattle.std.specs.Prelude.{◌≡◌, ◌≤◌, ◌<◌, ◌+◌, ◌^◌, ◌&&◌, nat_le, length};
ghost use Rattle.link_base.specs.Bytes.{u16_at, u32_at};
ghost use Rattle.base_reloc.specs.Blocks.{entry_of, is_block_size, has_block, block_page, block_size};

use crate::field::BaseField;
use crate::format::BLOCK_HEADER_LEN;
use link_base::pe_format::{PAGE_SIZE, REL_BASED_ABSOLUTE, REL_BASED_DIR64, REL_BASED_HIGHLOW};
use link_base::u32_in;

/// What an entry of a block says: nothing, a field to raise, or that the entry is malformed.
#[derive(Clone, Copy)]
pub(crate) enum Entry {
    Skip,
    Field(BaseField),
    Malformed,
}

/// The RVA of the page of the block at `at`.
pub(crate) fn page_in(blocks: &[u8], at: usize) -> u32
    requires { at + 8 ≤ length blocks.now }
    ensures { result ≡ block_page blocks.now at }
{
    u32_in(blocks, at)
}

/// The size of the block at `at`, with its header.
pub(crate) fn size_in(blocks: &[u8], at: usize) -> usize
    requires { at + 8 ≤ length blocks.now }
    ensures { result ≡ block_size blocks.now at }
{
    u32_in(blocks, at + 4) as usize
}

/// Whether a block has this size where so many bytes are left.
fn is_block_size(size: usize, left: usize) -> bool
    ensures { result ≡ is_block_size size left }
{
    size >= BLOCK_HEADER_LEN && size % 4 == 0 && size <= left
}

/// Whether a block stands at `at`.
pub(crate) fn has_block(blocks: &[u8], at: usize) -> bool
    requires { at ≤ length blocks.now }
    ensures { result ≡ has_block blocks.now at }
{
    let left = blocks.len() - at;
    left >= BLOCK_HEADER_LEN && is_block_size(size_in(blocks, at), left)
}

/// What an entry of a page's block says, of a mapped image of so many bytes.
pub(crate) fn entry_of(memory_len: usize, page: u32, word: u16) -> Entry
    requires { memory_len < 2 ^ 32 }
    ensures { result ≡ entry_of memory_len page word }
{
    let rva = page as usize + (word as usize) % PAGE_SIZE as usize;
    let kind = word / PAGE_SIZE as u16;
    if kind == REL_BASED_ABSOLUTE {
        Entry::Skip
    } else if kind == REL_BASED_HIGHLOW && rva + 4 <= memory_len {
        Entry::Field(BaseField {
            rva: rva as u32,
            wide: false,
        })
    } else if kind == REL_BASED_DIR64 && rva + 8 <= memory_len {
        Entry::Field(BaseField {
            rva: rva as u32,
            wide: true,
        })
    } else {
        Entry::Malformed
    }
}
