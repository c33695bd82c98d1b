//! The table of some fields.

ghost use Rattle.std.specs.Prelude.{◌≡◌, ◌≤◌, ◌<◌, ◌==◌, ◌++◌, map, length, IfOk, OnOk};
ghost use Rattle.std.specs.List.{flat_map, prefix_len};
ghost use Rattle.link_base.specs.Bytes.{number_bytes};
ghost use Rattle.base_reloc.specs.PageBlocks.{IsAscending, page_of, entry_word, filler_words, block_of, blocks_of};

use crate::field::BaseField;
use crate::format::BLOCK_HEADER_LEN;
use link_base::Memory;
use link_base::pe_format::{PAGE_SIZE, REL_BASED_ABSOLUTE, REL_BASED_DIR64, REL_BASED_HIGHLOW};
use std::alloc::Global;

/// The blocks that list the fields: one for each page that has a field, with its entries in the order of the fields, and
/// filled to a multiple of 4 bytes by an entry that lists none (PE Format, "The .reloc Section (Image Only)").
///
/// The fields are to ascend by their RVAs, with no RVA twice.
///
/// # Errors
///
/// `Memory` alone.
pub fn blocks(alloc: Global, fields: &[BaseField]) -> Result<Vec<u8>, Memory>
    requires { IsAscending fields.now }
    ensures { IfOk result (λ table. table.items ≡ blocks_of fields.now) }
{
    let mut table = Vec::with_capacity(alloc, 2 * fields.len())?;
    let mut rest = fields;
    while !rest.is_empty() {
        let (page, others) = rest.split_at(page_len(rest, page_of(rest[0])));
        push_block(&mut table, page)?;
        rest = others;
    }
    Ok(table)
}

/// The RVA of the page that the field begins in.
fn page_of(field: BaseField) -> u32
    ensures { result ≡ page_of field }
{
    field.rva - field.rva % PAGE_SIZE
}

/// The number of fields at the front that begin in the page.
fn page_len(fields: &[BaseField], page: u32) -> usize
    ensures { result ≡ prefix_len (λ field. page == page_of field) fields.now }
{
    fields
        .iter()
        .take_while(|field| page == page_of(**field))
        .count()
}

/// Appends the block of a page's fields.
fn push_block(table: &mut Vec<u8>, fields: &[BaseField]) -> Result<(), Memory>
    requires some { 0 < length fields.now }
    requires few { length fields.now ≤ 4096 }
    ensures { OnOk result (table.new.items ≡ table.old.items ++ block_of fields.now) }
{
    let count = fields.len() + fields.len() % 2;
    let size = BLOCK_HEADER_LEN + 2 * count;
    push_number(table, page_of(fields[0]))?;
    push_number(table, size as u32)?;
    push_entries(table, fields)?;
    push_filler(table, fields.len())
}

/// Appends an entry for each field.
fn push_entries(table: &mut Vec<u8>, fields: &[BaseField]) -> Result<(), Memory>
    ensures { OnOk result (table.new.items ≡ table.old.items ++ flat_map (number_bytes 2) (map entry_word fields.now)) }
{
    for field in fields {
        push_word(table, entry_word(*field))?;
    }
    Ok(())
}

/// Appends a number of four bytes.
#[tactic(auto, unfolding(link_base::specs::Bytes::number_bytes))]
fn push_number(table: &mut Vec<u8>, number: u32) -> Result<(), Memory>
    ensures { OnOk result (table.new.items ≡ table.old.items ++ number_bytes 4 number) }
{
    table.extend_from_slice(&number.to_le_bytes())?;
    Ok(())
}

/// Appends an entry, a number of two bytes.
#[tactic(auto, unfolding(link_base::specs::Bytes::number_bytes))]
fn push_word(table: &mut Vec<u8>, word: u16) -> Result<(), Memory>
    ensures { OnOk result (table.new.items ≡ table.old.items ++ number_bytes 2 word) }
{
    table.extend_from_slice(&word.to_le_bytes())?;
    Ok(())
}

/// The type in the upper four bits and the offset in the page.
fn entry_word(field: BaseField) -> u16
    ensures { result ≡ entry_word field }
{
    let kind = if field.wide {
        REL_BASED_DIR64
    } else {
        REL_BASED_HIGHLOW
    };
    kind * PAGE_SIZE as u16 + (field.rva % PAGE_SIZE) as u16
}

/// Appends the entry that fills a block with an odd number of entries.
fn push_filler(table: &mut Vec<u8>, count: usize) -> Result<(), Memory>
    ensures { OnOk result (table.new.items ≡ table.old.items ++ flat_map (number_bytes 2) (filler_words count)) }
{
    if count % 2 == 0 {
        return Ok(());
    }
    push_word(table, REL_BASED_ABSOLUTE * PAGE_SIZE as u16)
}
