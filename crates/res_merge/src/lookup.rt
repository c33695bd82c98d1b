//! A resource in the resource tree of a mapped image.

ghost use Rattle.std.specs.Prelude.{◌≡◌, ◌≤◌, ◌<◌, ◌+◌, ◌*◌, ◌-◌, ◌/◌, ◌^◌, length, option_map, IfSome};
ghost use Rattle.res_merge.specs.Entries.{key_of, Number};
ghost use Rattle.res_merge.specs.Lookup.{row_at, row_count, rows_at, is_text_at, is_named, first_named, table_target, table_step, leaf_step, leaf_data, place_in, resource_place};

use crate::rows::{HIGH_BIT, LEAF_SIZE, Row};
use link_base::{ResName, slice_in, u16_in, u32_in};

const TABLE_SIZE: usize = 16;

const ROW_SIZE: usize = 8;

/// The RVA and the size of the data of a resource in a mapped image, whose tree stands in `size` bytes from `rva` on:
/// three steps from the root, each by the first entry of the table that has the wanted number or text. There is none
/// where a step finds no such entry, or leads to a leaf in place of a table or to a table in place of a leaf, or leaves the
/// range, and where the data leave it. An entry whose text leaves the range has not the wanted one (PE Format, "The .rsrc
/// Section").
pub fn find_resource(
    memory: &[u8],
    rva: u32,
    size: u32,
    kind: ResName<'_>,
    name: ResName<'_>,
    language: u16,
) -> Option<(u32, u32)>
    requires { rva + size ≤ length memory.now }
    ensures { result ≡ resource_place memory.now rva size (key_of kind.entry) (key_of name.entry) language }
{
    let part = slice_in(memory, rva as usize, size as usize);
    place_in(part, rva, kind, name, language)
}

/// The same in the bytes of the range.
#[tactic(auto, unfolding(crate::specs::Lookup::place_in))]
fn place_in(
    part: &[u8],
    rva: u32,
    kind: ResName<'_>,
    name: ResName<'_>,
    language: u16,
) -> Option<(u32, u32)>
    requires { length part.now < 2 ^ 32 }
    ensures { result ≡ place_in part.now rva (key_of kind.entry) (key_of name.entry) language }
{
    let names = table_step(part, kind, 0)?;
    let languages = table_step(part, name, names)?;
    let leaf = leaf_step(part, ResName::Number(language), languages)?;
    leaf_data(part, rva, leaf)
}

/// Where a table's entry of a key leads, which is a table.
#[tactic(auto, unfolding(crate::specs::Lookup::table_step))]
fn table_step(part: &[u8], key: ResName<'_>, table: u32) -> Option<u32>
    requires { length part.now < 2 ^ 32 }
    ensures { result ≡ table_step part.now (key_of key.entry) table }
{
    let target = first_named(part, key, table)?;
    if target < HIGH_BIT {
        return None;
    }
    Some(target - HIGH_BIT)
}

/// Where a table's entry of a key leads, which is a leaf in the range.
#[tactic(auto, unfolding(crate::specs::Lookup::leaf_step))]
fn leaf_step(part: &[u8], key: ResName<'_>, table: u32) -> Option<u32>
    requires { length part.now < 2 ^ 32 }
    ensures step { result ≡ leaf_step part.now (key_of key.entry) table }
    ensures there { IfSome result (λ leaf. leaf + 16 ≤ length part.now) }
{
    let target = first_named(part, key, table)?;
    if target >= HIGH_BIT || target as usize + LEAF_SIZE > part.len() {
        return None;
    }
    Some(target)
}

/// The RVA and the size that a leaf gives, where these bytes lie in the range.
#[tactic(auto, unfolding(crate::specs::Lookup::leaf_data))]
fn leaf_data(part: &[u8], rva: u32, leaf: u32) -> Option<(u32, u32)>
    requires small { length part.now < 2 ^ 32 }
    requires there { leaf + 16 ≤ length part.now }
    ensures { result ≡ leaf_data part.now rva leaf }
{
    let place = u32_in(part, leaf as usize);
    let size = u32_in(part, leaf as usize + 4);
    if place < rva || place as usize + size as usize > rva as usize + part.len() {
        return None;
    }
    Some((place, size))
}

/// Where the first entry of a table leads that has a key.
fn first_named(part: &[u8], key: ResName<'_>, table: u32) -> Option<u32>
    requires { length part.now < 2 ^ 32 }
    ensures { result ≡ first_named part.now (key_of key.entry) (rows_at part.now table) }
{
    let table = table as usize;
    let count = row_count(part, table);
    for index in 0..count {
        let row = row_at(part, table, index);
        if is_named(part, key, row.id) {
            return Some(row.target);
        }
    }
    None
}

/// How many entries of a table lie in the range.
#[tactic(auto, unfolding(crate::specs::Lookup::row_count))]
fn row_count(part: &[u8], table: usize) -> usize
    requires { table < 2 ^ 32 }
    ensures count { result ≡ row_count part.now table }
    ensures there { result ≤ (length part.now - (table + 16)) / 8 }
{
    if part.len() < table + TABLE_SIZE {
        return 0;
    }
    let counted = u16_in(part, table + 12) as usize + u16_in(part, table + 14) as usize;
    counted.min((part.len() - (table + TABLE_SIZE)) / ROW_SIZE)
}

/// An entry of a table.
fn row_at(part: &[u8], table: usize, index: usize) -> Row
    requires { table + 16 + 8 * index + 8 ≤ length part.now }
    ensures { result ≡ row_at part.now table index }
{
    let place = table + TABLE_SIZE + ROW_SIZE * index;
    Row {
        id: u32_in(part, place),
        target: u32_in(part, place + 4),
    }
}

/// Whether an entry has a number or a text.
#[tactic(auto, unfolding(crate::specs::Lookup::is_named))]
fn is_named(part: &[u8], key: ResName<'_>, id: u32) -> bool
    requires { length part.now < 2 ^ 32 }
    ensures { result ≡ is_named part.now (key_of key.entry) id }
{
    match key {
        ResName::Number(number) => id == u32::from(number),
        ResName::Text(units) => id >= HIGH_BIT && is_text_at(part, (id - HIGH_BIT) as usize, units),
    }
}

/// Whether the text at an offset is this one.
fn is_text_at(part: &[u8], offset: usize, units: &[u8]) -> bool
    requires { offset < 2 ^ 32 }
    ensures { result ≡ is_text_at part.now offset units.now }
{
    if offset > part.len() || part.len() - offset < 2 || part.len() - offset - 2 < units.len() {
        return false;
    }
    2 * usize::from(u16_in(part, offset)) == units.len()
        && slice_in(part, offset + 2, units.len()) == units
}
