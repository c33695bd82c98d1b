//! What a mapped image exports by a name or an ordinal.

ghost use Rattle.std.specs.Prelude.{◌≡◌, ◌<◌, ◌^◌};
ghost use Rattle.export_tables.specs.ExportDirectory.{is_named, named_address, name_address, found, export_of_ordinal, export_of_name, EndTexts};

use crate::directory::{Directory, directory_in, entry_address, is_forwarder, ordinal_address};
use crate::exported::Exported;
use crate::texts::{is_text_at, texts_end};
use link_base::{Name, cstr, field_u16, field_u32};

/// What a mapped image exports by an ordinal, where its export directory has this RVA and size. The memory may be any: an
/// entry that leaves it is not there, and neither is one whose address is 0.
#[tactic(auto, unfolding(crate::specs::ExportDirectory::export_of_ordinal))]
pub fn by_ordinal<'m>(memory: &'m [u8], rva: u32, size: u32, ordinal: u16) -> Exported<'m>
    ensures { result ≡ export_of_ordinal memory.now rva size ordinal }
{
    let Some(directory) = directory_in(memory, rva, size) else {
        return Exported::Missing;
    };
    let address = ordinal_address(memory, directory, texts_end(memory), ordinal);
    found(memory, directory, address)
}

/// The same by a name. Of several entries of the name the first that is there counts; the names are gone through in their
/// order, and need not ascend.
#[tactic(auto, unfolding(crate::specs::ExportDirectory::export_of_name))]
pub fn by_name<'m>(memory: &'m [u8], rva: u32, size: u32, name: Name<'_>) -> Exported<'m>
    ensures { result ≡ export_of_name memory.now rva size name.entry }
{
    let Some(directory) = directory_in(memory, rva, size) else {
        return Exported::Missing;
    };
    let address = name_address(memory, directory, texts_end(memory), &name);
    found(memory, directory, address)
}

/// What an address says in a directory.
fn found<'m>(memory: &'m [u8], directory: Directory, address: Option<u32>) -> Exported<'m>
    ensures { result ≡ found memory.now directory address }
{
    let Some(address) = address else {
        return Exported::Missing;
    };
    if !is_forwarder(directory, address) {
        return Exported::Address(address);
    }
    match cstr(memory, address as usize) {
        Some(text) => Exported::Forward(text),
        None => Exported::Missing,
    }
}

/// What the first entry of a name exports that is there.
fn name_address(
    memory: &[u8],
    directory: Directory,
    texts_end: usize,
    name: &Name<'_>,
) -> Option<u32>
    requires { EndTexts memory.now texts_end }
    ensures { result ≡ name_address memory.now directory name.now }
{
    for index in 0..directory.name_count as usize {
        if directory.name_table as usize + 4 * index + 4 > memory.len() {
            return None;
        }
        let address = named_address(memory, directory, texts_end, name, index);
        if address.is_some() {
            return address;
        }
    }
    None
}

/// What the entry of an index exports, where it has the name.
#[tactic(auto, unfolding(crate::specs::ExportDirectory::named_address))]
fn named_address(
    memory: &[u8],
    directory: Directory,
    texts_end: usize,
    name: &Name<'_>,
    index: usize,
) -> Option<u32>
    requires texts { EndTexts memory.now texts_end }
    requires index { index < 2 ^ 32 }
    ensures { result ≡ named_address memory.now directory name.now index }
{
    if !is_named(memory, directory, name, index) {
        return None;
    }
    let entry = field_u16(memory, directory.ordinal_table as usize + 2 * index)?;
    entry_address(memory, directory, texts_end, u32::from(entry))
}

/// Whether the entry of an index has the name.
#[tactic(auto, unfolding(crate::specs::ExportDirectory::is_named))]
fn is_named(memory: &[u8], directory: Directory, name: &Name<'_>, index: usize) -> bool
    requires { index < 2 ^ 32 }
    ensures { result ≡ is_named memory.now directory name.now index }
{
    match field_u32(memory, directory.name_table as usize + 4 * index) {
        Some(rva) => is_text_at(memory, rva, name),
        None => false,
    }
}
