//! The fields of an export directory, and the addresses of its entries.

ghost use Rattle.std.specs.Prelude.{◌≡◌};
ghost use Rattle.export_tables.specs.ExportDirectory.{directory_in, is_forwarder, is_export, entry_address, ordinal_address, EndTexts};

use link_base::{field_u32, u32_in};

/// The bytes of a directory (PE Format, "Export Directory Table").
pub(crate) const SIZEOF_EXPORT_DIRECTORY: usize = 40;

/// A directory: where it stands, the least ordinal, the numbers of addresses and names, and the RVAs of the addresses, of the
/// RVAs of names, and of the indexes of their addresses.
#[derive(Clone, Copy)]
pub(crate) struct Directory {
    pub rva: u32,
    pub size: u32,
    pub ordinal_base: u32,
    pub address_count: u32,
    pub name_count: u32,
    pub address_table: u32,
    pub name_table: u32,
    pub ordinal_table: u32,
}

/// The directory at an RVA, where its size is not 0 and its fields lie in the memory.
#[tactic(auto, unfolding(crate::specs::ExportDirectory::directory_in))]
pub(crate) fn directory_in(memory: &[u8], rva: u32, size: u32) -> Option<Directory>
    ensures { result ≡ directory_in memory.now rva size }
{
    let at = rva as usize;
    if size == 0 || at + SIZEOF_EXPORT_DIRECTORY > memory.len() {
        return None;
    }
    Some(Directory {
        rva,
        size,
        ordinal_base: u32_in(memory, at + 16),
        address_count: u32_in(memory, at + 20),
        name_count: u32_in(memory, at + 24),
        address_table: u32_in(memory, at + 28),
        name_table: u32_in(memory, at + 32),
        ordinal_table: u32_in(memory, at + 36),
    })
}

/// Whether an address lies in the directory's range.
pub(crate) fn is_forwarder(directory: Directory, address: u32) -> bool
    ensures { result ≡ is_forwarder directory address }
{
    directory.rva <= address
        && (address as usize) < directory.rva as usize + directory.size as usize
}

/// Whether an address exports something, where the texts of the memory end that begin before `texts_end`.
#[tactic(auto, unfolding(crate::specs::ExportDirectory::is_export))]
fn is_export(memory: &[u8], directory: Directory, texts_end: usize, address: u32) -> bool
    requires { EndTexts memory.now texts_end }
    ensures { result ≡ is_export memory.now directory address }
{
    address != 0 && (!is_forwarder(directory, address) || (address as usize) < texts_end)
}

/// What the entry of an index exports, where it is there.
#[tactic(auto, unfolding(crate::specs::ExportDirectory::entry_address))]
pub(crate) fn entry_address(
    memory: &[u8],
    directory: Directory,
    texts_end: usize,
    index: u32,
) -> Option<u32>
    requires { EndTexts memory.now texts_end }
    ensures { result ≡ entry_address memory.now directory index }
{
    if index >= directory.address_count {
        return None;
    }
    let address = field_u32(
        memory,
        directory.address_table as usize + 4 * index as usize,
    )?;
    if !is_export(memory, directory, texts_end, address) {
        return None;
    }
    Some(address)
}

/// What the entry of an ordinal exports, where it is there.
#[tactic(auto, unfolding(crate::specs::ExportDirectory::ordinal_address))]
pub(crate) fn ordinal_address(
    memory: &[u8],
    directory: Directory,
    texts_end: usize,
    ordinal: u16,
) -> Option<u32>
    requires { EndTexts memory.now texts_end }
    ensures { result ≡ ordinal_address memory.now directory ordinal }
{
    let ordinal = u32::from(ordinal);
    if ordinal < directory.ordinal_base {
        return None;
    }
    entry_address(
        memory,
        directory,
        texts_end,
        ordinal - directory.ordinal_base,
    )
}
