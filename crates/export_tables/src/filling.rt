//! The bytes of an export directory with its tables and texts.

ghost use Rattle.std.specs.Prelude.{◌≡◌, ◌<◌, ◌≤◌, ◌+◌, ◌*◌, ◌^◌, ◌++◌, length, IfOk, OnOk};
ghost use Rattle.std.specs.List.{sum_by};
ghost use Rattle.export_tables.specs.ExportTable.{AreNumbered, DLL_LIMIT, address_count, directory_of, name_size, target_size, table_size, text_size, tables_end, table_by, export_table};

use crate::directory::{Directory, SIZEOF_EXPORT_DIRECTORY};
use crate::names::{NameEntry, names_of};
use crate::row::{ExportRow, ExportTo};
use crate::sizes::{names_size, table_size};
use crate::table_texts::push_texts;
use crate::tables::push_tables;
use crate::targets::{address_count, least, targets_of};
use link_base::{Memory, Name};
use std::alloc::Global;

/// The bytes of the export directory of some rows, as it stands at an RVA: the directory, the addresses by ordinal, the RVAs
/// of the names in the order of their bytes, the indexes of their addresses, and the texts: the DLL's name, the names and the
/// forwarders (PE Format, "The .edata Section (Image Only)"). There are `length` of them, and the last lies below 2^32. The
/// ordinal base is the least ordinal, and the address of a number that no row has is 0. The time stamp, the four bytes at 4,
/// is `time`, which is to be that of the image.
///
/// The rows, their ordinals and the name of the DLL are as `length` asks. For the table to be read back no name and no
/// forwarder holds a NUL, names differ, and no RVA of a row is 0 or that of one of these bytes, since such an address would be
/// that of a hole or of a forwarder (`filled_table_is_read_back`).
///
/// # Errors
///
/// `Memory` alone.
#[tactic(auto, unfolding(crate::specs::ExportTable::export_table))]
pub fn fill(
    alloc: Global,
    rows: &[ExportRow<'_>],
    ordinals: &[u16],
    dll: Name<'_>,
    time: u32,
    rva: u32,
) -> Result<Vec<u8>, Memory>
    requires rows { AreNumbered rows.now ordinals.now }
    requires dll { length dll ≤ DLL_LIMIT }
    requires fits { rva + table_size rows.now ordinals.now dll < 2 ^ 32 }
    ensures { IfOk result (λ table. table.items ≡ export_table rows.now ordinals.now dll.entry time rva) }
{
    let size = table_size(rows, ordinals, &dll);
    let names = names_of(alloc, rows, ordinals)?;
    let targets = targets_of(alloc, rows, ordinals)?;
    let directory = directory_of(ordinals, names.len(), rva, size);
    let mut table = Vec::with_capacity(alloc, size as usize)?;
    push_table(&mut table, time, directory, &dll, &targets, &names)?;
    Ok(table)
}

/// The directory of so many names that stands at an RVA, with its tables behind it.
fn directory_of(ordinals: &[u16], name_count: usize, rva: u32, size: u32) -> Directory
    requires { rva + 40 + 4 * address_count ordinals.now + 6 * name_count < 2 ^ 32 }
    ensures { result ≡ directory_of ordinals.now name_count rva size }
{
    let address_count = address_count(ordinals) as u32;
    let name_count = name_count as u32;
    let address_table = rva + SIZEOF_EXPORT_DIRECTORY as u32;
    let name_table = address_table + 4 * address_count;
    Directory {
        rva,
        size,
        ordinal_base: u32::from(least(ordinals)),
        address_count,
        name_count,
        address_table,
        name_table,
        ordinal_table: name_table + 4 * name_count,
    }
}

/// Appends the directory of a time, its tables and its texts.
fn push_table(
    table: &mut Vec<u8>,
    time: u32,
    directory: Directory,
    dll: &Name<'_>,
    targets: &[Option<ExportTo<'_>>],
    names: &[NameEntry<'_>],
) -> Result<(), Memory>
    requires { tables_end directory + text_size dll.now + sum_by name_size names.now + sum_by target_size targets.now < 2 ^ 32 }
    ensures { OnOk result (table.new.items ≡ table.old.items ++ table_by dll.now time directory targets.now names.now) }
{
    let tables_end = directory.ordinal_table as usize + 2 * directory.name_count as usize;
    let names_rva = tables_end + (dll.len() + 1);
    let forwarders_rva = names_rva + names_size(names);
    push_tables(
        table,
        time,
        directory,
        names_rva,
        forwarders_rva,
        targets,
        names,
    )?;
    push_texts(table, dll, targets, names)
}
