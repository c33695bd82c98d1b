//! An export directory and its tables: the addresses, the RVAs of names, and the indexes of their addresses.

ghost use Rattle.std.specs.Prelude.{◌≡◌, ◌<◌, ◌+◌, ◌^◌, ◌++◌, length, OnOk};
ghost use Rattle.std.specs.List.{sum_by, flat_map};
ghost use Rattle.link_base.specs.Bytes.{number_bytes};
ghost use Rattle.link_base.specs.Fields.{fields};
ghost use Rattle.export_tables.specs.ExportTable.{name_size, target_size, tables_end, directory_fields, target_address, addresses, name_rvas, index_bytes, tables_bytes};

use crate::directory::Directory;
use crate::names::NameEntry;
use crate::row::ExportTo;
use crate::sizes::{name_size, target_size};
use link_base::{LeNumber, Memory, push_fields};

/// Appends the directory of a time and its tables, where the names and the forwarders begin at these RVAs.
pub(crate) fn push_tables(
    table: &mut Vec<u8>,
    time: u32,
    directory: Directory,
    names_rva: usize,
    forwarders_rva: usize,
    targets: &[Option<ExportTo<'_>>],
    names: &[NameEntry<'_>],
) -> Result<(), Memory>
    requires directory { tables_end directory < 2 ^ 32 }
    requires names { names_rva + sum_by name_size names.now < 2 ^ 32 }
    requires forwarders { forwarders_rva + sum_by target_size targets.now < 2 ^ 32 }
    ensures { OnOk result (table.new.items ≡ table.old.items ++ tables_bytes time directory names_rva forwarders_rva targets.now names.now) }
{
    push_directory(table, time, directory)?;
    push_addresses(table, forwarders_rva, targets)?;
    push_name_rvas(table, names_rva, names)?;
    push_indexes(table, names)
}

/// Appends the directory's fields.
fn push_directory(table: &mut Vec<u8>, time: u32, directory: Directory) -> Result<(), Memory>
    requires { tables_end directory < 2 ^ 32 }
    ensures { OnOk result (table.new.items ≡ table.old.items ++ fields (directory_fields time directory)) }
{
    push_fields(
        table,
        &[
            LeNumber::U32(0),
            LeNumber::U32(time),
            LeNumber::U16(0),
            LeNumber::U16(0),
            LeNumber::U32(directory.ordinal_table + 2 * directory.name_count),
            LeNumber::U32(directory.ordinal_base),
            LeNumber::U32(directory.address_count),
            LeNumber::U32(directory.name_count),
            LeNumber::U32(directory.address_table),
            LeNumber::U32(directory.name_table),
            LeNumber::U32(directory.ordinal_table),
        ],
    )
}

/// Appends the address of each number, where the forwarders begin at an RVA.
fn push_addresses(
    table: &mut Vec<u8>,
    start: usize,
    targets: &[Option<ExportTo<'_>>],
) -> Result<(), Memory>
    requires { start + sum_by target_size targets.now < 2 ^ 32 }
    ensures { OnOk result (table.new.items ≡ table.old.items ++ addresses start targets.now (length targets.now)) }
{
    let mut text_rva = start;
    for index in 0..targets.len() {
        push_number(table, target_address(&targets[index], text_rva as u32))?;
        text_rva += target_size(&targets[index]);
    }
    Ok(())
}

/// What stands in the address table: the RVA of what is exported, or that of a forwarder's text, or 0 for nothing.
fn target_address(target: &Option<ExportTo<'_>>, text_rva: u32) -> u32
    ensures { result ≡ target_address target.now text_rva }
{
    match target {
        None => 0,
        Some(ExportTo::Rva(rva)) => *rva,
        Some(ExportTo::Forward(_)) => text_rva,
    }
}

/// Appends the RVA of each name, where they begin at an RVA.
fn push_name_rvas(table: &mut Vec<u8>, start: usize, names: &[NameEntry<'_>]) -> Result<(), Memory>
    requires { start + sum_by name_size names.now < 2 ^ 32 }
    ensures { OnOk result (table.new.items ≡ table.old.items ++ name_rvas start names.now (length names.now)) }
{
    let mut text_rva = start;
    for index in 0..names.len() {
        push_number(table, text_rva as u32)?;
        text_rva += name_size(&names[index]);
    }
    Ok(())
}

/// Appends the index of each name's address.
fn push_indexes(table: &mut Vec<u8>, names: &[NameEntry<'_>]) -> Result<(), Memory>
    ensures { OnOk result (table.new.items ≡ table.old.items ++ flat_map index_bytes names.now) }
{
    for entry in names {
        push_index(table, entry.index)?;
    }
    Ok(())
}

/// Appends a number of four bytes.
#[tactic(auto, unfolding(link_base::specs::Bytes::number_bytes))]
fn push_number(table: &mut Vec<u8>, number: u32) -> Result<(), Memory>
    ensures { OnOk result (table.new.items ≡ table.old.items ++ number_bytes 4 number) }
{
    table.extend_from_slice(&number.to_le_bytes())?;
    Ok(())
}

/// Appends a number of two bytes.
#[tactic(auto, unfolding(link_base::specs::Bytes::number_bytes))]
fn push_index(table: &mut Vec<u8>, index: u16) -> Result<(), Memory>
    ensures { OnOk result (table.new.items ≡ table.old.items ++ number_bytes 2 index) }
{
    table.extend_from_slice(&index.to_le_bytes())?;
    Ok(())
}
