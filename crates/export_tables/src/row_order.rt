//! The rows in the order of their names.

ghost use Rattle.std.specs.Prelude.{◌≡◌, ◌≤◌, length, map, IfOk};
ghost use Rattle.export_tables.specs.NameOrder.{row_entries, name_order};

use crate::names::{NameEntry, sort};
use directives::Export;
use link_base::Memory;
use std::alloc::Global;

/// The indexes of some exports, by the bytes of their names. Of those that have one name, which are refused, the lesser index
/// comes first.
pub fn name_order(alloc: Global, rows: &[Export<'_>]) -> Result<Vec<u16>, Memory>
    requires { length rows.now ≤ 65535 }
    ensures { IfOk result (λ order. order.items ≡ name_order rows.now) }
{
    let mut entries = row_entries(alloc, rows)?;
    sort(&mut entries);
    let order = indexes_of(alloc, &entries)?;
    Ok(order)
}

/// The name of each row, with its index.
fn row_entries<'a>(alloc: Global, rows: &[Export<'a>]) -> Result<Vec<NameEntry<'a>>, Memory>
    requires { length rows.now ≤ 65535 }
    ensures { IfOk result (λ entries. entries.items ≡ row_entries rows.now) }
{
    let mut entries = Vec::with_capacity(alloc, rows.len())?;
    for index in 0..rows.len() {
        entries.push(NameEntry {
            name: rows[index].name.again(),
            index: index as u16,
        })?;
    }
    Ok(entries)
}

/// The index of each entry.
fn indexes_of(alloc: Global, entries: &[NameEntry<'_>]) -> Result<Vec<u16>, Memory>
    ensures { IfOk result (λ indexes. indexes.items ≡ map (λ entry. entry.index) entries.now) }
{
    let mut indexes = Vec::with_capacity(alloc, entries.len())?;
    for entry in entries {
        indexes.push(entry.index)?;
    }
    Ok(indexes)
}
