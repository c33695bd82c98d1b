//! How many bytes an export directory has, with its tables and texts.

ghost use Rattle.std.specs.Prelude.{◌≡◌, ◌≤◌, ◌<◌, ◌+◌, ◌*◌, ◌^◌, length, All};
ghost use Rattle.std.specs.List.{sum_by};
ghost use Rattle.link_base.specs.Limits.{NAME_LIMIT};
ghost use Rattle.export_tables.specs.ExportTable.{AreNumbered, DLL_LIMIT, forwarder_size, forward_len, target_size, name_size, row_size, rows_size, table_size};

use crate::directory::SIZEOF_EXPORT_DIRECTORY;
use crate::names::NameEntry;
use crate::row::{ExportRow, ExportTo};
use crate::targets::address_count;
use link_base::Name;

/// The number of bytes of the export directory of some rows, with its tables and texts: of what `fill` gives.
///
/// The ordinals are those of the rows, as `assign` gives them: one for each, and no two the same. There are at most 65,535
/// rows; no name and no forwarder has more than 32,000 bytes, and that of the DLL at most 32,004.
pub fn length(rows: &[ExportRow<'_>], ordinals: &[u16], dll: Name<'_>) -> u32
    requires rows { AreNumbered rows.now ordinals.now }
    requires dll { length dll ≤ DLL_LIMIT }
    ensures { result ≡ table_size rows.now ordinals.now dll.entry }
{
    table_size(rows, ordinals, &dll)
}

/// The same, of a name that is borrowed.
#[tactic(auto, unfolding(crate::specs::ExportTable::table_size))]
pub(crate) fn table_size(rows: &[ExportRow<'_>], ordinals: &[u16], dll: &Name<'_>) -> u32
    requires rows { AreNumbered rows.now ordinals.now }
    requires dll { length dll.now ≤ DLL_LIMIT }
    ensures { result ≡ table_size rows.now ordinals.now dll.now }
{
    let size = SIZEOF_EXPORT_DIRECTORY
        + 4 * address_count(ordinals)
        + rows_size(rows)
        + (dll.len() + 1);
    size as u32
}

/// The bytes of what rows have of their own: names with their entries in the tables, and forwarders.
fn rows_size(rows: &[ExportRow<'_>]) -> usize
    requires few { length rows.now ≤ 65535 }
    requires names { All (λ row. length row.name ≤ NAME_LIMIT) rows.now }
    requires forwarders { All (λ row. forward_len row.what ≤ NAME_LIMIT) rows.now }
    ensures size { result ≡ rows_size rows.now }
    ensures bound { result ≤ 64008 * length rows.now }
{
    let mut size = 0;
    for index in 0..rows.len() {
        size += row_size(&rows[index]);
    }
    size
}

/// Those of a row.
fn row_size(row: &ExportRow<'_>) -> usize
    requires name { length row.now.name ≤ NAME_LIMIT }
    requires forwarder { forward_len row.now.what ≤ NAME_LIMIT }
    ensures size { result ≡ row_size row.now }
    ensures bound { result ≤ 64008 }
{
    let name = if row.noname {
        0
    } else {
        6 + (row.name.len() + 1)
    };
    name + forwarder_size(&row.what)
}

/// The bytes of a forwarder's text with its NUL.
fn forwarder_size(what: &ExportTo<'_>) -> usize
    requires { forwarder_size what.now < 2 ^ 32 }
    ensures { result ≡ forwarder_size what.now }
{
    match what {
        ExportTo::Rva(_) => 0,
        ExportTo::Forward(text) => text.len() + 1,
    }
}

/// That of what a number exports.
pub(crate) fn target_size(target: &Option<ExportTo<'_>>) -> usize
    requires { target_size target.now < 2 ^ 32 }
    ensures { result ≡ target_size target.now }
{
    match target {
        None => 0,
        Some(what) => forwarder_size(what),
    }
}

/// The bytes of a name with its NUL.
pub(crate) fn name_size(entry: &NameEntry<'_>) -> usize
    requires { name_size entry.now < 2 ^ 32 }
    ensures { result ≡ name_size entry.now }
{
    entry.name.len() + 1
}

/// Those of all names.
pub(crate) fn names_size(names: &[NameEntry<'_>]) -> usize
    requires { sum_by name_size names.now < 2 ^ 32 }
    ensures { result ≡ sum_by name_size names.now }
{
    let mut size = 0;
    for index in 0..names.len() {
        size += name_size(&names[index]);
    }
    size
}
