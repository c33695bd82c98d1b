//! Exports as rows of the export table.

ghost use Rattle.std.specs.Prelude.{◌≡◌, map, IfOk};
ghost use Rattle.symbol_names.specs.Exports.{forwarder};
ghost use Rattle.link_exports.specs.Exports.{export_to, table_row, unplaced_row, dll_name};

use directives::Export;
use export_tables::{ExportRow, ExportTo};
use link_base::Memory;
use memchr::memrchr2;
use std::alloc::Global;
use symbol_names::forwarder;

/// An export as a row of the table, where it stands for what has this RVA. That of a forwarder is not looked at.
pub fn table_row<'a>(row: &Export<'a>, rva: u32) -> ExportRow<'a>
    ensures { result ≡ table_row row.now rva }
{
    ExportRow {
        name: row.name.again(),
        ordinal: row.ordinal,
        noname: row.noname,
        what: export_to(row, rva),
    }
}

/// What an export stands for.
fn export_to<'a>(row: &Export<'a>, rva: u32) -> ExportTo<'a>
    ensures { result ≡ export_to (forwarder row.now) rva }
{
    match forwarder(row) {
        Some(text) => ExportTo::Forward(text),
        None => ExportTo::Rva(rva),
    }
}

/// Exports as rows without places.
pub(crate) fn unplaced_rows<'a>(
    alloc: Global,
    rows: &[Export<'a>],
) -> Result<Vec<ExportRow<'a>>, Memory>
    ensures { IfOk result (λ unplaced. unplaced.items ≡ map unplaced_row rows.now) }
{
    let mut unplaced = Vec::with_capacity(alloc, rows.len())?;
    for row in rows {
        unplaced.push(table_row(row, 0))?;
    }
    Ok(unplaced)
}

/// The name of an image as a DLL: that of its file, behind the last slash.
pub(crate) fn dll_name(out: &[u8]) -> &[u8]
    ensures { result.now ≡ dll_name out.now }
{
    match memrchr2(b'/', b'\\', out) {
        Some(slash) => {
            let (_, name) = out.split_at(slash + 1);
            name
        }
        None => out,
    }
}
