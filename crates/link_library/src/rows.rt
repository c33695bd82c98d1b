//! The rows of the import library of a link.

ghost use Rattle.std.specs.Prelude.{◌≡◌, ◌<◌, None, length, IfOk};
ghost use Rattle.export_tables.specs.Hints.{hints_of};
ghost use Rattle.export_tables.specs.Ordinals.{ordinal_fault};
ghost use Rattle.implib.specs.Rows.{AreRows};
ghost use Rattle.link_exports.specs.Exports.{AreTold};
ghost use Rattle.link_library.specs.LinkLibrary.{kind_of, by_of, library_row, row_of, library_rows};

use directives::{Export, ExportForm};
use export_tables::{hints, name_order};
use implib::LibraryRow;
use link_base::Memory;
use link_exports::LinkExports;
use short_import::{ImportBy, ImportKind};
use std::alloc::Global;

/// The exports that are not private, by the bytes of their names, each with how the loader finds it.
#[tactic(auto, unfolding(crate::specs::LinkLibrary::library_rows))]
pub(crate) fn library_rows<'a>(
    alloc: Global,
    exports: &LinkExports<'a>,
) -> Result<Vec<LibraryRow<'a>>, Memory>
    requires told { AreTold exports.now }
    requires unrefused { exports.now.fault ≡ None }
    requires numbered { ordinal_fault exports.now.rows ≡ None }
    ensures rows { IfOk result (λ rows. rows.items ≡ library_rows exports.now) }
    ensures sound { IfOk result (λ rows. AreRows rows.items) }
{
    let order = name_order(alloc, exports.rows())?;
    let hints = hints(alloc, exports.rows())?;
    let mut rows = Vec::with_capacity(alloc, order.len())?;
    for index in &order {
        let index = usize::from(*index);
        if !exports.rows()[index].private {
            rows.push(row_of(exports, &hints, index))?;
        }
    }
    Ok(rows)
}

/// The row of the export of an index.
fn row_of<'a>(exports: &LinkExports<'a>, hints: &[u16], index: usize) -> LibraryRow<'a>
    requires there { index < length exports.now.rows }
    requires ordinals { length exports.now.ordinals ≡ length exports.now.rows }
    requires hints { hints.now ≡ hints_of exports.now.rows }
    ensures { result ≡ row_of exports.now index }
{
    library_row(
        &exports.rows()[index],
        exports.ordinals()[index],
        hints[index],
    )
}

/// The row of an export that has this ordinal and this hint.
fn library_row<'a>(row: &Export<'a>, ordinal: u16, hint: u16) -> LibraryRow<'a>
    ensures { result ≡ library_row row.now ordinal hint }
{
    LibraryRow {
        symbol: row.name.again(),
        kind: kind_of(row.form),
        by: by_of(row, ordinal, hint),
    }
}

/// What is imported of an export of a form.
fn kind_of(form: ExportForm) -> ImportKind
    ensures { result ≡ kind_of form }
{
    match form {
        ExportForm::Code => ImportKind::Code,
        ExportForm::Data => ImportKind::Data,
        ExportForm::Const => ImportKind::Const,
    }
}

/// How the loader finds an export: one that the table does not name, by its ordinal.
fn by_of<'a>(row: &Export<'a>, ordinal: u16, hint: u16) -> ImportBy<'a>
    ensures { result ≡ by_of row.now ordinal hint }
{
    if row.noname {
        return ImportBy::Ordinal(ordinal);
    }
    ImportBy::Named {
        hint,
        name: row.name.again(),
    }
}
