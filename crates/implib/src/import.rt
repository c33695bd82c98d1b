//! The short import of a row (PE Format, "Import Header", "Import Type" and "Import Name Type").

ghost use Rattle.std.specs.Prelude.{◌≡◌, ◌≤◌, ◌+◌, ◌++◌, length, OnOk};
ghost use Rattle.implib.specs.RowMember as spec;
ghost use Rattle.implib.specs.Rows.{DLL_LIMIT};
ghost use Rattle.link_base.specs.Limits.{NAME_LIMIT};

use crate::constants::{
    IMPORT_CODE, IMPORT_CONST, IMPORT_DATA, IMPORT_NAME, IMPORT_ORDINAL, IMPORT_SIG1, IMPORT_SIG2,
    SIZEOF_IMPORT_HEADER,
};
use crate::row::LibraryRow;
use crate::texts::push_text;
use link_base::pe_format::FILE_MACHINE_AMD64;
use link_base::{LeNumber, Memory, Name, push_fields};
use short_import::{ImportBy, ImportKind};

/// The size of the texts of a short import: a symbol and the name of a DLL, each with its NUL.
fn texts_size(row: &LibraryRow<'_>, dll: &Name<'_>) -> usize
    requires symbol { length row.now.symbol ≤ NAME_LIMIT }
    requires dll { length dll.now ≤ DLL_LIMIT }
    ensures size { result ≡ spec.text_size row.now.symbol + spec.text_size dll.now }
    ensures small { result ≤ 64006 }
{
    row.symbol.len() + 1 + dll.len() + 1
}

/// The size of the short import of a row.
pub(crate) fn import_size(row: &LibraryRow<'_>, dll: &Name<'_>) -> usize
    requires symbol { length row.now.symbol ≤ NAME_LIMIT }
    requires dll { length dll.now ≤ DLL_LIMIT }
    ensures size { result ≡ spec.import_size dll.now row.now }
    ensures small { result ≤ 64026 }
{
    SIZEOF_IMPORT_HEADER + texts_size(row, dll)
}

fn kind_number(kind: ImportKind) -> u16
    ensures number { result ≡ spec.kind_number kind }
    ensures small { result ≤ 2 }
{
    match kind {
        ImportKind::Code => IMPORT_CODE,
        ImportKind::Data => IMPORT_DATA,
        ImportKind::Const => IMPORT_CONST,
    }
}

fn name_type(by: &ImportBy<'_>) -> u16
    ensures number { result ≡ spec.name_type by.now }
    ensures small { result ≤ 1 }
{
    match by {
        ImportBy::Ordinal(_) => IMPORT_ORDINAL,
        ImportBy::Named { .. } => IMPORT_NAME,
    }
}

fn ordinal_or_hint(by: &ImportBy<'_>) -> u16
    ensures { result ≡ spec.ordinal_or_hint by.now }
{
    match by {
        ImportBy::Ordinal(ordinal) => *ordinal,
        ImportBy::Named { hint, .. } => *hint,
    }
}

/// Appends the short import of a row: its header, the symbol, and the name of the DLL.
#[tactic(auto, unfolding(crate::specs::RowMember::import_of))]
pub(crate) fn push_import(
    out: &mut Vec<u8>,
    row: &LibraryRow<'_>,
    dll: &Name<'_>,
    time: u32,
) -> Result<(), Memory>
    requires symbol { length row.now.symbol ≤ NAME_LIMIT }
    requires dll { length dll.now ≤ DLL_LIMIT }
    ensures { OnOk result (out.new.items ≡ out.old.items ++ spec.import_of dll.now time row.now) }
{
    push_fields(
        out,
        &[
            LeNumber::U16(IMPORT_SIG1),
            LeNumber::U16(IMPORT_SIG2),
            LeNumber::U16(0),
            LeNumber::U16(FILE_MACHINE_AMD64),
            LeNumber::U32(time),
            LeNumber::U32(texts_size(row, dll) as u32),
            LeNumber::U16(ordinal_or_hint(&row.by)),
            LeNumber::U16(kind_number(row.kind) + 4 * name_type(&row.by)),
        ],
    )?;
    push_text(out, &row.symbol)?;
    push_text(out, dll)
}
