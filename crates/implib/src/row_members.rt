//! The members of rows, and the member of long names that they may refer to (PE Format, "Longnames Member").

ghost use Rattle.std.specs.Prelude.{◌≡◌, ◌≤◌, ◌++◌, length, All, IfOk, OnOk};
ghost use Rattle.link_base.specs.Limits.{NAME_LIMIT};
ghost use Rattle.implib.specs.Rows.{DLL_LIMIT};
ghost use Rattle.implib.specs.ArchiveMember.{member};
ghost use Rattle.implib.specs.RowMember.{member_name, import_of};
ghost use Rattle.implib.specs.ImportLibrary.{long_names, row_members};

use crate::constants::{ARCHIVE_LONGNAMES_MEMBER, FIRST_LONG_NAME, NAME_END, SHORT_NAME_LIMIT};
use crate::header::{push_header, push_line_end};
use crate::import::{import_size, push_import};
use crate::row::LibraryRow;
use crate::texts::push_text;
use link_base::{Memory, Name};
use std::alloc::Global;

/// Appends the member of long names, where the name of the DLL is one.
#[tactic(auto, unfolding(crate::specs::ArchiveMember::member))]
pub(crate) fn push_long_names(out: &mut Vec<u8>, dll: &Name<'_>, time: u32) -> Result<(), Memory>
    requires { length dll.now ≤ DLL_LIMIT }
    ensures { OnOk result (out.new.items ≡ out.old.items ++ long_names dll.now time) }
{
    if dll.len() <= SHORT_NAME_LIMIT {
        return Ok(());
    }
    let size = dll.len() + 1;
    push_header(out, ARCHIVE_LONGNAMES_MEMBER, time, size as u32)?;
    push_text(out, dll)?;
    push_line_end(out, size)?;
    Ok(())
}

/// The name of each row's member.
fn member_name(alloc: Global, dll: &Name<'_>) -> Result<Vec<u8>, Memory>
    ensures name { IfOk result (λ name. name.items ≡ member_name dll.now) }
    ensures short { IfOk result (λ name. length name.items ≤ 16) }
{
    let mut name = Vec::new(alloc);
    if dll.len() > SHORT_NAME_LIMIT {
        name.extend_from_slice(FIRST_LONG_NAME)?;
        return Ok(name);
    }
    dll.push_to(&mut name)?;
    name.extend_from_slice(NAME_END)?;
    Ok(name)
}

/// Appends the member of a row, under a name.
#[tactic(auto, unfolding(crate::specs::ArchiveMember::member))]
fn push_row_member(
    out: &mut Vec<u8>,
    name: &[u8],
    row: &LibraryRow<'_>,
    dll: &Name<'_>,
    time: u32,
) -> Result<(), Memory>
    requires name { length name.now ≤ 16 }
    requires symbol { length row.now.symbol ≤ NAME_LIMIT }
    requires dll { length dll.now ≤ DLL_LIMIT }
    ensures { OnOk result (out.new.items ≡ out.old.items ++ member name.now time (import_of dll.now time row.now)) }
{
    let size = import_size(row, dll);
    push_header(out, name, time, size as u32)?;
    push_import(out, row, dll, time)?;
    push_line_end(out, size)?;
    Ok(())
}

/// Appends the members of rows.
pub(crate) fn push_row_members(
    alloc: Global,
    out: &mut Vec<u8>,
    rows: &[LibraryRow<'_>],
    dll: &Name<'_>,
    time: u32,
) -> Result<(), Memory>
    requires symbols { All (λ row. length row.symbol ≤ NAME_LIMIT) rows.now }
    requires dll { length dll.now ≤ DLL_LIMIT }
    ensures { OnOk result (out.new.items ≡ out.old.items ++ row_members rows.now dll.now time) }
{
    let name = member_name(alloc, dll)?;
    for row in rows {
        push_row_member(out, &name, row, dll, time)?;
    }
    Ok(())
}
