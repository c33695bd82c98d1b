//! The import library of a DLL (PE Format, "Archive (Library) File Format").

ghost use Rattle.std.specs.Prelude.{◌≡◌, ℕ, ◌≤◌, ◌<◌, ◌^◌, length, IfOk};
ghost use Rattle.link_base.specs.Limits.{FILE_LIMIT};
ghost use Rattle.implib.specs.Rows.{DLL_LIMIT, IsText, AreRows};
ghost use Rattle.implib.specs.ImportLibrary.{library_of};

use crate::constants::ARCHIVE_START;
use crate::linker_members::push_linker_members;
use crate::row::LibraryRow;
use crate::row_members::{push_long_names, push_row_members};
use crate::sizes::sizes_of;
use link_base::{Memory, Name};
use std::alloc::Global;

/// The length of the import library of some rows and of a DLL, in bytes: of what `import_library` gives at any time.
pub fn library_length(rows: &[LibraryRow<'_>], dll: Name<'_>) -> u64
    requires rows { AreRows rows.now }
    requires dll { IsText DLL_LIMIT dll }
    ensures { (time : ℕ) → time < 2 ^ 32 → result ≡ length (library_of rows.now dll.entry time) }
{
    sizes_of(rows, &dll).library as u64
}

/// The import library of some rows and of a DLL. It is an archive with the linker members, the member of long names where the
/// name of the DLL has more than 15 bytes, and a short import for each row in their order. Each row lists `__imp_` with its
/// symbol and, unless it is data, its symbol. `time` is the time stamp of every header, in seconds since 1970 (PE Format,
/// "Archive (Library) File Format" and "Import Library Format").
///
/// There are at most 65,535 rows, which ascend by the bytes of their symbols. A symbol has 1 to 32,000 bytes and the name of
/// the DLL 1 to 32,004, none of them a NUL, and what is imported by name has its symbol as the name. The library has at most
/// 268,435,456 bytes.
pub fn import_library(
    alloc: Global,
    rows: &[LibraryRow<'_>],
    dll: Name<'_>,
    time: u32,
) -> Result<Vec<u8>, Memory>
    requires rows { AreRows rows.now }
    requires dll { IsText DLL_LIMIT dll }
    requires fits { length (library_of rows.now dll time) ≤ FILE_LIMIT }
    ensures { IfOk result (λ out. out.items ≡ library_of rows.now dll.entry time) }
{
    let sizes = sizes_of(rows, &dll);
    let mut out = Vec::with_capacity(alloc, sizes.library)?;
    out.extend_from_slice(ARCHIVE_START)?;
    push_linker_members(alloc, &mut out, rows, &dll, time, sizes)?;
    push_long_names(&mut out, &dll, time)?;
    push_row_members(alloc, &mut out, rows, &dll, time)?;
    Ok(out)
}
