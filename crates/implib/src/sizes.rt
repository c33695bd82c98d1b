//! The sizes of an import library, computed once.

ghost use Rattle.std.specs.Prelude.{◌≡◌, ◌≤◌, ◌+◌, ◌*◌, ◌^◌, length, sum_by, All};
ghost use Rattle.link_base.specs.Limits.{NAME_LIMIT};
ghost use Rattle.implib.specs.Rows.{ROW_LIMIT, DLL_LIMIT};
ghost use Rattle.implib.specs.Listings as listings;
ghost use Rattle.implib.specs.RowMember.{text_size};
ghost use Rattle.implib.specs.ImportLibrary.{long_names_size};
ghost use Rattle.implib.specs.Sizes.{AreTotals, AreSizes};

use crate::constants::{ARCHIVE_START, IMPORT_PREFIX, SHORT_NAME_LIMIT};
use crate::header::member_size;
use crate::import::import_size;
use crate::row::LibraryRow;
use link_base::Name;
use short_import::ImportKind;

/// How many listings rows have, how many bytes their names with their NULs, and how many the rows' members.
#[derive(Clone, Copy)]
struct Totals {
    listings: usize,
    names: usize,
    members: usize,
}

/// How many bytes of data the linker members have, where the members of rows begin, and how many bytes the library has.
#[derive(Clone, Copy)]
pub(crate) struct Sizes {
    pub(crate) first: usize,
    pub(crate) second: usize,
    pub(crate) rows_place: usize,
    pub(crate) library: usize,
}

/// Whether a row of this kind lists its symbol.
pub(crate) fn lists_symbol(kind: ImportKind) -> bool
    ensures { result ≡ listings.lists_symbol kind }
{
    match kind {
        ImportKind::Data => false,
        ImportKind::Code => true,
        ImportKind::Const => true,
    }
}

/// How many names a row lists.
fn name_count(row: &LibraryRow<'_>) -> usize
    ensures count { result ≡ length (listings.names_of row.now) }
    ensures few { result ≤ 2 }
{
    if lists_symbol(row.kind) { 2 } else { 1 }
}

/// How many bytes the names that a row lists have, with their NULs.
fn names_size(row: &LibraryRow<'_>) -> usize
    requires { length row.now.symbol ≤ NAME_LIMIT }
    ensures size { result ≡ sum_by text_size (listings.names_of row.now) }
    ensures small { result ≤ 64008 }
{
    let slot = IMPORT_PREFIX.len() + row.symbol.len() + 1;
    if lists_symbol(row.kind) {
        return slot + row.symbol.len() + 1;
    }
    slot
}

/// How many bytes the member of a row has.
pub(crate) fn row_size(row: &LibraryRow<'_>, dll: &Name<'_>) -> usize
    requires symbol { length row.now.symbol ≤ NAME_LIMIT }
    requires dll { length dll.now ≤ DLL_LIMIT }
    ensures size { result ≡ listings.row_size dll.now row.now }
    ensures small { result ≤ 64087 }
{
    member_size(import_size(row, dll))
}

/// The sums over all rows.
fn totals_of(rows: &[LibraryRow<'_>], dll: &Name<'_>) -> Totals
    requires few { length rows.now ≤ ROW_LIMIT }
    requires symbols { All (λ row. length row.symbol ≤ NAME_LIMIT) rows.now }
    requires dll { length dll.now ≤ DLL_LIMIT }
    ensures { AreTotals rows.now dll.now result }
{
    let mut listings = 0;
    let mut names = 0;
    let mut members = 0;
    for row in rows {
        listings += name_count(row);
        names += names_size(row);
        members += row_size(row, dll);
    }
    Totals {
        listings,
        names,
        members,
    }
}

/// How many bytes the member of long names has: none where the name of the DLL is none.
fn long_names_size(dll: &Name<'_>) -> usize
    requires { length dll.now ≤ DLL_LIMIT }
    ensures size { result ≡ long_names_size dll.now }
    ensures small { result ≤ 32066 }
{
    if dll.len() > SHORT_NAME_LIMIT {
        member_size(dll.len() + 1)
    } else {
        0
    }
}

/// The sizes of the import library of some rows and of a DLL.
#[tactic(auto, unfolding(crate::specs::ImportLibrary::rows_place, crate::specs::ImportLibrary::library_size))]
pub(crate) fn sizes_of(rows: &[LibraryRow<'_>], dll: &Name<'_>) -> Sizes
    requires few { length rows.now ≤ ROW_LIMIT }
    requires symbols { All (λ row. length row.symbol ≤ NAME_LIMIT) rows.now }
    requires dll { length dll.now ≤ DLL_LIMIT }
    ensures { AreSizes rows.now dll.now result }
{
    let totals = totals_of(rows, dll);
    // A count, an offset for each listing, and the names.
    let first = 4 + 4 * totals.listings + totals.names;
    // Two counts, an offset for each row, an index for each listing, and the names.
    let second = 8 + 4 * rows.len() + 2 * totals.listings + totals.names;
    let rows_place = ARCHIVE_START.len()
        + member_size(first)
        + member_size(second)
        + long_names_size(dll);
    Sizes {
        first,
        second,
        rows_place,
        library: rows_place + totals.members,
    }
}
