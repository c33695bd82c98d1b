//! The linker members of a library, with their headers.

ghost use Rattle.std.specs.Prelude.{◌≡◌, ◌≤◌, ◌<◌, ◌+◌, ◌^◌, ◌++◌, length, sum_by, All, OnOk};
ghost use Rattle.link_base.specs.Limits.{NAME_LIMIT, FILE_LIMIT};
ghost use Rattle.lib_reader.specs.Constants as reader;
ghost use Rattle.implib.specs.Rows.{ROW_LIMIT, DLL_LIMIT};
ghost use Rattle.implib.specs.ArchiveMember.{member};
ghost use Rattle.implib.specs.Listings as spec;
ghost use Rattle.implib.specs.ImportLibrary.{library_size, linker_members};
ghost use Rattle.implib.specs.Sizes.{AreSizes};

use crate::constants::ARCHIVE_LINKER_MEMBER;
use crate::directories::{push_first_directory, push_second_directory};
use crate::header::{push_header, push_line_end};
use crate::listing::{Listing, joined_names, listings, sort};
use crate::row::LibraryRow;
use crate::sizes::Sizes;
use link_base::{Memory, Name};
use std::alloc::Global;

/// Appends the first linker member, which has so many bytes of data.
#[tactic(auto, unfolding(crate::specs::ArchiveMember::member))]
fn push_first(
    out: &mut Vec<u8>,
    listings: &[Listing<'_>],
    time: u32,
    size: usize,
) -> Result<(), Memory>
    requires count { length listings.now < 2 ^ 32 }
    requires size { size ≡ length (spec.first_directory listings.now) }
    requires small { size < 2 ^ 32 }
    ensures { OnOk result (out.new.items ≡ out.old.items ++ member reader.ARCHIVE_LINKER_MEMBER time (spec.first_directory listings.now)) }
{
    push_header(out, ARCHIVE_LINKER_MEMBER, time, size as u32)?;
    push_first_directory(out, listings)?;
    push_line_end(out, size)?;
    Ok(())
}

/// Appends the second linker member, which has so many bytes of data. The first row's member stands at `start`.
#[tactic(auto, unfolding(crate::specs::ArchiveMember::member))]
fn push_second(
    out: &mut Vec<u8>,
    rows: &[LibraryRow<'_>],
    dll: &Name<'_>,
    start: u32,
    listings: &[Listing<'_>],
    time: u32,
    size: usize,
) -> Result<(), Memory>
    requires few { length rows.now ≤ ROW_LIMIT }
    requires symbols { All (λ row. length row.symbol ≤ NAME_LIMIT) rows.now }
    requires dll { length dll.now ≤ DLL_LIMIT }
    requires fits { start + sum_by (spec.row_size dll.now) rows.now < 2 ^ 32 }
    requires count { length listings.now < 2 ^ 32 }
    requires size { size ≡ length (spec.second_directory (spec.headers_from dll.now start rows.now) listings.now) }
    requires small { size < 2 ^ 32 }
    ensures { OnOk result (out.new.items ≡ out.old.items ++ member reader.ARCHIVE_LINKER_MEMBER time (spec.second_directory (spec.headers_from dll.now start rows.now) listings.now)) }
{
    push_header(out, ARCHIVE_LINKER_MEMBER, time, size as u32)?;
    push_second_directory(out, rows, dll, start, listings)?;
    push_line_end(out, size)?;
    Ok(())
}

/// Appends both linker members of a library of these sizes.
pub(crate) fn push_linker_members(
    alloc: Global,
    out: &mut Vec<u8>,
    rows: &[LibraryRow<'_>],
    dll: &Name<'_>,
    time: u32,
    sizes: Sizes,
) -> Result<(), Memory>
    requires few { length rows.now ≤ ROW_LIMIT }
    requires symbols { All (λ row. length row.symbol ≤ NAME_LIMIT) rows.now }
    requires dll { length dll.now ≤ DLL_LIMIT }
    requires sizes { AreSizes rows.now dll.now sizes }
    requires fits { library_size rows.now dll.now ≤ FILE_LIMIT }
    ensures { OnOk result (out.new.items ≡ out.old.items ++ linker_members rows.now dll.now time) }
{
    let start = sizes.rows_place as u32;
    let names = joined_names(alloc, rows)?;
    let mut listings = listings(alloc, rows, dll, &names, start)?;
    push_first(out, &listings, time, sizes.first)?;
    sort(&mut listings);
    push_second(out, rows, dll, start, &listings, time, sizes.second)?;
    Ok(())
}
