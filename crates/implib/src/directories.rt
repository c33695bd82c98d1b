//! The two linker members: the directories of what rows list (PE Format, "First Linker Member" and "Second Linker Member").

ghost use Rattle.std.specs.Prelude.{◌≡◌, ◌≤◌, ◌<◌, ◌+◌, ◌^◌, ◌++◌, length, sum_by, All, OnOk};
ghost use Rattle.std.specs.List.{flat_map};
ghost use Rattle.byteorder.specs.Endian.{big_bytes};
ghost use Rattle.link_base.specs.Bytes.{number_bytes};
ghost use Rattle.link_base.specs.Limits.{NAME_LIMIT};
ghost use Rattle.implib.specs.Rows.{ROW_LIMIT, DLL_LIMIT};
ghost use Rattle.implib.specs.Listings as spec;

use crate::listing::Listing;
use crate::numbers::{push_big_u32, push_u16, push_u32};
use crate::row::LibraryRow;
use crate::sizes::row_size;
use crate::texts::push_text;
use link_base::{Memory, Name};

/// Appends the names of listings.
fn push_names(out: &mut Vec<u8>, listings: &[Listing<'_>]) -> Result<(), Memory>
    ensures { OnOk result (out.new.items ≡ out.old.items ++ spec.listed_names listings.now) }
{
    for listing in listings {
        push_text(out, &listing.name)?;
    }
    Ok(())
}

/// Appends the offset of the member of each listing.
fn push_listed_headers(out: &mut Vec<u8>, listings: &[Listing<'_>]) -> Result<(), Memory>
    ensures { OnOk result (out.new.items ≡ out.old.items ++ flat_map (λ listing. big_bytes 4 listing.header) listings.now) }
{
    for listing in listings {
        push_big_u32(out, listing.header)?;
    }
    Ok(())
}

/// Appends the index of the member of each listing.
fn push_listed_members(out: &mut Vec<u8>, listings: &[Listing<'_>]) -> Result<(), Memory>
    ensures { OnOk result (out.new.items ≡ out.old.items ++ flat_map (λ listing. number_bytes 2 listing.member) listings.now) }
{
    for listing in listings {
        push_u16(out, listing.member)?;
    }
    Ok(())
}

/// Appends the offset of each row's header, of which the first stands at `start`.
fn push_headers(
    out: &mut Vec<u8>,
    rows: &[LibraryRow<'_>],
    dll: &Name<'_>,
    start: u32,
) -> Result<(), Memory>
    requires symbols { All (λ row. length row.symbol ≤ NAME_LIMIT) rows.now }
    requires dll { length dll.now ≤ DLL_LIMIT }
    requires fits { start + sum_by (spec.row_size dll.now) rows.now < 2 ^ 32 }
    ensures { OnOk result (out.new.items ≡ out.old.items ++ flat_map (number_bytes 4) (spec.headers_from dll.now start rows.now)) }
{
    let mut header = start;
    for row in rows {
        push_u32(out, header)?;
        header += row_size(row, dll) as u32;
    }
    Ok(())
}

/// Appends the directory of listings in the order of the rows.
#[tactic(auto, unfolding(crate::specs::Listings::first_directory))]
pub(crate) fn push_first_directory(
    out: &mut Vec<u8>,
    listings: &[Listing<'_>],
) -> Result<(), Memory>
    requires { length listings.now < 2 ^ 32 }
    ensures { OnOk result (out.new.items ≡ out.old.items ++ spec.first_directory listings.now) }
{
    push_big_u32(out, listings.len() as u32)?;
    push_listed_headers(out, listings)?;
    push_names(out, listings)
}

/// Appends the directory of the members of rows, and of listings in the order of their names.
pub(crate) fn push_second_directory(
    out: &mut Vec<u8>,
    rows: &[LibraryRow<'_>],
    dll: &Name<'_>,
    start: u32,
    listings: &[Listing<'_>],
) -> Result<(), Memory>
    requires few { length rows.now ≤ ROW_LIMIT }
    requires symbols { All (λ row. length row.symbol ≤ NAME_LIMIT) rows.now }
    requires dll { length dll.now ≤ DLL_LIMIT }
    requires fits { start + sum_by (spec.row_size dll.now) rows.now < 2 ^ 32 }
    requires listings { length listings.now < 2 ^ 32 }
    ensures { OnOk result (out.new.items ≡ out.old.items ++ spec.second_directory (spec.headers_from dll.now start rows.now) listings.now) }
{
    push_u32(out, rows.len() as u32)?;
    push_headers(out, rows, dll, start)?;
    push_u32(out, listings.len() as u32)?;
    push_listed_members(out, listings)?;
    push_names(out, listings)?;
    Ok(())
}
