//! The listings of a library: each name that a row lists, with the row's member.

ghost use Rattle.std.specs.Prelude.{◌≡◌, ◌≤◌, ◌<◌, ◌+◌, ◌^◌, ◌++◌, length, take, drop, map, sum_by, All, IfOk, OnOk};
ghost use Rattle.link_base.specs.Limits.{NAME_LIMIT};
ghost use Rattle.implib.specs.Rows.{ROW_LIMIT, DLL_LIMIT};
ghost use Rattle.implib.specs.RowMember.{text_size};
ghost use Rattle.implib.specs.Listings as spec;

use crate::constants::IMPORT_PREFIX;
use crate::row::LibraryRow;
use crate::sizes::{lists_symbol, row_size};
use crate::texts::push_text;
use link_base::{Memory, Name};
use std::alloc::Global;

/// A name that a row lists: the index of the row's member from 1, and the offset of its header. The order is that of the
/// names' bytes; the rest decides only where names are equal.
#[derive(PartialEq, Eq, PartialOrd, Ord, Drop)]
pub(crate) struct Listing<'t> {
    pub(crate) name: Name<'t>,
    pub(crate) member: u16,
    pub(crate) header: u32,
}

/// The names that rows list, each with its NUL, one behind the other.
pub(crate) fn joined_names(alloc: Global, rows: &[LibraryRow<'_>]) -> Result<Vec<u8>, Memory>
    ensures { IfOk result (λ names. names.items ≡ spec.joined_names rows.now) }
{
    let mut names = Vec::new(alloc);
    for row in rows {
        push_row_names(&mut names, row)?;
    }
    Ok(names)
}

/// Appends the names that a row lists.
fn push_row_names(names: &mut Vec<u8>, row: &LibraryRow<'_>) -> Result<(), Memory>
    ensures { OnOk result (names.new.items ≡ names.old.items ++ spec.row_names row.now) }
{
    names.extend_from_slice(IMPORT_PREFIX)?;
    push_text(names, &row.symbol)?;
    if lists_symbol(row.kind) {
        push_text(names, &row.symbol)?;
    }
    Ok(())
}

/// The first text of so many bytes, and what stands behind its NUL.
fn first_text(names: &[u8], len: usize) -> (Name<'_>, &[u8])
    requires { len < length names.now }
    ensures text { result.0 ≡ take len names.now }
    ensures rest { result.1.now ≡ drop (len + 1) names.now }
{
    let (text, _) = names.split_at(len);
    let (_, rest) = names.split_at(len + 1);
    (Name::of(text), rest)
}

/// Appends the listings of a row, whose names stand first among these, and gives the names behind them.
fn push_listings<'t>(
    found: &mut Vec<Listing<'t>>,
    row: &LibraryRow<'_>,
    names: &'t [u8],
    member: u16,
    header: u32,
) -> Result<&'t [u8], Memory>
    requires symbol { length row.now.symbol ≤ NAME_LIMIT }
    requires names { names.now ≡ spec.row_names row.now ++ drop (sum_by text_size (spec.names_of row.now)) names.now }
    ensures listings { OnOk result (found.new.items ≡ found.old.items ++ map (spec.listed member header) (spec.names_of row.now)) }
    ensures rest { IfOk result (λ rest. rest.now ≡ drop (sum_by text_size (spec.names_of row.now)) names.now) }
{
    let len = row.symbol.len();
    let (name, rest) = first_text(names, IMPORT_PREFIX.len() + len);
    found.push(Listing {
        name,
        member,
        header,
    })?;
    if !lists_symbol(row.kind) {
        return Ok(rest);
    }
    let (name, rest) = first_text(rest, len);
    found.push(Listing {
        name,
        member,
        header,
    })?;
    Ok(rest)
}

/// The listings of rows, whose names stand one behind the other, and the header of whose first member stands at an offset.
pub(crate) fn listings<'t>(
    alloc: Global,
    rows: &[LibraryRow<'_>],
    dll: &Name<'_>,
    names: &'t [u8],
    start: u32,
) -> Result<Vec<Listing<'t>>, Memory>
    requires few { length rows.now ≤ ROW_LIMIT }
    requires symbols { All (λ row. length row.symbol ≤ NAME_LIMIT) rows.now }
    requires dll { length dll.now ≤ DLL_LIMIT }
    requires names { names.now ≡ spec.joined_names rows.now }
    requires fits { start + sum_by (spec.row_size dll.now) rows.now < 2 ^ 32 }
    ensures { IfOk result (λ found. found.items ≡ spec.listings_from dll.now 1 start rows.now) }
{
    let mut found = Vec::with_capacity(alloc, 2 * rows.len())?;
    let mut rest = names;
    let mut member = 0;
    let mut header = start;
    for row in rows {
        member += 1;
        rest = push_listings(&mut found, row, rest, member, header)?;
        header += row_size(row, dll) as u32;
    }
    Ok(found)
}

/// Sorts listings. Those that tie are equal, so nobody sees that they may change places.
pub(crate) fn sort(listings: &mut Vec<Listing<'_>>)
    ensures { listings.new.items ≡ spec.by_name listings.old.items }
{
    listings.sort_unstable();
}
