//! The names of exports in their order, each with the index of its address.

ghost use Rattle.std.specs.Prelude.{◌≡◌, ◌++◌, [], IfOk, OnOk, IsPermutation, IsSorted};
ghost use Rattle.std.specs.List.{flat_map};
ghost use Rattle.std.specs.Option.{option_to_list};
ghost use Rattle.export_tables.specs.ExportTable.{AreNumbered, entry_cmp, entry_of, names_of, places_in, places_of, address_count};

use crate::row::ExportRow;
use crate::targets::{address_count, least};
use link_base::{Memory, Name};
use std::alloc::Global;

/// A name and the index of its address. The order is that of the names' bytes; the indexes decide only where names are equal.
#[derive(PartialEq, Eq, PartialOrd, Ord, Drop)]
pub(crate) struct NameEntry<'a> {
    pub name: Name<'a>,
    pub index: u16,
}

/// The names of some exports in their order. A row that is exported by its ordinal alone has none. They are sorted from the
/// order of their ordinals, which is theirs already where no row asked for one.
pub(crate) fn names_of<'a>(
    alloc: Global,
    rows: &[ExportRow<'a>],
    ordinals: &[u16],
) -> Result<Vec<NameEntry<'a>>, Memory>
    requires { AreNumbered rows.now ordinals.now }
    ensures { IfOk result (λ names. names.items ≡ names_of rows.now ordinals.now) }
{
    let places = places_of(alloc, rows, ordinals)?;
    let mut names = names_at(alloc, &places)?;
    sort(&mut names);
    Ok(names)
}

/// The name of each number from the least ordinal to the greatest; none of one that no row with a name has.
fn places_of<'a>(
    alloc: Global,
    rows: &[ExportRow<'a>],
    ordinals: &[u16],
) -> Result<Vec<Option<NameEntry<'a>>>, Memory>
    requires { AreNumbered rows.now ordinals.now }
    ensures { IfOk result (λ places. places.items ≡ places_of rows.now ordinals.now) }
{
    let base = least(ordinals);
    let mut places = no_places(alloc, rows, ordinals, address_count(ordinals))?;
    for index in 0..rows.len() {
        let place = ordinals[index] - base;
        places[usize::from(place)] = entry_of(&rows[index], place);
    }
    Ok(places)
}

/// No name for each of so many numbers.
fn no_places<'a>(
    alloc: Global,
    rows: &[ExportRow<'a>],
    ordinals: &[u16],
    count: usize,
) -> Result<Vec<Option<NameEntry<'a>>>, Memory>
    ensures { IfOk result (λ places. places.items ≡ places_in rows.now ordinals.now count []) }
{
    let mut places = Vec::with_capacity(alloc, count)?;
    for _ in 0..count {
        places.push(None)?;
    }
    Ok(places)
}

/// The name of a row that has one.
fn entry_of<'a>(row: &ExportRow<'a>, index: u16) -> Option<NameEntry<'a>>
    ensures { result ≡ entry_of row.now index }
{
    if row.noname {
        return None;
    }
    Some(NameEntry {
        name: row.name.again(),
        index,
    })
}

/// The names that are there.
fn names_at<'a>(
    alloc: Global,
    places: &[Option<NameEntry<'a>>],
) -> Result<Vec<NameEntry<'a>>, Memory>
    ensures { IfOk result (λ names. names.items ≡ flat_map option_to_list places.now) }
{
    let mut names = Vec::new(alloc);
    for place in places {
        push_place(&mut names, place)?;
    }
    Ok(names)
}

/// Appends a name that is there.
fn push_place<'a>(
    names: &mut Vec<NameEntry<'a>>,
    place: &Option<NameEntry<'a>>,
) -> Result<(), Memory>
    ensures { OnOk result (names.new.items ≡ names.old.items ++ option_to_list place.now) }
{
    if let Some(entry) = place {
        names.push(NameEntry {
            name: entry.name.again(),
            index: entry.index,
        })?;
    }
    Ok(())
}

/// Sorts names. Entries that tie are equal, so nobody sees that they may change places.
pub(crate) fn sort(names: &mut Vec<NameEntry<'_>>)
    ensures permutation { IsPermutation names.old.items names.new.items }
    ensures sorted { IsSorted entry_cmp names.new.items }
{
    names.sort_unstable();
}
