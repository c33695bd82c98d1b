//! Publics in the orders of the streams. Each order comes from one sort of numbers, behind which the rows or keys stand.

ghost use Rattle.std.specs.Prelude.{◌≡◌, ◌<◌, ◌≤◌, ◌^◌, map, IfOk, All};
ghost use Rattle.std.specs.List.{flat_map};
ghost use Rattle.pdb_publics.specs.Fronts.{IsRowFront, IsHashFront, IsPlaceFront, name_front};
ghost use Rattle.pdb_publics.specs.PublicOrder.{by_name, by_hash, by_place, extent, lowered};

use crate::fronts::{Fronted, first_eight, first_two, sort_fronted};
use crate::keys::{HashKey, PlaceKey, hash_keys, place_keys};
use crate::rows::PublicRow;
use link_base::Memory;
use std::alloc::Global;

/// The lengths below this stand in the numbers of hash keys.
const LEN_LIMIT: usize = 0x1_0000;

// ---- the order of the records

/// The rows by their names.
pub(crate) fn by_name<'a>(
    alloc: Global,
    rows: &[PublicRow<'a>],
) -> Result<Vec<PublicRow<'a>>, Memory>
    ensures { IfOk result (λ sorted. sorted.items ≡ by_name rows.now) }
{
    let mut fronted = fronted_rows(alloc, rows)?;
    sort_fronted(&mut fronted);
    rows_behind(alloc, &fronted)
}

/// The rows behind the numbers of their names.
fn fronted_rows<'r, 'a>(
    alloc: Global,
    rows: &'r [PublicRow<'a>],
) -> Result<Vec<Fronted<'r, PublicRow<'a>>>, Memory>
    ensures rows { IfOk result (λ fronted. map (λ key. key.item.now) fronted.items ≡ rows.now) }
    ensures fronts { IfOk result (λ fronted. All (λ key. IsRowFront key.item.now key.front) fronted.items) }
{
    let mut fronted = Vec::with_capacity(alloc, rows.len())?;
    for row in rows {
        fronted.push(Fronted {
            front: first_eight(&row.name),
            item: row,
        })?;
    }
    Ok(fronted)
}

fn rows_behind<'a>(
    alloc: Global,
    fronted: &[Fronted<'_, PublicRow<'a>>],
) -> Result<Vec<PublicRow<'a>>, Memory>
    ensures { IfOk result (λ rows. rows.items ≡ map (λ key. key.item.now) fronted.now) }
{
    let mut rows = Vec::with_capacity(alloc, fronted.len())?;
    for key in fronted {
        rows.push(key.item.again())?;
    }
    Ok(rows)
}

// ---- the order of the hash part

/// The keys of the order of the hash part, in this order.
pub(crate) fn by_hash<'t>(
    alloc: Global,
    rows: &[PublicRow<'_>],
    names: &'t [u8],
) -> Result<Vec<HashKey<'t>>, Memory>
    requires small { extent rows.now ≤ 2 ^ 30 }
    requires lowered { names.now ≡ flat_map (λ row. lowered row.name) rows.now }
    ensures { IfOk result (λ keys. keys.items ≡ by_hash rows.now) }
{
    let keys = hash_keys(alloc, rows, names)?;
    let mut fronted = fronted_hash_keys(alloc, &keys)?;
    sort_fronted(&mut fronted);
    hash_keys_behind(alloc, &fronted)
}

/// The keys behind the numbers of their buckets, lengths and names.
fn fronted_hash_keys<'r, 't>(
    alloc: Global,
    keys: &'r [HashKey<'t>],
) -> Result<Vec<Fronted<'r, HashKey<'t>>>, Memory>
    ensures keys { IfOk result (λ fronted. map (λ key. key.item.now) fronted.items ≡ keys.now) }
    ensures fronts { IfOk result (λ fronted. All (λ key. IsHashFront key.item.now key.front) fronted.items) }
{
    let mut fronted = Vec::with_capacity(alloc, keys.len())?;
    for key in keys {
        fronted.push(Fronted {
            front: hash_front(key),
            item: key,
        })?;
    }
    Ok(fronted)
}

/// The bucket of a key, behind it the length of its name, and behind that the first two bytes of the name.
fn hash_front(key: &HashKey<'_>) -> u64
    ensures { IsHashFront key.now result }
{
    0x1_0000_0000 * u64::from(key.bucket) + name_front(key.len, first_two(&key.lowered))
}

/// The length of a name and its first two bytes, and the greatest number where the length is too great.
fn name_front(len: usize, first: u64) -> u64
    requires { first < 2 ^ 16 }
    ensures number { result ≡ name_front len first }
    ensures small { result < 2 ^ 32 }
{
    if len < LEN_LIMIT {
        0x1_0000 * len as u64 + first
    } else {
        0xffff_ffff
    }
}

fn hash_keys_behind<'t>(
    alloc: Global,
    fronted: &[Fronted<'_, HashKey<'t>>],
) -> Result<Vec<HashKey<'t>>, Memory>
    ensures { IfOk result (λ keys. keys.items ≡ map (λ key. key.item.now) fronted.now) }
{
    let mut keys = Vec::with_capacity(alloc, fronted.len())?;
    for key in fronted {
        keys.push(key.item.again())?;
    }
    Ok(keys)
}

// ---- the order of the address map

/// The keys of the order of the address map, in this order.
pub(crate) fn by_place(alloc: Global, rows: &[PublicRow<'_>]) -> Result<Vec<PlaceKey>, Memory>
    requires { extent rows.now ≤ 2 ^ 30 }
    ensures { IfOk result (λ keys. keys.items ≡ by_place rows.now) }
{
    let keys = place_keys(alloc, rows)?;
    let mut fronted = fronted_place_keys(alloc, &keys)?;
    sort_fronted(&mut fronted);
    place_keys_behind(alloc, &fronted)
}

/// The keys behind the numbers of their places.
fn fronted_place_keys<'r>(
    alloc: Global,
    keys: &'r [PlaceKey],
) -> Result<Vec<Fronted<'r, PlaceKey>>, Memory>
    ensures keys { IfOk result (λ fronted. map (λ key. key.item.now) fronted.items ≡ keys.now) }
    ensures fronts { IfOk result (λ fronted. All (λ key. IsPlaceFront key.item.now key.front) fronted.items) }
{
    let mut fronted = Vec::with_capacity(alloc, keys.len())?;
    for key in keys {
        fronted.push(Fronted {
            front: place_front(key),
            item: key,
        })?;
    }
    Ok(fronted)
}

/// The section of a key, and behind it the offset.
fn place_front(key: &PlaceKey) -> u64
    ensures { IsPlaceFront key.now result }
{
    0x1_0000_0000 * u64::from(key.section) + u64::from(key.offset)
}

fn place_keys_behind(
    alloc: Global,
    fronted: &[Fronted<'_, PlaceKey>],
) -> Result<Vec<PlaceKey>, Memory>
    ensures { IfOk result (λ keys. keys.items ≡ map (λ key. key.item.now) fronted.now) }
{
    let mut keys = Vec::with_capacity(alloc, fronted.len())?;
    for key in fronted {
        keys.push(*key.item)?;
    }
    Ok(keys)
}
