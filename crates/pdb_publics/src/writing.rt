//! The streams of some public symbols.

ghost use Rattle.std.specs.Prelude.{◌≡◌, ◌<◌, ◌≤◌, ◌^◌, ◌++◌, length, IfOk, OnOk, All};
ghost use Rattle.pdb_publics.specs.PublicOrder.{IsKey};
ghost use Rattle.pdb_publics.specs.PublicStreams.{PUBLIC_NAME_LIMIT, STREAM_LIMIT, address_map, publics_of, records_stream, publics_stream, globals_stream};

use crate::format::PUBLICS_HEADER_LEN;
use crate::hash_part::push_hash_part;
use crate::keys::{HashKey, PlaceKey, lowered_names};
use crate::orders::{by_hash, by_name, by_place};
use crate::pushing::push_u32;
use crate::record::records;
use crate::rows::{PublicRow, PublicStreams};
use link_base::{LeNumber, Memory, push_fields};
use std::alloc::Global;

/// The streams that list the rows, which may stand in any order. A search finds each of them where no two have one name
/// and no name holds a NUL.
///
/// # Errors
///
/// `Memory` alone.
pub fn write_publics(alloc: Global, rows: &[PublicRow<'_>]) -> Result<PublicStreams, Memory>
    requires names { All (λ row. length row.name ≤ PUBLIC_NAME_LIMIT) rows.now }
    requires records { length (records_stream rows.now) ≤ STREAM_LIMIT }
    requires publics { length (publics_stream rows.now) ≤ STREAM_LIMIT }
    ensures globals { IfOk result (λ streams. streams.globals.items ≡ globals_stream) }
    ensures publics { IfOk result (λ streams. streams.publics.items ≡ publics_stream rows.now) }
    ensures records { IfOk result (λ streams. streams.records.items ≡ records_stream rows.now) }
{
    let rows = by_name(alloc, rows)?;
    let lowered = lowered_names(alloc, &rows)?;
    let hashed = by_hash(alloc, &rows, &lowered)?;
    let placed = by_place(alloc, &rows)?;
    let globals = globals(alloc)?;
    let publics = publics(alloc, &hashed, &placed)?;
    let records = records(alloc, &rows)?;
    Ok(PublicStreams {
        globals,
        publics,
        records,
    })
}

/// The stream of globals: a hash part of no keys.
fn globals(alloc: Global) -> Result<Vec<u8>, Memory>
    ensures { IfOk result (λ out. out.items ≡ globals_stream) }
{
    let mut out = Vec::new(alloc);
    push_hash_part(alloc, &mut out, &[])?;
    Ok(out)
}

/// The stream of publics: the sizes of its two parts, and the parts.
#[tactic(auto, unfolding(crate::specs::PublicStreams::publics_of))]
fn publics(alloc: Global, hashed: &[HashKey<'_>], placed: &[PlaceKey]) -> Result<Vec<u8>, Memory>
    requires keys { All IsKey hashed.now }
    requires few { length hashed.now ≤ 2 ^ 27 }
    requires publics { length (publics_of hashed.now placed.now) ≤ STREAM_LIMIT }
    ensures { IfOk result (λ out. out.items ≡ publics_of hashed.now placed.now) }
{
    let mut hash_part = Vec::new(alloc);
    push_hash_part(alloc, &mut hash_part, hashed)?;
    let mut out = Vec::with_capacity(
        alloc,
        PUBLICS_HEADER_LEN + hash_part.len() + 4 * placed.len(),
    )?;
    push_fields(
        &mut out,
        &[
            LeNumber::U32(hash_part.len() as u32),
            LeNumber::U32((4 * placed.len()) as u32),
            LeNumber::U32(0),
            LeNumber::U32(0),
            LeNumber::U16(0),
            LeNumber::U16(0),
            LeNumber::U32(0),
            LeNumber::U32(0),
        ],
    )?;
    out.extend_from_slice(&hash_part)?;
    push_address_map(&mut out, placed)?;
    Ok(out)
}

/// Appends the offset of each record.
fn push_address_map(out: &mut Vec<u8>, placed: &[PlaceKey]) -> Result<(), Memory>
    ensures { OnOk result (out.new.items ≡ out.old.items ++ address_map placed.now) }
{
    for key in placed {
        push_u32(out, key.record_offset)?;
    }
    Ok(())
}
