//! A program database, written.

ghost use Rattle.std.specs.Prelude.{◌≡◌, ◌<◌, ◌≤◌, ◌*◌, ◌++◌, length, map, All, IfOk, IfErr, OnOk};
ghost use Rattle.link_base.specs.Limits.{SECTION_LIMIT};
ghost use Rattle.link_base.specs.PeFormat.{SIZEOF_SECTION_HEADER};
ghost use Rattle.pdb_msf.specs.WrittenFile.{MSF_LIMIT, file_size, msf_of};
ghost use Rattle.pdb_dbi.specs.DbiStream.{STREAM_LIMIT, dbi_of};
ghost use Rattle.pdb_publics.specs.PublicStreams.{PUBLIC_NAME_LIMIT, records_stream, publics_stream};
ghost use Rattle.pdb_file.specs.PdbFile.{database, front_streams, public_streams, pdb_streams, IsTooLarge};

use crate::joined::JoinedStreams;
use crate::sizes::pdb_size;
use link_base::Memory;
use pdb_dbi::{Contribution, ModuleName, write_dbi, write_info, write_types};
use pdb_msf::{MsfError, write_msf};
use pdb_publics::{PublicRow, write_publics};
use std::alloc::Global;

/// What a program database is made of: the time and the identifier of its image, the modules, what each gives to sections, the
/// public symbols, and the section headers of the image.
#[derive(Clone, Copy)]
pub struct PdbParts<'w, 'a> {
    pub time: u32,
    pub id: [u8; 16],
    pub modules: &'w [ModuleName<'a>],
    pub contributions: &'w [Contribution],
    pub publics: &'w [PublicRow<'a>],
    pub headers: &'w [u8],
}

/// The greatest size of a file.
const MSF_LIMIT: u64 = 1_073_741_824;

/// The file of a program database: an empty stream, the information, the types, the debug information, the ids, the globals,
/// the publics, the symbol records, and the section headers (LLVM, "The PDB File Format"). Whether it would be too large is
/// known by the rows, before any stream is made.
///
/// # Errors
///
/// `TooLarge` where it would have more than 1,073,741,824 bytes, unless their number takes more than 64 bits or memory is
/// wanting: then `Memory`.
pub fn write_pdb(alloc: Global, parts: &PdbParts<'_, '_>) -> Result<Vec<u8>, MsfError>
    requires few { length parts.now.modules.now ≤ 65535 }
    requires sections { length parts.now.headers.now ≤ SIZEOF_SECTION_HEADER * SECTION_LIMIT }
    requires modules { All (λ row. row.«module» < length parts.now.modules.now) parts.now.contributions.now }
    requires names { All (λ row. length row.name ≤ PUBLIC_NAME_LIMIT) parts.now.publics.now }
    ensures written { IfOk result (λ pdb. pdb.items ≡ msf_of (pdb_streams (database parts.now))) }
    ensures too_large { IfErr result (IsTooLarge (pdb_streams (database parts.now))) }
    ensures fits { OnOk result (file_size (map length (pdb_streams (database parts.now))) ≤ MSF_LIMIT) }
{
    let Ok(size) = pdb_size(alloc, parts) else {
        return Err(MsfError::Memory);
    };
    if size > MSF_LIMIT {
        return Err(MsfError::TooLarge(size));
    }
    write_streams(alloc, parts)
}

/// The file, none of whose streams is too long.
fn write_streams(alloc: Global, parts: &PdbParts<'_, '_>) -> Result<Vec<u8>, MsfError>
    requires few { length parts.now.modules.now ≤ 65535 }
    requires sections { length parts.now.headers.now ≤ SIZEOF_SECTION_HEADER * SECTION_LIMIT }
    requires modules { All (λ row. row.«module» < length parts.now.modules.now) parts.now.contributions.now }
    requires size { length (dbi_of parts.now.modules.now parts.now.contributions.now parts.now.headers.now) ≤ STREAM_LIMIT }
    requires names { All (λ row. length row.name ≤ PUBLIC_NAME_LIMIT) parts.now.publics.now }
    requires records { length (records_stream parts.now.publics.now) ≤ STREAM_LIMIT }
    requires publics { length (publics_stream parts.now.publics.now) ≤ STREAM_LIMIT }
    ensures written { IfOk result (λ pdb. pdb.items ≡ msf_of (pdb_streams (database parts.now))) }
    ensures too_large { IfErr result (IsTooLarge (pdb_streams (database parts.now))) }
{
    match joined_streams(alloc, parts) {
        Ok(streams) => write_msf(alloc, &streams.bytes, &streams.lengths),
        Err(Memory) => Err(MsfError::Memory),
    }
}

/// The streams of a program database.
fn joined_streams(alloc: Global, parts: &PdbParts<'_, '_>) -> Result<JoinedStreams, Memory>
    requires few { length parts.now.modules.now ≤ 65535 }
    requires sections { length parts.now.headers.now ≤ SIZEOF_SECTION_HEADER * SECTION_LIMIT }
    requires modules { All (λ row. row.«module» < length parts.now.modules.now) parts.now.contributions.now }
    requires size { length (dbi_of parts.now.modules.now parts.now.contributions.now parts.now.headers.now) ≤ STREAM_LIMIT }
    requires names { All (λ row. length row.name ≤ PUBLIC_NAME_LIMIT) parts.now.publics.now }
    requires records { length (records_stream parts.now.publics.now) ≤ STREAM_LIMIT }
    requires publics { length (publics_stream parts.now.publics.now) ≤ STREAM_LIMIT }
    ensures { IfOk result (λ streams. streams ≡ pdb_streams (database parts.now)) }
{
    let mut streams = JoinedStreams::new(alloc);
    push_front(alloc, &mut streams, parts)?;
    push_publics(alloc, &mut streams, parts.publics)?;
    streams.push(parts.headers)?;
    Ok(streams)
}

/// Appends the streams up to that of ids: an empty one, the information, the types, and the debug information.
fn push_front(
    alloc: Global,
    streams: &mut JoinedStreams,
    parts: &PdbParts<'_, '_>,
) -> Result<(), Memory>
    requires few { length parts.now.modules.now ≤ 65535 }
    requires sections { length parts.now.headers.now ≤ SIZEOF_SECTION_HEADER * SECTION_LIMIT }
    requires modules { All (λ row. row.«module» < length parts.now.modules.now) parts.now.contributions.now }
    requires size { length (dbi_of parts.now.modules.now parts.now.contributions.now parts.now.headers.now) ≤ STREAM_LIMIT }
    ensures { OnOk result (streams.new ≡ streams.old ++ front_streams (database parts.now)) }
{
    let info = write_info(alloc, parts.time, parts.id)?;
    let types = write_types(alloc)?;
    let dbi = write_dbi(alloc, parts.modules, parts.contributions, parts.headers)?;
    streams.push(&[])?;
    streams.push(&info)?;
    streams.push(&types)?;
    streams.push(&dbi)?;
    streams.push(&types)
}

/// Appends the streams of globals, of publics and of symbol records.
fn push_publics(
    alloc: Global,
    streams: &mut JoinedStreams,
    publics: &[PublicRow<'_>],
) -> Result<(), Memory>
    requires names { All (λ row. length row.name ≤ PUBLIC_NAME_LIMIT) publics.now }
    requires records { length (records_stream publics.now) ≤ STREAM_LIMIT }
    requires publics { length (publics_stream publics.now) ≤ STREAM_LIMIT }
    ensures { OnOk result (streams.new ≡ streams.old ++ public_streams publics.now) }
{
    let written = write_publics(alloc, publics)?;
    streams.push(&written.globals)?;
    streams.push(&written.publics)?;
    streams.push(&written.records)
}
