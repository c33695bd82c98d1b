//! How long the streams of a program database are, and how large its file is, by the rows from which they are made. The
//! numbers have 128 bits, which no sum of theirs exceeds.

ghost use Rattle.std.specs.Prelude.{◌≡◌, ℕ, ◌<◌, ◌≤◌, ◌*◌, ◌^◌, length, map, sum_by, All, IfOk};
ghost use Rattle.pdb_msf.specs.BlockFile.{blocks_for};
ghost use Rattle.pdb_msf.specs.WrittenFile.{block_number, stream_total, file_size};
ghost use Rattle.pdb_dbi.specs.ModuleInfo.{module_size};
ghost use Rattle.pdb_dbi.specs.FixedStreams.{info_of};
ghost use Rattle.pdb_dbi.specs.DbiStream.{dbi_of};
ghost use Rattle.pdb_publics.specs.PublicOrder.{record_size, extent};
ghost use Rattle.pdb_publics.specs.PublicStreams.{PUBLIC_NAME_LIMIT, records_stream, publics_stream};
ghost use Rattle.pdb_file.specs.UsedBuckets.{used_buckets};
ghost use Rattle.pdb_file.specs.PdbFile.{database, pdb_streams};

use crate::format::{
    BITMAP_LEN, BLOCK_SIZE, BUCKET_COUNT, CONTRIBUTION_LEN, DATA_BLOCKS, DBI_HEADER_LEN,
    DESCRIPTOR_LEN, GLOBALS_LEN, HASH_HEADER_LEN, HASH_RECORD_LEN, INFO_FIELDS_LEN,
    MODULE_HEADER_LEN, OPTIONAL_STREAMS_LEN, PUBLICS_HEADER_LEN, RECORD_HEADER_LEN, TYPES_LEN,
    WORD_LEN,
};
use crate::writing::PdbParts;
use link_base::Memory;
use link_base::pe_format::SIZEOF_SECTION_HEADER;
use pdb_dbi::{Contribution, ModuleName};
use pdb_publics::{PublicRow, bucket};
use std::alloc::Global;

/// The size of the file that the rows make. One that takes more than 64 bits counts as want of memory.
pub(crate) fn pdb_size(alloc: Global, parts: &PdbParts<'_, '_>) -> Result<u64, Memory>
    requires few { length parts.now.modules.now ≤ 65535 }
    requires names { All (λ row. length row.name ≤ PUBLIC_NAME_LIMIT) parts.now.publics.now }
    ensures { IfOk result (λ size. size ≡ file_size (map length (pdb_streams (database parts.now)))) }
{
    let lengths = stream_lengths(alloc, parts)?;
    let Ok(size) = u64::try_from(file_size(&lengths)) else {
        return Err(Memory);
    };
    Ok(size)
}

// ---- the file

/// The size of the file of streams that are so long.
fn file_size(lengths: &[u128]) -> u128
    requires few { length lengths.now ≤ 64 }
    requires small { All (λ len. len < 2 ^ 100) lengths.now }
    ensures { result ≡ file_size lengths.now }
{
    let streams = stream_total(lengths);
    let directory = blocks_for(WORD_LEN * (1 + lengths.len() as u128 + streams));
    BLOCK_SIZE * (block_number(1 + directory + streams) + 1)
}

/// The blocks of the streams.
#[tactic(auto, unfolding(pdb_msf::specs::WrittenFile::stream_total))]
fn stream_total(lengths: &[u128]) -> u128
    requires few { length lengths.now ≤ 64 }
    requires small { All (λ len. len < 2 ^ 100) lengths.now }
    ensures sum { result ≡ stream_total lengths.now }
    ensures small { result < 2 ^ 100 }
{
    let mut blocks = 0;
    for len in lengths {
        blocks += blocks_for(*len);
    }
    blocks
}

/// The blocks that so many bytes take.
fn blocks_for(len: u128) -> u128
    requires { len < 2 ^ 110 }
    ensures { result ≡ blocks_for len }
{
    (len + (BLOCK_SIZE - 1)) / BLOCK_SIZE
}

/// The block in which the n-th block of data stands.
fn block_number(n: u128) -> u128
    requires { n < 2 ^ 110 }
    ensures { result ≡ block_number n }
{
    n + 2 * ((n + (DATA_BLOCKS - 1)) / DATA_BLOCKS)
}

// ---- the streams

/// The lengths of the streams, in their order.
fn stream_lengths(alloc: Global, parts: &PdbParts<'_, '_>) -> Result<[u128; 9], Memory>
    requires few { length parts.now.modules.now ≤ 65535 }
    requires names { All (λ row. length row.name ≤ PUBLIC_NAME_LIMIT) parts.now.publics.now }
    ensures lengths { IfOk result (λ lengths. lengths ≡ map length (pdb_streams (database parts.now))) }
    ensures small { IfOk result (λ lengths. All (λ len. len < 2 ^ 100) lengths) }
{
    let publics = publics_len(alloc, parts.publics)?;
    let records = records_len(parts.publics);
    let dbi = dbi_len(parts.modules, parts.contributions, parts.headers);
    let info = info_len(&parts.id);
    let headers = parts.headers.len() as u128;
    Ok([
        0,
        info,
        TYPES_LEN,
        dbi,
        TYPES_LEN,
        GLOBALS_LEN,
        publics,
        records,
        headers,
    ])
}

/// The length of the information.
#[tactic(auto, using(crate::proofs::SizeLemmas::length_info))]
fn info_len(id: &[u8]) -> u128
    ensures len { (time : ℕ) → result ≡ length (info_of time id.now) }
    ensures small { result < 2 ^ 100 }
{
    INFO_FIELDS_LEN + id.len() as u128
}

// ---- the debug information

/// The length of the debug information.
#[tactic(auto, using(pdb_dbi::proofs::CallerLemmas::length_dbi))]
fn dbi_len(modules: &[ModuleName<'_>], list: &[Contribution], headers: &[u8]) -> u128
    requires few { length modules.now ≤ 65535 }
    ensures len { result ≡ length (dbi_of modules.now list.now headers.now) }
    ensures small { result < 2 ^ 100 }
{
    let contributions = WORD_LEN + CONTRIBUTION_LEN * list.len() as u128;
    let sections = (headers.len() / SIZEOF_SECTION_HEADER) as u128;
    let descriptors = WORD_LEN + DESCRIPTOR_LEN * (sections + 1);
    let files = WORD_LEN + WORD_LEN * modules.len() as u128;
    DBI_HEADER_LEN
        + modules_len(modules)
        + contributions
        + descriptors
        + files
        + OPTIONAL_STREAMS_LEN
}

/// The length of the part of modules.
fn modules_len(modules: &[ModuleName<'_>]) -> u128
    requires { length modules.now ≤ 65535 }
    ensures len { result ≡ sum_by module_size modules.now }
    ensures small { result < 2 ^ 90 }
{
    let mut len = 0;
    for names in modules {
        len += module_len(names);
    }
    len
}

/// The length of a module's record: its fields, and its names, filled to a multiple of four.
fn module_len(names: &ModuleName<'_>) -> u128
    ensures len { result ≡ module_size names.now }
    ensures small { result < 2 ^ 66 }
{
    let text = names.name.len() as u128 + 1 + (names.file.len() as u128 + 1);
    MODULE_HEADER_LEN + (text + (4 - text % 4) % 4)
}

// ---- the public symbols

/// The length of the symbol records.
#[tactic(auto, using(pdb_publics::proofs::CallerLemmas::length_records_stream))]
fn records_len(rows: &[PublicRow<'_>]) -> u128
    requires { All (λ row. length row.name ≤ PUBLIC_NAME_LIMIT) rows.now }
    ensures len { result ≡ length (records_stream rows.now) }
    ensures small { result < 2 ^ 100 }
{
    let mut len = 0;
    for row in rows {
        len += record_len(row);
    }
    len
}

/// The length of a symbol record: its fields, the name and a NUL, filled to a multiple of four.
fn record_len(row: &PublicRow<'_>) -> u128
    ensures { result ≡ record_size (length row.now.name) }
{
    (row.name.len() as u128 + (RECORD_HEADER_LEN + 4)) / 4 * 4
}

/// The length of the stream of publics: for each of them a record of the hash part and an offset, and for each bucket that
/// is used a word.
fn publics_len(alloc: Global, rows: &[PublicRow<'_>]) -> Result<u128, Memory>
    ensures len { IfOk result (λ len. len ≡ length (publics_stream rows.now)) }
    ensures small { IfOk result (λ len. len < 2 ^ 100) }
{
    let used = used_buckets(alloc, rows)? as u128;
    let fixed = PUBLICS_HEADER_LEN + HASH_HEADER_LEN + BITMAP_LEN;
    Ok(fixed + (HASH_RECORD_LEN + WORD_LEN) * rows.len() as u128 + WORD_LEN * used)
}

/// How many buckets the names use.
fn used_buckets(alloc: Global, rows: &[PublicRow<'_>]) -> Result<u32, Memory>
    ensures used { IfOk result (λ count. count ≡ used_buckets rows.now) }
    ensures most { IfOk result (λ count. count ≤ 4096) }
{
    let mut used = Vec::from_elem(alloc, false, BUCKET_COUNT)?;
    let mut count = 0;
    for row in rows {
        let bucket = bucket(row.name.again()) as usize;
        if !used[bucket] {
            used[bucket] = true;
            count += 1;
        }
    }
    Ok(count)
}
