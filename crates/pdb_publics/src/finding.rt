//! A public symbol found by its name.

ghost use Rattle.std.specs.Prelude.{◌≡◌, ◌<◌, ◌≤◌, ◌+◌, ◌*◌, ◌^◌, IfSome, option_map, length, drop, take};
ghost use Rattle.link_base.specs.Bytes.{bytes_at, text_at};
ghost use Rattle.link_base.specs.NameText.{same_name};
ghost use Rattle.pdb_publics.specs.Lookup.{stream_bytes_of, name_at, public_at, verdict, first_named, found};

use crate::format::{RECORD_HEADER_LEN, RECORDS_STREAM};
use crate::hashing::bucket;
use crate::range::{bucket_range, has_bucket, has_parts, hash_entry};
use crate::rows::Public;
use crate::stream::{byte_in, has_bytes, u16_in, u32_in};
use link_base::{Name, PdbKind};
use pdb_msf::Msf;

/// The public of a name: the first record of that name among those of the name's bucket.
///
/// # Errors
///
/// `Hash` where a part of the hash table, the bucket's records or one of the symbol records that are looked at leaves its
/// stream. What is not on the way to the name is not looked at.
#[tactic(auto, unfolding(crate::specs::Lookup::found_in, crate::specs::Lookup::found_in_bucket))]
pub fn find(msf: &Msf<'_>, name: Name<'_>) -> Result<Option<Public>, PdbKind>
    ensures { result ≡ found msf.now name.entry }
{
    if !has_parts(msf) {
        return Err(PdbKind::Hash);
    }
    let bucket = bucket(name.again()) as usize;
    if !has_bucket(msf, bucket) {
        return Ok(None);
    }
    let Some((first, end)) = bucket_range(msf, bucket) else {
        return Err(PdbKind::Hash);
    };
    first_named(msf, &name, first, end)
}

/// The first of some records of the hash part that has the name.
#[tactic(auto, unfolding(crate::specs::Lookup::first_named))]
fn first_named(
    msf: &Msf<'_>,
    name: &Name<'_>,
    first: usize,
    end: usize,
) -> Result<Option<Public>, PdbKind>
    requires range { first ≤ end }
    requires small { 44 + 8 * end ≤ 2 ^ 32 }
    ensures { result ≡ first_named (stream_bytes_of msf.now 6) (stream_bytes_of msf.now 7) name.now first end }
{
    for index in 0..end - first {
        if let Some(answer) = verdict(msf, name, hash_entry(msf, first + index)) {
            return answer;
        }
    }
    Ok(None)
}

/// What a record of the hash part says of a name: nothing where its symbol record has another name.
#[tactic(auto, unfolding(crate::specs::Lookup::verdict))]
fn verdict(msf: &Msf<'_>, name: &Name<'_>, entry: u32) -> Option<Result<Option<Public>, PdbKind>>
    ensures { result ≡ verdict (stream_bytes_of msf.now 7) name.now entry }
{
    if entry == 0 {
        return Some(Err(PdbKind::Hash));
    }
    let offset = entry as usize - 1;
    let Some(len) = name_len(msf, offset) else {
        return Some(Err(PdbKind::Hash));
    };
    if !is_named(msf, offset + RECORD_HEADER_LEN, len, name) {
        return None;
    }
    Some(Ok(Some(public_at(msf, offset))))
}

/// The length of the name of the record at an offset, where the record and a NUL in it are there.
#[tactic(auto, unfolding(crate::specs::Lookup::name_at))]
fn name_len(msf: &Msf<'_>, offset: usize) -> Option<usize>
    requires { offset < 2 ^ 32 }
    ensures name { option_map (λ len. bytes_at (stream_bytes_of msf.now 7) (offset + 14) len) result ≡ name_at (stream_bytes_of msf.now 7) offset }
    ensures small { IfSome result (λ len. offset + 14 + len < 2 ^ 32) }
    ensures there { IfSome result (λ len. offset + 14 + len ≤ length (stream_bytes_of msf.now 7)) }
{
    if !has_bytes(msf, RECORDS_STREAM, offset + 2) {
        return None;
    }
    let size = 2 + u16_in(msf, RECORDS_STREAM, offset) as usize;
    if !has_bytes(msf, RECORDS_STREAM, offset + size) {
        return None;
    }
    first_nul(msf, offset, size)
}

/// How many bytes of a record of so many bytes stand between its fields and the first NUL behind them.
fn first_nul(msf: &Msf<'_>, offset: usize, size: usize) -> Option<usize>
    requires small { offset + size < 2 ^ 32 }
    requires there { offset + size ≤ length (stream_bytes_of msf.now 7) }
    ensures name { option_map (λ len. bytes_at (stream_bytes_of msf.now 7) (offset + 14) len) result ≡ text_at (bytes_at (stream_bytes_of msf.now 7) offset size) 14 }
    ensures within { IfSome result (λ len. 14 + len < size) }
{
    for len in 0..size.saturating_sub(RECORD_HEADER_LEN) {
        if byte_in(msf, RECORDS_STREAM, offset + RECORD_HEADER_LEN + len) == 0 {
            return Some(len);
        }
    }
    None
}

/// Whether the bytes at an offset, of which there are so many, are a name.
fn is_named(msf: &Msf<'_>, at: usize, len: usize, name: &Name<'_>) -> bool
    requires small { at + len < 2 ^ 32 }
    requires there { at + len ≤ length (stream_bytes_of msf.now 7) }
    ensures { result ≡ same_name (bytes_at (stream_bytes_of msf.now 7) at len) name.now }
{
    if len != name.len() {
        return false;
    }
    let prefix = name.prefix();
    is_text(msf, at, prefix) && is_text(msf, at + prefix.len(), name.rest())
}

/// Whether a text stands at an offset.
fn is_text(msf: &Msf<'_>, at: usize, text: &[u8]) -> bool
    requires small { at + length text.now < 2 ^ 32 }
    requires there { at + length text.now ≤ length (stream_bytes_of msf.now 7) }
    ensures { result ≡ same_name (bytes_at (stream_bytes_of msf.now 7) at (length text.now)) text.now }
{
    for index in 0..text.len() {
        if byte_in(msf, RECORDS_STREAM, at + index) != text[index] {
            return false;
        }
    }
    true
}

/// The public of the record at an offset.
#[tactic(auto, unfolding(crate::specs::Lookup::public_at))]
fn public_at(msf: &Msf<'_>, offset: usize) -> Public
    requires { offset + 14 ≤ 2 ^ 32 }
    ensures { result ≡ public_at (stream_bytes_of msf.now 7) offset }
{
    Public {
        section: u16_in(msf, RECORDS_STREAM, offset + 12),
        offset: u32_in(msf, RECORDS_STREAM, offset + 8),
        flags: u32_in(msf, RECORDS_STREAM, offset + 4),
    }
}
