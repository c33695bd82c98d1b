//! The hash part of the stream of publics as it is read: which buckets have records, and which records are those of a bucket.

ghost use Rattle.std.specs.Prelude.{◌≡◌, ◌<◌, ◌≤◌, ◌+◌, ◌*◌, ◌^◌, IsTrue, IfSome, true, false, MatchOption};
ghost use Rattle.link_base.specs.Bytes.{u32_at};
ghost use Rattle.pdb_publics.specs.Lookup.{stream_bytes_of, hash_len, map_len, records_len, tables_len, fills, has_parts, is_set, has_bucket, passing, word_number, word, is_word, first_record, has_next, end_record, has_end, has_range, IsRange, hash_entry};

use crate::format::{
    BITMAP_BITS, BITMAP_LEN, COUNTED_RECORD_LEN, HASH_HEADER_LEN, HASH_LEN_AT, HASH_RECORD_LEN,
    MAP_LEN_AT, PUBLICS_HEADER_LEN, PUBLICS_STREAM, RECORDS_LEN_AT, TABLES_LEN_AT,
};
use crate::stream::{byte_in, has_bytes, u32_in};
use pdb_msf::Msf;

/// Whether the parts lie in the stream.
#[tactic(auto, unfolding(crate::specs::Lookup::has_parts, crate::specs::Lookup::hash_len, crate::specs::Lookup::map_len))]
pub(crate) fn has_parts(msf: &Msf<'_>) -> bool
    ensures parts { result ≡ has_parts (stream_bytes_of msf.now 6) }
    ensures small { IsTrue result → 44 + records_len (stream_bytes_of msf.now 6) + tables_len (stream_bytes_of msf.now 6) < 2 ^ 32 }
    ensures bitmap { IsTrue result → 516 ≤ tables_len (stream_bytes_of msf.now 6) }
{
    if !has_bytes(msf, PUBLICS_STREAM, PUBLICS_HEADER_LEN) {
        return false;
    }
    let hash_len = len_at(msf, HASH_LEN_AT);
    if !has_bytes(
        msf,
        PUBLICS_STREAM,
        PUBLICS_HEADER_LEN + hash_len + len_at(msf, MAP_LEN_AT),
    ) {
        return false;
    }
    HASH_HEADER_LEN <= hash_len && fills(msf, hash_len)
}

/// Whether the records, the bitmap and the words lie in a hash part of so many bytes.
#[tactic(auto, unfolding(crate::specs::Lookup::fills, crate::specs::Lookup::records_len, crate::specs::Lookup::tables_len))]
fn fills(msf: &Msf<'_>, len: usize) -> bool
    requires { len ≡ hash_len (stream_bytes_of msf.now 6) }
    ensures fills { result ≡ fills (stream_bytes_of msf.now 6) }
    ensures inside { IsTrue result → 16 + records_len (stream_bytes_of msf.now 6) + tables_len (stream_bytes_of msf.now 6) ≤ len }
    ensures bitmap { IsTrue result → 516 ≤ tables_len (stream_bytes_of msf.now 6) }
{
    let tables = len_at(msf, TABLES_LEN_AT);
    HASH_HEADER_LEN + len_at(msf, RECORDS_LEN_AT) + tables <= len && BITMAP_LEN <= tables
}

/// A length that the stream of publics holds at an offset.
fn len_at(msf: &Msf<'_>, at: usize) -> usize
    requires { at + 4 ≤ 2 ^ 32 }
    ensures len { result ≡ u32_at (stream_bytes_of msf.now 6) at }
    ensures small { result < 2 ^ 32 }
{
    u32_in(msf, PUBLICS_STREAM, at) as usize
}

/// Where the bitmap begins.
#[tactic(auto, unfolding(crate::specs::Lookup::records_len))]
fn bitmap_at(msf: &Msf<'_>) -> usize
    ensures at { result ≡ 44 + records_len (stream_bytes_of msf.now 6) }
    ensures small { result < 2 ^ 33 }
{
    PUBLICS_HEADER_LEN + HASH_HEADER_LEN + len_at(msf, RECORDS_LEN_AT)
}

/// Whether the bucket's bit is set.
#[tactic(auto, unfolding(crate::specs::Lookup::has_bucket))]
pub(crate) fn has_bucket(msf: &Msf<'_>, bucket: usize) -> bool
    requires small { 44 + records_len (stream_bytes_of msf.now 6) + 516 < 2 ^ 32 }
    requires bucket { bucket < 4128 }
    ensures { result ≡ has_bucket (stream_bytes_of msf.now 6) bucket }
{
    is_set(
        byte_in(msf, PUBLICS_STREAM, bitmap_at(msf) + bucket / 8),
        bucket % 8,
    )
}

/// Whether a bit of a byte is set, the lowest being the first.
fn is_set(byte: u8, bit: usize) -> bool
    requires { bit < 8 }
    ensures { result ≡ is_set byte bit }
{
    byte / (1u8 << bit) % 2 == 1
}

/// How many of the lowest bits of a byte are set.
fn set_in_byte(byte: u8, bits: usize) -> usize
    requires { bits ≤ 8 }
    ensures count { result ≡ passing bits (is_set byte) }
    ensures most { result ≤ 8 }
{
    let mut count = 0;
    for bit in 0..bits {
        count += usize::from(is_set(byte, bit));
    }
    count
}

/// How many of the first bits of the bitmap are set.
fn set_below(msf: &Msf<'_>, bits: usize) -> usize
    requires small { 44 + records_len (stream_bytes_of msf.now 6) + 516 < 2 ^ 32 }
    requires bits { bits ≤ 4128 }
    ensures count { result ≡ passing bits (has_bucket (stream_bytes_of msf.now 6)) }
    ensures most { result ≤ 4136 }
{
    let start = bitmap_at(msf);
    let mut count = 0;
    for index in 0..bits / 8 {
        count += set_in_byte(byte_in(msf, PUBLICS_STREAM, start + index), 8);
    }
    count + set_in_byte(byte_in(msf, PUBLICS_STREAM, start + bits / 8), bits % 8)
}

/// The word of a bucket, by the number of set bits before the bucket's.
#[tactic(auto, unfolding(crate::specs::Lookup::word))]
fn word(msf: &Msf<'_>, number: usize) -> usize
    requires { 44 + records_len (stream_bytes_of msf.now 6) + 516 + 4 * number + 4 ≤ 2 ^ 32 }
    ensures word { result ≡ word (stream_bytes_of msf.now 6) number }
    ensures small { result < 2 ^ 32 }
{
    u32_in(
        msf,
        PUBLICS_STREAM,
        bitmap_at(msf) + BITMAP_LEN + 4 * number,
    ) as usize
}

/// Whether a word is there and counts records.
#[tactic(auto, unfolding(crate::specs::Lookup::is_word, crate::specs::Lookup::tables_len))]
fn is_word(msf: &Msf<'_>, number: usize) -> bool
    requires small { 44 + records_len (stream_bytes_of msf.now 6) + tables_len (stream_bytes_of msf.now 6) < 2 ^ 32 }
    requires number { number < 2 ^ 32 }
    ensures word { result ≡ is_word (stream_bytes_of msf.now 6) number }
    ensures there { IsTrue result → 516 + 4 * number + 4 ≤ tables_len (stream_bytes_of msf.now 6) }
{
    if BITMAP_LEN + 4 * number + 4 > len_at(msf, TABLES_LEN_AT) {
        return false;
    }
    word(msf, number) % COUNTED_RECORD_LEN == 0
}

/// The records of a bucket whose bit is set: the first of them, and the one behind the last. None where its words or the
/// records are not there.
pub(crate) fn bucket_range(msf: &Msf<'_>, bucket: usize) -> Option<(usize, usize)>
    requires small { 44 + records_len (stream_bytes_of msf.now 6) + tables_len (stream_bytes_of msf.now 6) < 2 ^ 32 }
    requires bitmap { 516 ≤ tables_len (stream_bytes_of msf.now 6) }
    requires bucket { bucket < 4096 }
    ensures { MatchOption result
        (has_range (stream_bytes_of msf.now 6) (word_number (stream_bytes_of msf.now 6) bucket) ≡ false)
        (IsRange (stream_bytes_of msf.now 6) (word_number (stream_bytes_of msf.now 6) bucket)) }
{
    let number = set_below(msf, bucket);
    if !is_word(msf, number) {
        return None;
    }
    let first = word(msf, number) / COUNTED_RECORD_LEN;
    let Some(end) = end_record(msf, number) else {
        return None;
    };
    if first > end {
        return None;
    }
    if HASH_RECORD_LEN * end > len_at(msf, RECORDS_LEN_AT) {
        return None;
    }
    Some((first, end))
}

/// Where the records of the bucket with such a word end.
fn end_record(msf: &Msf<'_>, number: usize) -> Option<usize>
    requires small { 44 + records_len (stream_bytes_of msf.now 6) + tables_len (stream_bytes_of msf.now 6) < 2 ^ 32 }
    requires bitmap { 516 ≤ tables_len (stream_bytes_of msf.now 6) }
    requires number { number ≤ 4136 }
    ensures small { IfSome result (λ end. end < 2 ^ 32) }
    ensures end { MatchOption result
        (has_end (stream_bytes_of msf.now 6) number ≡ false)
        (λ end. (has_end (stream_bytes_of msf.now 6) number ≡ true) × (end ≡ end_record (stream_bytes_of msf.now 6) number)) }
{
    if number + 1 >= set_below(msf, BITMAP_BITS) {
        return Some(len_at(msf, RECORDS_LEN_AT) / HASH_RECORD_LEN);
    }
    if !is_word(msf, number + 1) {
        return None;
    }
    Some(word(msf, number + 1) / COUNTED_RECORD_LEN)
}

/// What a record of the hash part holds: the offset of a symbol record, and one more.
#[tactic(auto, unfolding(crate::specs::Lookup::hash_entry))]
pub(crate) fn hash_entry(msf: &Msf<'_>, index: usize) -> u32
    requires { 44 + 8 * index + 4 ≤ 2 ^ 32 }
    ensures { result ≡ hash_entry (stream_bytes_of msf.now 6) index }
{
    u32_in(
        msf,
        PUBLICS_STREAM,
        PUBLICS_HEADER_LEN + HASH_HEADER_LEN + HASH_RECORD_LEN * index,
    )
}
