//! The hash part of a stream: its records by buckets, and which buckets have records, from which record on (LLVM, "The PDB
//! Public Symbol Stream").

ghost use Rattle.std.specs.Prelude.{◌≡◌, ◌<◌, ◌≤◌, ◌+◌, ◌*◌, ◌^◌, ◌++◌, length, nat_lt, sum, IfOk, OnOk, All};
ghost use Rattle.pdb_publics.specs.PublicOrder.{IsKey};
ghost use Rattle.pdb_publics.specs.PublicStreams.{counts, hash_records, bit_of, bitmap_byte, bitmap, word_of, words, hash_part};

use crate::format::{
    BITMAP_LEN, BUCKET_COUNT, COUNTED_RECORD_LEN, HASH_RECORD_LEN, HASH_SIGNATURE, HASH_VERSION,
};
use crate::keys::HashKey;
use crate::pushing::{push_u32, push_zeros};
use link_base::{LeNumber, Memory, push_fields};
use std::alloc::Global;

/// Appends the hash part of keys that stand in its order.
#[tactic(auto, unfolding(crate::specs::PublicStreams::hash_part))]
pub(crate) fn push_hash_part(
    alloc: Global,
    out: &mut Vec<u8>,
    keys: &[HashKey<'_>],
) -> Result<(), Memory>
    requires keys { All IsKey keys.now }
    requires few { length keys.now ≤ 2 ^ 27 }
    ensures { OnOk result (out.new.items ≡ out.old.items ++ hash_part keys.now) }
{
    let counts = bucket_counts(alloc, keys)?;
    let words = bucket_words(alloc, &counts)?;
    push_fields(
        out,
        &[
            LeNumber::U32(HASH_SIGNATURE),
            LeNumber::U32(HASH_VERSION),
            LeNumber::U32((HASH_RECORD_LEN * keys.len()) as u32),
            LeNumber::U32((BITMAP_LEN + words.len()) as u32),
        ],
    )?;
    push_hash_records(out, keys)?;
    push_bitmap(out, &counts)?;
    out.extend_from_slice(&words)?;
    Ok(())
}

/// Appends a record for each key.
fn push_hash_records(out: &mut Vec<u8>, keys: &[HashKey<'_>]) -> Result<(), Memory>
    requires { All IsKey keys.now }
    ensures { OnOk result (out.new.items ≡ out.old.items ++ hash_records keys.now) }
{
    for key in keys {
        push_u32(out, key.record_offset + 1)?;
        push_u32(out, 1)?;
    }
    Ok(())
}

/// How many keys each bucket has.
fn bucket_counts(alloc: Global, keys: &[HashKey<'_>]) -> Result<Vec<u32>, Memory>
    requires keys { All IsKey keys.now }
    requires few { length keys.now ≤ 2 ^ 27 }
    ensures { IfOk result (λ buckets. buckets.items ≡ counts keys.now) }
{
    let mut counts = Vec::from_elem(alloc, 0, BUCKET_COUNT)?;
    for key in keys {
        counts[key.bucket as usize] += 1;
    }
    Ok(counts)
}

/// For each bucket that has keys the number of its first one, counted by twelve bytes.
fn bucket_words(alloc: Global, counts: &[u32]) -> Result<Vec<u8>, Memory>
    requires few { sum counts.now ≤ 2 ^ 27 }
    requires buckets { length counts.now ≡ 4096 }
    ensures words { IfOk result (λ out. out.items ≡ words 0 counts.now) }
    ensures small { IfOk result (λ out. length out.items ≤ 16384) }
{
    let mut words = Vec::new(alloc);
    let mut first = 0;
    for count in counts {
        push_word(&mut words, first, *count)?;
        first += *count;
    }
    Ok(words)
}

/// Appends the word of a bucket that has so many keys behind the first ones, unless it has none.
fn push_word(words: &mut Vec<u8>, first: u32, count: u32) -> Result<(), Memory>
    requires { first ≤ 2 ^ 27 }
    ensures word { OnOk result (words.new.items ≡ words.old.items ++ word_of first count) }
{
    if count == 0 {
        return Ok(());
    }
    push_fields(words, &[LeNumber::U32(COUNTED_RECORD_LEN as u32 * first)])
}

/// Appends a bit for each bucket, which is set where it has keys, and four bytes more.
#[tactic(auto, unfolding(crate::specs::PublicStreams::bitmap))]
fn push_bitmap(out: &mut Vec<u8>, counts: &[u32]) -> Result<(), Memory>
    requires { length counts.now ≡ 4096 }
    ensures { OnOk result (out.new.items ≡ out.old.items ++ bitmap counts.now) }
{
    for place in 0..BUCKET_COUNT / 8 {
        out.push(bitmap_byte(counts, place))?;
    }
    push_zeros(out, BITMAP_LEN - BUCKET_COUNT / 8)
}

/// The bits of eight buckets, the lowest first.
fn bitmap_byte(counts: &[u32], place: usize) -> u8
    requires { 8 * place + 8 ≤ length counts.now }
    ensures { result ≡ bitmap_byte counts.now place }
{
    let mut byte = 0;
    for bit in 0..8usize {
        byte += bit_of(counts[8 * place + bit], bit);
    }
    byte
}

/// The bit of a bucket that has so many keys.
fn bit_of(count: u32, bit: usize) -> u8
    requires { bit < 8 }
    ensures bit { result ≡ bit_of bit (nat_lt 0 count) }
    ensures most { result ≤ 2 ^ bit }
{
    if count > 0 { 1 << bit } else { 0 }
}
