//! The bucket of a name (LLVM, "The PDB Public Symbol Stream").

ghost use Rattle.std.specs.Prelude.{◌≡◌, ◌<◌, ◌++◌, length};
ghost use Rattle.link_base.specs.NameText.{import_prefix};
ghost use Rattle.pdb_publics.specs.NameHash.{mix, bucket_of, bucket};

use crate::format::BUCKET_COUNT;
use link_base::{Name, u16_in, u32_in};

/// The bucket of a name: a number below 4,096.
pub fn bucket(name: Name<'_>) -> u32
    ensures bucket { result ≡ bucket name.entry }
    ensures below { result < 4096 }
{
    let mixed = if name.is_import() {
        mix_import(name.rest())
    } else {
        mix(name.rest())
    };
    bucket_of(mixed)
}

/// The bucket that a name's mixed bytes give.
#[tactic(auto, unfolding(crate::specs::NameHash::folded, crate::specs::NameHash::hash_of))]
fn bucket_of(mixed: u32) -> u32
    ensures bucket { result ≡ bucket_of mixed }
    ensures below { result < 4096 }
{
    let lowered = mixed | 0x2020_2020;
    let folded = lowered ^ (lowered >> 11);
    (folded ^ (folded >> 16)) % BUCKET_COUNT as u32
}

/// The numbers of four bytes of a text, and what is left of it, mixed.
fn mix(text: &[u8]) -> u32
    ensures { result ≡ mix text.now }
{
    let mut mixed = 0;
    let mut rest = text;
    while rest.len() >= 4 {
        mixed ^= u32_in(rest, 0);
        let (_, others) = rest.split_at(4);
        rest = others;
    }
    mixed ^ mix_last(rest)
}

/// What is left of a text behind its last four bytes, mixed.
fn mix_last(rest: &[u8]) -> u32
    requires { length rest.now < 4 }
    ensures { result ≡ mix rest.now }
{
    if rest.is_empty() {
        return 0;
    }
    if rest.len() == 1 {
        return u32::from(rest[0]);
    }
    let pair = u32::from(u16_in(rest, 0));
    if rest.len() == 2 {
        return pair;
    }
    pair ^ u32::from(rest[2])
}

/// The same of `__imp_` and a text.
fn mix_import(rest: &[u8]) -> u32
    ensures { result ≡ mix (import_prefix ++ rest.now) }
{
    // `__im`, and `p_` with the two bytes behind it.
    let first = 0x6d69_5f5f;
    let second = 0x5f70;
    if rest.len() < 2 {
        return first ^ (second ^ mix_last(rest));
    }
    let (_, others) = rest.split_at(2);
    first ^ ((second + 0x1_0000 * u32::from(u16_in(rest, 0))) ^ mix(others))
}
