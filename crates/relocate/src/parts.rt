//! What a field is computed from.

ghost use Rattle.std.specs.Prelude.{◌≡◌, ◌+◌, ◌≤◌, ◌<◌, ◌^◌, ℕ, length};
ghost use Rattle.std.specs.Int.{w32, cast_signed};
ghost use Rattle.link_base.specs.Bytes.{number_at};
ghost use Rattle.address_layout.specs.declared.layout.Layout.{Layout};
ghost use Rattle.relocate.specs.Field.{field_width};
ghost use Rattle.relocate.specs.Value.{target_of, address_of, section_number, section_start, old_number, AreSmall, IsSmall, parts_of, HasEntry};
ghost use Rattle.relocate.specs.Written.{IsMeant, IsNear};

use crate::fix::{Fix, Target};
use crate::value::Parts;
use address_layout::Layout;
use link_base::pe_format::{REL_AMD64_ADDR64, REL_AMD64_SECTION};
use link_base::{u16_in, u32_in, u64_in};

pub(crate) fn target_of(fix: &Fix) -> Target
    requires { IsMeant fix.now.target }
    ensures { result ≡ target_of fix.now }
{
    match fix.target {
        Some(Ok(target)) => target,
        _ => unreachable!(),
    }
}

/// What the address of a target in an image at a base has of the base: all of it, or nothing.
pub(crate) fn base_under(base: u64, target: Target) -> u64
    ensures { (layout : Layout) → address_of base layout target ≡ result + address_of 0 layout target }
{
    match target {
        Target::Absolute(_) => 0,
        _ => base,
    }
}

/// The address of a target in an image at the base 0.
pub(crate) fn rva_of(layout: &Layout, owner: &[u32], target: Target) -> u64
    requires { HasEntry layout.now owner.now target }
    ensures value { result ≡ address_of 0 layout.now target }
    ensures small { result < 2 ^ 33 }
{
    match target {
        Target::Piece { piece, value } => {
            u64::from(layout.pieces[piece as usize]) + u64::from(value)
        }
        Target::Absolute(value) => u64::from(value),
        Target::ImageBase => 0,
    }
}

/// The number of a target's section, from 1 on.
pub(crate) fn section_number(layout: &Layout, owner: &[u32], target: Target) -> u64
    requires { HasEntry layout.now owner.now target }
    ensures value { result ≡ section_number owner.now target }
    ensures small { result < 2 ^ 33 }
{
    match target {
        Target::Piece { piece, .. } => u64::from(owner[piece as usize]) + 1,
        _ => 0,
    }
}

/// The RVA that a target's section begins at.
pub(crate) fn section_start(layout: &Layout, owner: &[u32], target: Target) -> u32
    requires { HasEntry layout.now owner.now target }
    ensures { result ≡ section_start layout.now owner.now target }
{
    match target {
        Target::Piece { piece, .. } => layout.sections[owner[piece as usize] as usize].rva,
        _ => 0,
    }
}

/// The old contents of a field of four bytes.
pub(crate) fn old_in_four(bytes: &[u8], at: u32) -> i64
    requires { at + 4 ≤ length bytes.now }
    ensures value { result ≡ cast_signed w32 (number_at 4 bytes.now at) }
    ensures near { IsNear result }
{
    i64::from(u32_in(bytes, at as usize).cast_signed())
}

/// The old contents of a field: signed, and for SECTION unsigned.
#[tactic(auto, unfolding(crate::specs::Value::old_number, crate::specs::Field::field_width))]
fn old_number(bytes: &[u8], fix: &Fix) -> i128
    requires some { 0 < field_width fix.now.kind }
    requires within { fix.now.at + field_width fix.now.kind ≤ length bytes.now }
    ensures value { result ≡ old_number fix.now.kind (number_at (field_width fix.now.kind) bytes.now fix.now.at) }
    ensures small { IsSmall result }
{
    let at = fix.at as usize;
    if fix.kind == REL_AMD64_SECTION {
        i128::from(u16_in(bytes, at))
    } else if fix.kind == REL_AMD64_ADDR64 {
        i128::from(u64_in(bytes, at).cast_signed())
    } else {
        i128::from(u32_in(bytes, at).cast_signed())
    }
}

/// What a field of bytes that stand at an RVA is computed from.
#[tactic(auto, unfolding(crate::specs::Value::parts_of))]
pub(crate) fn parts_of(
    base: u64,
    rva: u32,
    layout: &Layout,
    owner: &[u32],
    bytes: &[u8],
    fix: &Fix,
) -> Parts
    requires some { 0 < field_width fix.now.kind }
    requires within { fix.now.at + field_width fix.now.kind ≤ length bytes.now }
    requires meant { IsMeant fix.now.target }
    requires entry { HasEntry layout.now owner.now (target_of fix.now) }
    ensures value { result ≡ parts_of base rva layout.now owner.now bytes.now fix.now }
    ensures small { AreSmall result }
{
    let target = target_of(fix);
    let rva_there = rva_of(layout, owner, target);
    Parts {
        address: i128::from(base_under(base, target)) + i128::from(rva_there),
        rva: i128::from(rva_there),
        number: i128::from(section_number(layout, owner, target)),
        start: i128::from(section_start(layout, owner, target)),
        old: old_number(bytes, fix),
        place: i128::from(base) + i128::from(rva) + i128::from(fix.at),
    }
}
