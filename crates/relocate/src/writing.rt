//! One field, patched.

ghost use Rattle.std.specs.Prelude.{◌≡◌, ◌+◌, ◌≤◌, ◌<◌, length, is_some};
ghost use Rattle.std.specs.Bool.{MatchBool};
ghost use Rattle.relocate.specs.Field.{field_width, field_end};
ghost use Rattle.relocate.specs.Judged.{IsPatchable};
ghost use Rattle.relocate.specs.Value.{HasEntry, target_of, value_of, fits};
ghost use Rattle.relocate.specs.Written.{IsMeant, CountsFromPlace, CountsElsewhere, patched_by, one_patched, value_outside};

use crate::fix::Fix;
use crate::number::{
    addr32_number, addr32nb_number, addr64_number, rel32_number, secrel_number, section_number_of,
};
use crate::parts::{parts_of, target_of};
use crate::value::field_value;
use address_layout::Layout;
use byteorder::{ByteOrder, LittleEndian};
use link_base::pe_format::{
    REL_AMD64_ADDR32, REL_AMD64_ADDR32NB, REL_AMD64_ADDR64, REL_AMD64_REL32, REL_AMD64_REL32_5,
    REL_AMD64_SECTION,
};

/// Patches a field, or leaves it and gives its value where this is out of range.
pub(crate) fn patch_field(
    bytes: &mut [u8],
    rva: u32,
    base: u64,
    fix: &Fix,
    layout: &Layout,
    owner: &[u32],
) -> Option<i128>
    requires patchable { IsPatchable (length bytes.old) fix.now }
    requires entry { HasEntry layout.now owner.now (target_of fix.now) }
    ensures outside { result ≡ value_outside base rva layout.now owner.now fix.now bytes.old }
    ensures patched { bytes.new ≡ one_patched base rva layout.now owner.now fix.now bytes.old }
{
    if patch_in_range(bytes, rva, base, fix, layout, owner) {
        return None;
    }
    Some(value_of(bytes, rva, base, fix, layout, owner))
}

/// Patches a field whose value is in the range of its type, and says whether it is.
fn patch_in_range(
    bytes: &mut [u8],
    rva: u32,
    base: u64,
    fix: &Fix,
    layout: &Layout,
    owner: &[u32],
) -> bool
    requires patchable { IsPatchable (length bytes.old) fix.now }
    requires entry { HasEntry layout.now owner.now (target_of fix.now) }
    ensures fits { result ≡ fits base rva layout.now owner.now bytes.old fix.now }
    ensures patched { bytes.new ≡ one_patched base rva layout.now owner.now fix.now bytes.old }
{
    let target = target_of(fix);
    if counts_from_place(fix.kind) {
        let number = rel32_number(bytes, rva, fix, layout, owner, target);
        return write_four(bytes, fix, number);
    }
    if fix.kind == REL_AMD64_ADDR64 {
        let number = addr64_number(bytes, base, fix, layout, owner, target);
        return write_eight(bytes, fix, number);
    }
    if fix.kind == REL_AMD64_ADDR32 {
        let number = addr32_number(bytes, base, fix, layout, owner, target);
        return write_four(bytes, fix, number);
    }
    if fix.kind == REL_AMD64_ADDR32NB {
        let number = addr32nb_number(bytes, fix, layout, owner, target);
        return write_four(bytes, fix, number);
    }
    if fix.kind == REL_AMD64_SECTION {
        let number = section_number_of(bytes, fix, layout, owner, target);
        return write_two(bytes, fix, number);
    }
    let number = secrel_number(bytes, fix, layout, owner, target);
    write_four(bytes, fix, number)
}

fn counts_from_place(kind: u16) -> bool
    ensures { MatchBool result (CountsFromPlace kind) (CountsElsewhere kind) }
{
    REL_AMD64_REL32 <= kind && kind <= REL_AMD64_REL32_5
}

/// The value of a field in full, which is shown where it is out of range.
#[cold]
fn value_of(bytes: &[u8], rva: u32, base: u64, fix: &Fix, layout: &Layout, owner: &[u32]) -> i128
    requires some { 0 < field_width fix.now.kind }
    requires within { field_end fix.now ≤ length bytes.now }
    requires meant { IsMeant fix.now.target }
    requires entry { HasEntry layout.now owner.now (target_of fix.now) }
    ensures { result ≡ value_of base rva layout.now owner.now bytes.now fix.now }
{
    field_value(fix.kind, &parts_of(base, rva, layout, owner, bytes, fix))
}

/// Writes a number, where there is one, in a field of two bytes.
fn write_two(bytes: &mut [u8], fix: &Fix, number: Option<u16>) -> bool
    requires width { field_width fix.now.kind ≡ 2 }
    requires within { fix.now.at + 2 ≤ length bytes.old }
    ensures some { result ≡ is_some number }
    ensures bytes { bytes.new ≡ patched_by bytes.old fix.now number }
{
    let Some(number) = number else {
        return false;
    };
    let (_, rest) = bytes.split_at_mut(fix.at as usize);
    LittleEndian::write_u16(rest, number);
    true
}

/// The same in a field of four bytes.
fn write_four(bytes: &mut [u8], fix: &Fix, number: Option<u32>) -> bool
    requires width { field_width fix.now.kind ≡ 4 }
    requires within { fix.now.at + 4 ≤ length bytes.old }
    ensures some { result ≡ is_some number }
    ensures bytes { bytes.new ≡ patched_by bytes.old fix.now number }
{
    let Some(number) = number else {
        return false;
    };
    let (_, rest) = bytes.split_at_mut(fix.at as usize);
    LittleEndian::write_u32(rest, number);
    true
}

/// The same in a field of eight bytes.
fn write_eight(bytes: &mut [u8], fix: &Fix, number: Option<u64>) -> bool
    requires width { field_width fix.now.kind ≡ 8 }
    requires within { fix.now.at + 8 ≤ length bytes.old }
    ensures some { result ≡ is_some number }
    ensures bytes { bytes.new ≡ patched_by bytes.old fix.now number }
{
    let Some(number) = number else {
        return false;
    };
    let (_, rest) = bytes.split_at_mut(fix.at as usize);
    LittleEndian::write_u64(rest, number);
    true
}
