//! The numbers of fields by their types, in 64 bits. Only those that hold an address look at the base; it cancels in
//! those that count from their own places.

ghost use Rattle.std.specs.Prelude.{◌≡◌, ◌+◌, ◌-◌, ◌≤◌, ℕ, List, pos, negsuc, ◌+ℤ◌, if◌then◌else◌, Some, None, length};
ghost use Rattle.link_base.specs.PeFormat.{REL_AMD64_REL32, REL_AMD64_ADDR64, REL_AMD64_ADDR32, REL_AMD64_ADDR32NB, REL_AMD64_SECTION, REL_AMD64_SECREL};
ghost use Rattle.relocate.specs.Value.{lies_in, held};
ghost use Rattle.relocate.specs.Written.{IsReady, CountsFromPlace, number_in, number_of};

use crate::fix::{Fix, Target};
use crate::parts::{base_under, old_in_four, rva_of, section_number, section_start};
use address_layout::Layout;
use link_base::pe_format::REL_AMD64_REL32;
use link_base::{u16_in, u64_in};

/// ADDR64: the address, modulo the width.
pub(crate) fn addr64_number(
    bytes: &[u8],
    base: u64,
    fix: &Fix,
    layout: &Layout,
    owner: &[u32],
    target: Target,
) -> Option<u64>
    requires ready { IsReady layout.now owner.now fix.now target (length bytes.now) }
    requires kind { fix.now.kind ≡ REL_AMD64_ADDR64 }
    ensures { (rva : ℕ) → result ≡ number_of base rva layout.now owner.now fix.now bytes.now }
{
    let address = base_under(base, target).wrapping_add(rva_of(layout, owner, target));
    Some(address.wrapping_add(u64_in(bytes, fix.at as usize)))
}

/// ADDR32: the low half of the address, where that in an image at the base 0 is below 2 GiB.
pub(crate) fn addr32_number(
    bytes: &[u8],
    base: u64,
    fix: &Fix,
    layout: &Layout,
    owner: &[u32],
    target: Target,
) -> Option<u32>
    requires ready { IsReady layout.now owner.now fix.now target (length bytes.now) }
    requires kind { fix.now.kind ≡ REL_AMD64_ADDR32 }
    ensures { (rva : ℕ) → result ≡ number_of base rva layout.now owner.now fix.now bytes.now }
{
    let old = old_in_four(bytes, fix.at);
    let rva = rva_of(layout, owner, target) as i64;
    low_address(base_under(base, target), rva + old)
}

/// ADDR32NB: the RVA.
pub(crate) fn addr32nb_number(
    bytes: &[u8],
    fix: &Fix,
    layout: &Layout,
    owner: &[u32],
    target: Target,
) -> Option<u32>
    requires ready { IsReady layout.now owner.now fix.now target (length bytes.now) }
    requires kind { fix.now.kind ≡ REL_AMD64_ADDR32NB }
    ensures { (base rva : ℕ) → result ≡ number_of base rva layout.now owner.now fix.now bytes.now }
{
    let old = old_in_four(bytes, fix.at);
    let rva = rva_of(layout, owner, target) as i64;
    unsigned(rva + old)
}

/// REL32 to REL32_5: how far the target is from the place behind the field, or 1 to 5 bytes behind that.
pub(crate) fn rel32_number(
    bytes: &[u8],
    rva: u32,
    fix: &Fix,
    layout: &Layout,
    owner: &[u32],
    target: Target,
) -> Option<u32>
    requires ready { IsReady layout.now owner.now fix.now target (length bytes.now) }
    requires kind { CountsFromPlace fix.now.kind }
    ensures { (base : ℕ) → result ≡ number_of base rva layout.now owner.now fix.now bytes.now }
{
    let old = old_in_four(bytes, fix.at);
    let there = rva_of(layout, owner, target) as i64;
    let place = i64::from(rva) + i64::from(fix.at) + behind(fix.kind);
    signed(there + old - place)
}

/// SECTION: the number of the section.
pub(crate) fn section_number_of(
    bytes: &[u8],
    fix: &Fix,
    layout: &Layout,
    owner: &[u32],
    target: Target,
) -> Option<u16>
    requires ready { IsReady layout.now owner.now fix.now target (length bytes.now) }
    requires kind { fix.now.kind ≡ REL_AMD64_SECTION }
    ensures { (base rva : ℕ) → result ≡ number_of base rva layout.now owner.now fix.now bytes.now }
{
    let old = u16_in(bytes, fix.at as usize);
    two_bytes(section_number(layout, owner, target) + u64::from(old))
}

/// SECREL: how far the target is from the start of its section.
pub(crate) fn secrel_number(
    bytes: &[u8],
    fix: &Fix,
    layout: &Layout,
    owner: &[u32],
    target: Target,
) -> Option<u32>
    requires ready { IsReady layout.now owner.now fix.now target (length bytes.now) }
    requires kind { fix.now.kind ≡ REL_AMD64_SECREL }
    ensures { (base rva : ℕ) → result ≡ number_of base rva layout.now owner.now fix.now bytes.now }
{
    let old = old_in_four(bytes, fix.at);
    let rva = rva_of(layout, owner, target) as i64;
    let start = i64::from(section_start(layout, owner, target));
    unsigned(rva + old - start)
}

/// How far behind a field's first byte the place is that its value counts from.
fn behind(kind: u16) -> i64
    requires { REL_AMD64_REL32 ≤ kind }
    ensures { result ≡ pos (4 + (kind - REL_AMD64_REL32)) }
{
    4 + i64::from(kind - REL_AMD64_REL32)
}

fn two_bytes(value: u64) -> Option<u16>
    ensures { result ≡ number_in 2 (pos 0) (pos 0x1_0000) (pos value) }
{
    if value < 0x1_0000 {
        Some(value as u16)
    } else {
        None
    }
}

fn unsigned(value: i64) -> Option<u32>
    ensures { result ≡ number_in 4 (pos 0) (pos 0x1_0000_0000) value }
{
    if 0 <= value && value < 0x1_0000_0000 {
        Some(value as u32)
    } else {
        None
    }
}

fn signed(value: i64) -> Option<u32>
    ensures { result ≡ number_in 4 (negsuc 0x7FFF_FFFF) (pos 0x8000_0000) value }
{
    if -0x8000_0000 <= value && value < 0x8000_0000 {
        Some(value.rem_euclid(0x1_0000_0000) as u32)
    } else {
        None
    }
}

/// The low half of an address at a base, whose value at the base 0 is judged.
fn low_address(base: u64, value: i64) -> Option<u32>
    ensures { result ≡ (if lies_in (pos 0) (pos 0x8000_0000) value then Some (held 4 (pos base +ℤ value)) else None) }
{
    if 0 <= value && value < 0x8000_0000 {
        Some(((base % 0x1_0000_0000 + value as u64) % 0x1_0000_0000) as u32)
    } else {
        None
    }
}
