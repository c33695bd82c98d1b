//! Relocations (PE Format, "COFF Relocations").

ghost use Rattle.std.specs.Prelude.{◌≡◌, ◌≤◌, ◌<◌, ◌+◌, ◌*◌, ◌^◌, ℕ, length, true};
ghost use Rattle.std.specs.Iterator.{YieldsFirst, item_count};
ghost use Rattle.coff_records.specs.SectionHeader.{relocations_offset_in, has_overflow_count_in};
ghost use Rattle.coff_records.specs.Relocations.{relocations_place, relocation_count_in, relocation_at, relocations_from};
ghost use Rattle.coff_records.specs.FileRanges.{relocations_leave, counted_leave};

use crate::file::CoffFile;
use crate::offsets::{RELOCATION_SYMBOL_TABLE_INDEX, RELOCATION_TYPE};
use crate::ranges::leaves_file;
use crate::section_header::SectionHeader;
use link_base::pe_format::SIZEOF_RELOCATION;
use link_base::{u16_in, u32_in};
use std::marker::Model;

/// A field of a section that the linker sets: its offset in the section's bytes, the symbol record that it
/// refers to, and its type.
#[derive(Clone, Copy, Debug, PartialEq, Eq)]
pub struct Relocation {
    pub at: u32,
    pub symbol: u32,
    pub kind: u16,
}

/// How many relocations a section has.
#[tactic(auto, unfolding(crate::specs::Relocations::relocation_count_in))]
pub fn relocation_count(bytes: &[u8], header: &SectionHeader<'_>) -> u32
    requires { has_overflow_count_in header.now ≡ true
        → relocations_offset_in header.now + SIZEOF_RELOCATION ≤ length bytes.now }
    ensures { result ≡ relocation_count_in bytes.now header.now }
{
    if header.has_overflow_count() {
        u32_in(bytes, header.relocations_offset() as usize).saturating_sub(1)
    } else {
        u32::from(header.relocation_field())
    }
}

/// Where the first relocation of a section stands: a record that holds their count is none.
#[tactic(auto, unfolding(crate::specs::Relocations::relocations_place))]
pub fn relocations_place(header: &SectionHeader<'_>) -> usize
    ensures place { result ≡ relocations_place header.now }
    ensures bound { result < 2 ^ 33 }
{
    let start = header.relocations_offset() as usize;
    if header.has_overflow_count() {
        start + SIZEOF_RELOCATION
    } else {
        start
    }
}

/// Whether a section's relocations leave the file, or the record that counts them counts none.
#[tactic(auto, unfolding(crate::specs::FileRanges::relocations_leave))]
pub fn relocations_leave(file: &CoffFile<'_>, header: &SectionHeader<'_>) -> bool
    ensures { result ≡ relocations_leave file.now header.now }
{
    let bytes = file.bytes();
    let start = header.relocations_offset() as usize;
    if header.has_overflow_count() {
        counted_leave(bytes, start)
    } else {
        let count = usize::from(header.relocation_field());
        leaves_file(bytes, start, SIZEOF_RELOCATION * count)
    }
}

/// The same of relocations that a record at the place counts.
#[tactic(auto, unfolding(crate::specs::FileRanges::counted_leave))]
fn counted_leave(bytes: &[u8], start: usize) -> bool
    requires { start < 2 ^ 32 }
    ensures { result ≡ counted_leave bytes.now start }
{
    if leaves_file(bytes, start, SIZEOF_RELOCATION) {
        return true;
    }
    let count = u32_in(bytes, start) as usize;
    count == 0 || leaves_file(bytes, start, SIZEOF_RELOCATION * count)
}

/// The relocation whose record begins at a place.
pub fn relocation_at(bytes: &[u8], place: usize) -> Relocation
    requires { place + SIZEOF_RELOCATION ≤ length bytes.now }
    ensures { result ≡ relocation_at bytes.now place }
{
    Relocation {
        at: u32_in(bytes, place),
        symbol: u32_in(bytes, place + RELOCATION_SYMBOL_TABLE_INDEX),
        kind: u16_in(bytes, place + RELOCATION_TYPE),
    }
}

/// The relocations of a section that are still to come, in the order of their records.
#[derive(Drop)]
pub struct Relocations<'a> {
    bytes: &'a [u8],
    place: usize,
    index: u32,
    left: u32,
}

impl<'a> Model for Relocations<'a> {
    ghost use Rattle.std.specs.Prelude.{List};
    ghost use Rattle.coff_records.specs.declared.relocation.Relocation.{Relocation};
    ghost use Rattle.coff_records.specs.Relocations.{relocations_from, HasRelocations};

    ghost Value = { List Relocation };

    ghost view = { λ it. relocations_from it.bytes.now it.place it.index it.left };

    ghost invariant = { λ it. HasRelocations it.bytes.now it.place it.index it.left };
}

impl<'a> Relocations<'a> {
    /// The relocations that stand one after the other from a place on.
    pub fn from_place(bytes: &'a [u8], place: usize, count: u32) -> Relocations<'a>
        requires { (k : ℕ) → k < count → place + SIZEOF_RELOCATION * k + SIZEOF_RELOCATION ≤ length bytes.now }
        ensures { result ≡ relocations_from bytes.now place 0 count }
    {
        Relocations {
            bytes,
            place,
            index: 0,
            left: count,
        }
    }
}

impl<'a> Iterator for Relocations<'a> {
    type Item = Relocation;

    ghost next_gives = { YieldsFirst (λ relocations. relocations) };

    ghost remaining = { item_count (λ relocations. relocations) };

    fn next(&mut self) -> Option<Relocation> {
        if self.left == 0 {
            return None;
        }
        let relocation = relocation_at(
            self.bytes,
            self.place + SIZEOF_RELOCATION * self.index as usize,
        );
        self.index += 1;
        self.left -= 1;
        Some(relocation)
    }
}
