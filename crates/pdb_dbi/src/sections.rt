//! The section map: a descriptor for each section of the image.

ghost use Rattle.std.specs.Prelude.{◌≡◌, ◌<◌, ◌≤◌, ◌+◌, ◌*◌, ◌++◌, OnOk, length, if◌then◌else◌};
ghost use Rattle.link_base.specs.Bytes.{has_flag};
ghost use Rattle.std.specs.List.{flat_map, range_with_len};
ghost use Rattle.pdb_dbi.specs.SectionMap.{descriptor_flags, descriptor, section_count, section_descriptor, section_map};
ghost use Rattle.link_base.specs.Limits.{SECTION_LIMIT};
ghost use Rattle.link_base.specs.PeFormat.{SIZEOF_SECTION_HEADER};

use crate::format::{
    DESCRIPTOR_SIZE, SECTION_ABSOLUTE, SECTION_EXECUTE, SECTION_READ, SECTION_SELECTOR,
    SECTION_WRITE,
};
use link_base::pe_format::{SCN_MEM_EXECUTE, SCN_MEM_READ, SCN_MEM_WRITE, SIZEOF_SECTION_HEADER};
use link_base::{LeNumber, Memory, push_fields, u32_in};

/// Where the size in memory stands in the header of a section, and where the flags do.
const SIZE_OFFSET: usize = 8;

const FLAGS_OFFSET: usize = 36;

/// Appends the section map of an image with these headers of sections.
#[tactic(auto, unfolding(crate::specs::SectionMap::section_map))]
pub(crate) fn push_section_map(out: &mut Vec<u8>, headers: &[u8]) -> Result<(), Memory>
    requires { length headers.now ≤ SIZEOF_SECTION_HEADER * SECTION_LIMIT }
    ensures { OnOk result (out.new.items ≡ out.old.items ++ section_map headers.now) }
{
    let count = headers.len() / SIZEOF_SECTION_HEADER;
    let descriptors = count as u16 + 1;
    push_fields(
        out,
        &[LeNumber::U16(descriptors), LeNumber::U16(descriptors)],
    )?;
    push_sections(out, headers, count)?;
    push_descriptor(out, SECTION_ABSOLUTE, descriptors, 0xffff_ffff)
}

/// The bytes of the section map.
#[tactic(auto, using(crate::proofs::SizeLemmas::length_section_map))]
pub(crate) fn section_map_len(headers: &[u8]) -> usize
    requires { length headers.now ≤ SIZEOF_SECTION_HEADER * SECTION_LIMIT }
    ensures { result ≡ length (section_map headers.now) }
{
    4 + DESCRIPTOR_SIZE * (headers.len() / SIZEOF_SECTION_HEADER + 1)
}

/// Appends the descriptors of the first sections.
fn push_sections(out: &mut Vec<u8>, headers: &[u8], count: usize) -> Result<(), Memory>
    requires few { count ≤ SECTION_LIMIT }
    requires there { SIZEOF_SECTION_HEADER * count ≤ length headers.now }
    ensures { OnOk result (out.new.items ≡ out.old.items ++ flat_map (section_descriptor headers.now) (range_with_len 0 count)) }
{
    for index in 0..count {
        push_section(out, headers, index)?;
    }
    Ok(())
}

#[tactic(auto, unfolding(crate::specs::SectionMap::section_descriptor))]
fn push_section(out: &mut Vec<u8>, headers: &[u8], index: usize) -> Result<(), Memory>
    requires few { index < SECTION_LIMIT }
    requires there { SIZEOF_SECTION_HEADER * index + SIZEOF_SECTION_HEADER ≤ length headers.now }
    ensures { OnOk result (out.new.items ≡ out.old.items ++ section_descriptor headers.now index) }
{
    let header = SIZEOF_SECTION_HEADER * index;
    let flags = u32_in(headers, header + FLAGS_OFFSET);
    let size = u32_in(headers, header + SIZE_OFFSET);
    push_descriptor(out, descriptor_flags(flags), index as u16 + 1, size)
}

/// The flags of a section's descriptor, by those of its header.
#[tactic(auto, unfolding(crate::specs::SectionMap::descriptor_flags))]
fn descriptor_flags(flags: u32) -> u16
    ensures { result ≡ descriptor_flags flags }
{
    SECTION_SELECTOR
        + if_set(flags, SCN_MEM_READ, SECTION_READ)
        + if_set(flags, SCN_MEM_WRITE, SECTION_WRITE)
        + if_set(flags, SCN_MEM_EXECUTE, SECTION_EXECUTE)
}

/// The bit, where the flags have one of the mask.
fn if_set(flags: u32, mask: u32, bit: u16) -> u16
    ensures { result ≡ (if has_flag flags mask then bit else 0) }
{
    if flags & mask == 0 { 0 } else { bit }
}

#[tactic(auto, unfolding(crate::specs::SectionMap::descriptor))]
fn push_descriptor(out: &mut Vec<u8>, flags: u16, frame: u16, size: u32) -> Result<(), Memory>
    ensures { OnOk result (out.new.items ≡ out.old.items ++ descriptor flags frame size) }
{
    push_fields(
        out,
        &[
            LeNumber::U16(flags),
            LeNumber::U16(0),
            LeNumber::U16(0),
            LeNumber::U16(frame),
            LeNumber::U16(0xffff),
            LeNumber::U16(0xffff),
            LeNumber::U32(0),
            LeNumber::U32(size),
        ],
    )
}
