//! The header of a section, and its bytes in the file.

ghost use Rattle.std.specs.Prelude.{◌≡◌, ◌+◌, ◌≤◌, true, length};
ghost use Rattle.link_base.specs.Bytes.{bytes_at};
ghost use Rattle.link_base.specs.PeFormat.{SIZEOF_SECTION_HEADER};
ghost use Rattle.pe_loader.specs.LoadedImage.{section_at, virtual_size, virtual_address, raw_size, raw_offset, copied_len, is_section_in_file};

use crate::headers::optional_at;
use link_base::pe_format::{SIZEOF_OPTIONAL_HEADER, SIZEOF_SECTION_HEADER};
use link_base::{slice_in, u32_in};
use std::cmp::min;

/// What the header of a section says of its place: its RVA and size in memory, and the offset and size of its raw bytes in
/// the file (PE Format, "Section Table (Section Headers)").
#[derive(Clone, Copy)]
pub(crate) struct SectionHeader {
    pub size: u32,
    pub rva: u32,
    pub raw_size: u32,
    pub raw_offset: u32,
}

/// The header of a section, by its index from 0.
#[tactic(auto, unfolding(crate::specs::LoadedImage::virtual_size, crate::specs::LoadedImage::virtual_address, crate::specs::LoadedImage::raw_size, crate::specs::LoadedImage::raw_offset))]
pub(crate) fn section_header(image: &[u8], index: usize) -> SectionHeader
    requires { section_at image.now index + SIZEOF_SECTION_HEADER ≤ length image.now }
    ensures size { result.size ≡ virtual_size image.now index }
    ensures rva { result.rva ≡ virtual_address image.now index }
    ensures raw_size { result.raw_size ≡ raw_size image.now index }
    ensures raw_offset { result.raw_offset ≡ raw_offset image.now index }
{
    let at = optional_at(image) + SIZEOF_OPTIONAL_HEADER as usize + SIZEOF_SECTION_HEADER * index;
    SectionHeader {
        size: u32_in(image, at + 8),
        rva: u32_in(image, at + 12),
        raw_size: u32_in(image, at + 16),
        raw_offset: u32_in(image, at + 20),
    }
}

/// The bytes that a section has in the file, and no more of them than it has in memory.
pub(crate) fn section_bytes(image: &[u8], index: usize) -> &[u8]
    requires header { section_at image.now index + SIZEOF_SECTION_HEADER ≤ length image.now }
    requires bytes { is_section_in_file image.now index ≡ true }
    ensures part { result.now ≡ bytes_at image.now (raw_offset image.now index) (copied_len image.now index) }
    ensures len { length result.now ≡ copied_len image.now index }
{
    let section = section_header(image, index);
    let len = min(section.raw_size, section.size);
    if len == 0 {
        return &[];
    }
    slice_in(image, section.raw_offset as usize, len as usize)
}
