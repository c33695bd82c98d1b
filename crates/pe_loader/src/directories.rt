//! The data directories and the sections that the headers of a file name, each an RVA and a size in memory.

ghost use Rattle.std.specs.Prelude.{◌≡◌, ◌+◌, ◌<◌, ◌≤◌, ℕ, length, map, slice_index_or, IfOk};
ghost use Rattle.std.specs.List.{range_with_len};
ghost use Rattle.link_base.specs.PeFormat.{SIZEOF_OPTIONAL_HEADER};
ghost use Rattle.pe_loader.specs.LoadedImage.{dos_header_size, optional_at, section_at, section_count};
ghost use Rattle.pe_loader.specs.Extents.{directory_extent, section_extent};

use crate::headers::{optional_at, section_count};
use crate::section_header::section_header;
use link_base::{Memory, u32_in};
use std::alloc::Global;

/// A data directory.
#[tactic(auto, unfolding(crate::specs::LoadedImage::directory_rva, crate::specs::LoadedImage::directory_size))]
pub(crate) fn directory(image: &[u8], k: usize) -> (u32, u32)
    requires dos { dos_header_size ≤ length image.now }
    requires optional { optional_at image.now + SIZEOF_OPTIONAL_HEADER ≤ length image.now }
    requires number { k < 16 }
    ensures { result ≡ directory_extent image.now k }
{
    let at = optional_at(image) + 8 * k;
    (u32_in(image, at + 112), u32_in(image, at + 116))
}

/// The data directories.
pub(crate) fn directories(image: &[u8]) -> [(u32, u32); 16]
    requires dos { dos_header_size ≤ length image.now }
    requires optional { optional_at image.now + SIZEOF_OPTIONAL_HEADER ≤ length image.now }
    ensures { (k : ℕ) → k < 16 → slice_index_or result k (0, 0) ≡ directory_extent image.now k }
{
    let mut found = [(0, 0); 16];
    for k in 0..16 {
        found[k] = directory(image, k);
    }
    found
}

/// The sections.
pub(crate) fn sections(alloc: Global, image: &[u8]) -> Result<Vec<(u32, u32)>, Memory>
    requires { section_at image.now (section_count image.now) ≤ length image.now }
    ensures { IfOk result (λ found. found.items ≡ map (section_extent image.now) (range_with_len 0 (section_count image.now))) }
{
    let count = usize::from(section_count(image));
    let mut found = Vec::with_capacity(alloc, count)?;
    for index in 0..count {
        let section = section_header(image, index);
        found.push((section.rva, section.size))?;
    }
    Ok(found)
}
