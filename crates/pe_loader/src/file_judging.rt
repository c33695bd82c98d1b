//! What is wrong with a file, as far as its headers and the extents of its sections show.

ghost use Rattle.std.specs.Prelude.{◌≡◌, ◌+◌, ◌≤◌, length};
ghost use Rattle.link_base.specs.PeFormat.{SIZEOF_SECTION_HEADER};
ghost use Rattle.pe_loader.specs.LoadedImage.{section_at, section_count, section_floor, is_section_placed, is_section_in_file, has_sections, has_raw_bytes, file_fault};

use crate::headers::{headers_size, section_count, size_of_image};
use crate::judging::header_fault;
use crate::section_header::{SectionHeader, section_header};
use link_base::ImageKind;
use link_base::pe_format::PAGE_SIZE;

/// What is wrong with a file before its base relocations are read: its headers first, then whether each section is
/// page-aligned, above what stands before it and inside the memory, and then whether the raw bytes of each lie in the file.
#[tactic(auto, using(crate::proofs::FaultLemmas::header_table, crate::proofs::FaultLemmas::file_fault_parts))]
pub(crate) fn file_fault(image: &[u8]) -> Option<ImageKind>
    ensures { result ≡ file_fault image.now }
{
    let fault = header_fault(image);
    if fault.is_some() {
        return fault;
    }
    if !has_sections(image) {
        return Some(ImageKind::Sections);
    }
    if !has_raw_bytes(image) {
        return Some(ImageKind::Raw);
    }
    None
}

/// Whether each section stands in the memory, behind what stands before it.
fn has_sections(image: &[u8]) -> bool
    requires { section_at image.now (section_count image.now) ≤ length image.now }
    ensures { result ≡ has_sections image.now }
{
    let mut floor = headers_size(image) as usize;
    for index in 0..usize::from(section_count(image)) {
        if !is_section_placed(image, index, floor) {
            return false;
        }
        floor = section_end(&section_header(image, index));
    }
    true
}

/// Whether a section is page-aligned, at or above the floor, and inside the memory.
fn is_section_placed(image: &[u8], index: usize, floor: usize) -> bool
    requires header { section_at image.now index + SIZEOF_SECTION_HEADER ≤ length image.now }
    requires floor { floor ≡ section_floor image.now index }
    ensures { result ≡ is_section_placed image.now index }
{
    let section = section_header(image, index);
    section.rva % PAGE_SIZE == 0
        && (floor <= section.rva as usize && section_end(&section) <= size_of_image(image) as usize)
}

/// The RVA behind a section.
fn section_end(section: &SectionHeader) -> usize
    ensures { result ≡ section.now.rva + section.now.size }
{
    section.rva as usize + section.size as usize
}

/// Whether the raw bytes of each section lie in the file.
fn has_raw_bytes(image: &[u8]) -> bool
    requires { section_at image.now (section_count image.now) ≤ length image.now }
    ensures { result ≡ has_raw_bytes image.now }
{
    for index in 0..usize::from(section_count(image)) {
        if !is_section_in_file(image, index) {
            return false;
        }
    }
    true
}

/// Whether the raw bytes of a section lie in the file; where there are none, they do.
fn is_section_in_file(image: &[u8], index: usize) -> bool
    requires { section_at image.now index + SIZEOF_SECTION_HEADER ≤ length image.now }
    ensures { result ≡ is_section_in_file image.now index }
{
    let section = section_header(image, index);
    section.raw_size == 0 || section.raw_offset as usize + section.raw_size as usize <= image.len()
}
