//! What is wrong with an image's headers.

ghost use Rattle.std.specs.Prelude.{◌≡◌, ◌+◌, ◌<◌, ◌≤◌, ◌^◌, IsTrue, length};
ghost use Rattle.link_base.specs.Bytes.{has_bytes};
ghost use Rattle.link_base.specs.PeFormat.{SIZEOF_OPTIONAL_HEADER};
ghost use Rattle.pe_loader.specs.LoadedImage.{dos_header_size, optional_at, has_dos_header, has_signature, has_machine, has_optional_header, has_magic, has_alignments, has_directories, has_size, has_headers, header_fault, optional_fault};

use crate::headers::{
    DOS_HEADER_SIZE, SIGNATURE_SIZE, file_header_at, headers_size, optional_at,
    section_headers_end, signature_at, size_of_image,
};
use link_base::pe_format::{
    DOS_SIGNATURE, FILE_ALIGNMENT, FILE_MACHINE_AMD64, NT_OPTIONAL_HDR64_MAGIC, NT_SIGNATURE,
    NUMBEROF_DIRECTORY_ENTRIES, PAGE_SIZE, SIZEOF_OPTIONAL_HEADER,
};
use link_base::{IMAGE_LIMIT, ImageKind, u16_in, u32_in};

/// What is wrong with the headers of an image, by the first of these tests that fails: they begin with a DOS header that
/// points to a PE signature, the machine is x86-64, the optional header is that of PE32+ and lies in the file, the
/// alignments and the number of directories are those of this linker, the size in memory is within its limit, and the
/// headers with those of the sections lie in the file and in the memory.
#[tactic(auto, unfolding(crate::specs::LoadedImage::header_fault, crate::specs::LoadedImage::optional_fault))]
pub fn header_fault(image: &[u8]) -> Option<ImageKind>
    ensures { result ≡ header_fault image.now }
{
    if !has_dos_header(image) {
        return Some(ImageKind::Dos);
    }
    if !has_signature(image) {
        return Some(ImageKind::Signature);
    }
    if !has_machine(image) {
        return Some(ImageKind::Machine);
    }
    if !has_optional_header(image) {
        return Some(ImageKind::OptionalSize);
    }
    optional_fault(image)
}

/// What is wrong with the optional header, which lies in the file.
#[tactic(auto, unfolding(crate::specs::LoadedImage::optional_fault))]
fn optional_fault(image: &[u8]) -> Option<ImageKind>
    requires dos { dos_header_size ≤ length image.now }
    requires optional { optional_at image.now + SIZEOF_OPTIONAL_HEADER ≤ length image.now }
    ensures { result ≡ optional_fault image.now }
{
    if !has_magic(image) {
        return Some(ImageKind::Magic);
    }
    if !has_alignments(image) {
        return Some(ImageKind::Alignment);
    }
    if !has_directories(image) {
        return Some(ImageKind::Directories);
    }
    if !has_size(image) {
        return Some(ImageKind::ImageSize);
    }
    if !has_headers(image) {
        return Some(ImageKind::Headers);
    }
    None
}

/// Whether that many bytes stand at an offset.
fn fits(image: &[u8], at: usize, count: usize) -> bool
    requires small { at + count < 2 ^ 63 }
    ensures { result ≡ has_bytes image.now at count }
{
    at + count <= image.len()
}

#[tactic(auto, unfolding(crate::specs::LoadedImage::has_dos_header))]
fn has_dos_header(image: &[u8]) -> bool
    ensures test { result ≡ has_dos_header image.now }
    ensures there { IsTrue result → dos_header_size ≤ length image.now }
{
    fits(image, 0, DOS_HEADER_SIZE) && u32::from(u16_in(image, 0)) == DOS_SIGNATURE
}

#[tactic(auto, unfolding(crate::specs::LoadedImage::has_signature))]
fn has_signature(image: &[u8]) -> bool
    requires { dos_header_size ≤ length image.now }
    ensures { result ≡ has_signature image.now }
{
    let at = signature_at(image);
    fits(image, at, SIGNATURE_SIZE) && u32_in(image, at) == NT_SIGNATURE
}

#[tactic(auto, unfolding(crate::specs::LoadedImage::has_machine))]
fn has_machine(image: &[u8]) -> bool
    requires { dos_header_size ≤ length image.now }
    ensures { result ≡ has_machine image.now }
{
    let at = file_header_at(image);
    fits(image, at, 2) && u16_in(image, at) == FILE_MACHINE_AMD64
}

#[tactic(auto, unfolding(crate::specs::LoadedImage::has_optional_header))]
fn has_optional_header(image: &[u8]) -> bool
    requires { dos_header_size ≤ length image.now }
    ensures test { result ≡ has_optional_header image.now }
    ensures there { IsTrue result → optional_at image.now + SIZEOF_OPTIONAL_HEADER ≤ length image.now }
{
    let at = optional_at(image);
    fits(image, at, SIZEOF_OPTIONAL_HEADER as usize)
        && u32::from(u16_in(image, file_header_at(image) + 16)) == SIZEOF_OPTIONAL_HEADER
}

#[tactic(auto, unfolding(crate::specs::LoadedImage::has_magic))]
fn has_magic(image: &[u8]) -> bool
    requires dos { dos_header_size ≤ length image.now }
    requires optional { optional_at image.now + SIZEOF_OPTIONAL_HEADER ≤ length image.now }
    ensures { result ≡ has_magic image.now }
{
    u32::from(u16_in(image, optional_at(image))) == NT_OPTIONAL_HDR64_MAGIC
}

#[tactic(auto, unfolding(crate::specs::LoadedImage::has_alignments))]
fn has_alignments(image: &[u8]) -> bool
    requires dos { dos_header_size ≤ length image.now }
    requires optional { optional_at image.now + SIZEOF_OPTIONAL_HEADER ≤ length image.now }
    ensures { result ≡ has_alignments image.now }
{
    let at = optional_at(image);
    u32_in(image, at + 32) == PAGE_SIZE && u32_in(image, at + 36) == FILE_ALIGNMENT
}

#[tactic(auto, unfolding(crate::specs::LoadedImage::has_directories))]
fn has_directories(image: &[u8]) -> bool
    requires dos { dos_header_size ≤ length image.now }
    requires optional { optional_at image.now + SIZEOF_OPTIONAL_HEADER ≤ length image.now }
    ensures { result ≡ has_directories image.now }
{
    u32_in(image, optional_at(image) + 108) == NUMBEROF_DIRECTORY_ENTRIES
}

#[tactic(auto, unfolding(crate::specs::LoadedImage::has_size))]
fn has_size(image: &[u8]) -> bool
    requires dos { dos_header_size ≤ length image.now }
    requires optional { optional_at image.now + SIZEOF_OPTIONAL_HEADER ≤ length image.now }
    ensures { result ≡ has_size image.now }
{
    let size = size_of_image(image);
    0 < size && size <= IMAGE_LIMIT
}

#[tactic(auto, unfolding(crate::specs::LoadedImage::has_headers))]
fn has_headers(image: &[u8]) -> bool
    requires dos { dos_header_size ≤ length image.now }
    requires optional { optional_at image.now + SIZEOF_OPTIONAL_HEADER ≤ length image.now }
    ensures { result ≡ has_headers image.now }
{
    let size = headers_size(image);
    section_headers_end(image) <= size as usize
        && (size as usize <= image.len() && size <= size_of_image(image))
}
