//! The fields of an image's headers that decide how it loads, read where they are known to be there.

ghost use Rattle.std.specs.Prelude.{◌≡◌, ◌+◌, ◌*◌, ◌<◌, ◌≤◌, ◌^◌, length};
ghost use Rattle.link_base.specs.PeFormat.{SIZEOF_OPTIONAL_HEADER, SIZEOF_SECTION_HEADER};
ghost use Rattle.pe_loader.specs.LoadedImage.{dos_header_size, signature_at, file_header_at, optional_at, section_at, section_count, image_base, size_of_image, headers_size, base_rule};

use address_layout::BaseRule;
use link_base::pe_format::{
    FILE_LARGE_ADDRESS_AWARE, FILE_RELOCS_STRIPPED, PE_HEADER_OFFSET, SIZEOF_FILE_HEADER,
    SIZEOF_OPTIONAL_HEADER, SIZEOF_SECTION_HEADER,
};
use link_base::{u16_in, u32_in, u64_in};

/// The length of the DOS header.
pub(crate) const DOS_HEADER_SIZE: usize = PE_HEADER_OFFSET as usize;

/// Where the DOS header says at which offset the PE signature stands.
const PE_OFFSET_AT: usize = 60;

/// The length of the PE signature, which the file header follows.
pub(crate) const SIGNATURE_SIZE: usize = 4;

/// Where the PE signature stands, by the DOS header.
#[tactic(auto, unfolding(crate::specs::LoadedImage::signature_at))]
pub(crate) fn signature_at(image: &[u8]) -> usize
    requires { dos_header_size ≤ length image.now }
    ensures place { result ≡ signature_at image.now }
    ensures small { result < 2 ^ 32 }
{
    u32_in(image, PE_OFFSET_AT) as usize
}

/// Where the file header begins.
pub(crate) fn file_header_at(image: &[u8]) -> usize
    requires { dos_header_size ≤ length image.now }
    ensures place { result ≡ file_header_at image.now }
    ensures small { result < 2 ^ 33 }
{
    signature_at(image) + SIGNATURE_SIZE
}

/// Where the optional header begins.
pub(crate) fn optional_at(image: &[u8]) -> usize
    requires { dos_header_size ≤ length image.now }
    ensures place { result ≡ optional_at image.now }
    ensures small { result < 2 ^ 34 }
{
    file_header_at(image) + SIZEOF_FILE_HEADER
}

/// The number of sections.
#[tactic(auto, unfolding(crate::specs::LoadedImage::section_count))]
pub(crate) fn section_count(image: &[u8]) -> u16
    requires dos { dos_header_size ≤ length image.now }
    requires optional { optional_at image.now + SIZEOF_OPTIONAL_HEADER ≤ length image.now }
    ensures { result ≡ section_count image.now }
{
    u16_in(image, file_header_at(image) + 2)
}

/// What the headers say of the base: which one the image prefers, whether it can stand at no other, and whether it may
/// stand above 2 GiB.
#[tactic(auto, unfolding(crate::specs::LoadedImage::image_base, crate::specs::LoadedImage::file_characteristics))]
pub(crate) fn base_rule(image: &[u8]) -> BaseRule
    requires dos { dos_header_size ≤ length image.now }
    requires optional { optional_at image.now + SIZEOF_OPTIONAL_HEADER ≤ length image.now }
    ensures { result ≡ base_rule image.now }
{
    let flags = u16_in(image, file_header_at(image) + 18);
    BaseRule {
        base: u64_in(image, optional_at(image) + 24),
        fixed: flags & FILE_RELOCS_STRIPPED != 0,
        large: flags & FILE_LARGE_ADDRESS_AWARE != 0,
    }
}

/// The size of the image in memory.
#[tactic(auto, unfolding(crate::specs::LoadedImage::size_of_image))]
pub(crate) fn size_of_image(image: &[u8]) -> u32
    requires dos { dos_header_size ≤ length image.now }
    requires optional { optional_at image.now + SIZEOF_OPTIONAL_HEADER ≤ length image.now }
    ensures { result ≡ size_of_image image.now }
{
    u32_in(image, optional_at(image) + 56)
}

/// The length of the headers.
#[tactic(auto, unfolding(crate::specs::LoadedImage::headers_size))]
pub(crate) fn headers_size(image: &[u8]) -> u32
    requires dos { dos_header_size ≤ length image.now }
    requires optional { optional_at image.now + SIZEOF_OPTIONAL_HEADER ≤ length image.now }
    ensures { result ≡ headers_size image.now }
{
    u32_in(image, optional_at(image) + 60)
}

/// Where the section headers end.
pub(crate) fn section_headers_end(image: &[u8]) -> usize
    requires dos { dos_header_size ≤ length image.now }
    requires optional { optional_at image.now + SIZEOF_OPTIONAL_HEADER ≤ length image.now }
    ensures { result ≡ section_at image.now (section_count image.now) }
{
    optional_at(image)
        + SIZEOF_OPTIONAL_HEADER as usize
        + SIZEOF_SECTION_HEADER * usize::from(section_count(image))
}
