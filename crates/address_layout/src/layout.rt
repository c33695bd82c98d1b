//! Where the sections and the pieces of an image stand, and why they have no place.

use link_base::pe_format::{FILE_ALIGNMENT, PAGE_SIZE, SECTION_HEADERS_OFFSET};
use link_base::{IMAGE_LIMIT, Memory};
use std::alloc::{AllocError, AllocFailed};

/// The greatest size in memory of an image, in the 64 bits that places are computed in.
pub(crate) const MAX_IMAGE: u64 = IMAGE_LIMIT as u64;

/// The alignment of sections in memory.
pub(crate) const SECTION_ALIGNMENT: u64 = PAGE_SIZE as u64;

/// The alignment of raw data in the file.
pub(crate) const RAW_ALIGNMENT: u64 = FILE_ALIGNMENT as u64;

/// Where the section headers begin in the file.
pub(crate) const HEADERS_OFFSET: usize = SECTION_HEADERS_OFFSET as usize;

/// Where a section stands.
#[derive(Drop)]
pub struct Placed {
    /// Its start in the image.
    pub rva: u32,
    /// Its size in memory.
    pub size: u32,
    /// The length of its raw data in the file, a multiple of 512.
    pub raw: u32,
    /// The file offset of its raw data, or 0 where there is none.
    pub file: u32,
}

/// Where everything stands.
#[derive(Drop)]
pub struct Layout {
    /// The length of the headers, which is the file offset of the first raw data.
    pub headers: u32,
    /// The sections, in their order.
    pub sections: Vec<Placed>,
    /// The RVA of each piece, or 0 for a piece that stands in no section.
    pub pieces: Vec<u32>,
    /// The size of the image in memory.
    pub image: u32,
}

/// Why there is no layout, or why a base is refused.
#[derive(Drop)]
pub enum LayoutError {
    /// There would be more than 96 sections: this many.
    TooManySections(u32),
    /// The image would be larger than 512 MiB: this large.
    ImageTooLarge(u64),
    /// The base is not permitted.
    BaseRange(u64),
    /// Want of memory.
    Memory,
}

impl From<AllocError> for LayoutError {
    ghost use Rattle.std.specs.Prelude.{◌≡◌};
    ghost use Rattle.address_layout.specs.declared.layout.LayoutError.TheVariants.{Memory};

    ghost from_gives = { λ _ e. e ≡ Memory };

    fn from(_error: AllocError) -> LayoutError {
        LayoutError::Memory
    }
}

impl From<Memory> for LayoutError {
    ghost use Rattle.std.specs.Prelude.{◌≡◌};
    ghost use Rattle.address_layout.specs.declared.layout.LayoutError.TheVariants.{Memory};

    ghost from_gives = { λ _ e. e ≡ Memory };

    fn from(_error: Memory) -> LayoutError {
        LayoutError::Memory
    }
}

impl<T: Drop> From<AllocFailed<T>> for LayoutError {
    ghost use Rattle.std.specs.Prelude.{◌≡◌};
    ghost use Rattle.address_layout.specs.declared.layout.LayoutError.TheVariants.{Memory};

    ghost from_gives = { λ _ e. e ≡ Memory };

    fn from(_error: AllocFailed<T>) -> LayoutError {
        LayoutError::Memory
    }
}
