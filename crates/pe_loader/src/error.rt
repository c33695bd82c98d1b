//! Why an image is not shown.

use link_base::{ImageKind, Memory};
use std::alloc::AllocError;

/// Why an image is not loaded.
#[derive(Clone, Copy, Debug, PartialEq, Eq)]
pub enum ShowError {
    /// The file is no image that can be loaded, by the first test that fails.
    BadImage(ImageKind),
    /// The file is an image, and it may not stand at the base.
    BasePermit,
    /// Want of memory.
    Memory,
}

/// A range of RVAs that leaves the memory of an image, with the RVA behind it.
#[derive(Clone, Copy, Debug, PartialEq, Eq)]
pub struct LengthRange {
    pub end: u64,
}

impl From<AllocError> for ShowError {
    ghost use Rattle.std.specs.Prelude.{◌≡◌};
    ghost use Rattle.pe_loader.specs.declared.error.ShowError.TheVariants as error;

    ghost from_gives = { λ _ e. e ≡ error.Memory };

    fn from(_error: AllocError) -> ShowError {
        ShowError::Memory
    }
}

impl From<Memory> for ShowError {
    ghost use Rattle.std.specs.Prelude.{◌≡◌};
    ghost use Rattle.pe_loader.specs.declared.error.ShowError.TheVariants as error;

    ghost from_gives = { λ _ e. e ≡ error.Memory };

    fn from(_error: Memory) -> ShowError {
        ShowError::Memory
    }
}
