//! Why the fields of a section are refused.

use link_base::{RelocKind, TargetFault};
use std::alloc::{AllocError, AllocFailed};

/// Why the fields of a section are refused.
#[derive(Clone, Copy, Debug, PartialEq, Eq)]
pub enum FieldError {
    /// The relocation of this index is malformed.
    Reloc { index: u32, kind: RelocKind },
    /// The target of the relocation of this index cannot be used.
    Target { index: u32, kind: TargetFault },
    /// Want of memory.
    Memory,
}

impl From<AllocError> for FieldError {
    ghost use Rattle.std.specs.Prelude.{◌≡◌};
    ghost use Rattle.relocate.specs.declared.error.FieldError.TheVariants.{Memory};

    ghost from_gives = { λ _ e. e ≡ Memory };

    fn from(_error: AllocError) -> FieldError {
        FieldError::Memory
    }
}

impl<T: Drop> From<AllocFailed<T>> for FieldError {
    ghost use Rattle.std.specs.Prelude.{◌≡◌};
    ghost use Rattle.relocate.specs.declared.error.FieldError.TheVariants.{Memory};

    ghost from_gives = { λ _ e. e ≡ Memory };

    fn from(_error: AllocFailed<T>) -> FieldError {
        FieldError::Memory
    }
}
