//! Why exports are not made.

use link_base::{ExportFault, Memory};
use std::alloc::{AllocError, AllocFailed};

/// Why exports are not made.
#[derive(Clone, Copy, Debug, PartialEq, Eq)]
pub enum ExportError {
    /// What is wrong with a row: the first kind that any row has, and the least row that has it.
    Bad { row: u32, kind: ExportFault },
    /// Want of memory.
    Memory,
}

impl From<AllocError> for ExportError {
    ghost use Rattle.std.specs.Prelude.{◌≡◌};
    ghost use Rattle.export_tables.specs.declared.error.ExportError.TheVariants.{Memory};

    ghost from_gives = { λ _ e. e ≡ Memory };

    fn from(_error: AllocError) -> ExportError {
        ExportError::Memory
    }
}

impl From<Memory> for ExportError {
    ghost use Rattle.std.specs.Prelude.{◌≡◌};
    ghost use Rattle.export_tables.specs.declared.error.ExportError.TheVariants.{Memory};

    ghost from_gives = { λ _ e. e ≡ Memory };

    fn from(_error: Memory) -> ExportError {
        ExportError::Memory
    }
}

impl<T: Drop> From<AllocFailed<T>> for ExportError {
    ghost use Rattle.std.specs.Prelude.{◌≡◌};
    ghost use Rattle.export_tables.specs.declared.error.ExportError.TheVariants.{Memory};

    ghost from_gives = { λ _ e. e ≡ Memory };

    fn from(_error: AllocFailed<T>) -> ExportError {
        ExportError::Memory
    }
}
