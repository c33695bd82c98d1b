//! Why sections are not chosen.

use link_base::{Memory, Name};
use std::alloc::{AllocError, AllocFailed};

/// Why sections are not chosen.
#[derive(Drop)]
pub enum ChooseError<'a> {
    /// The sections of a name conflict: of all groups that do, the one whose first section comes first, in the order of
    /// modules and then section numbers. The positions are that of the module of its first section, and that of the first
    /// module with a section that conflicts with those before it.
    Conflict {
        name: Name<'a>,
        first: u32,
        second: u32,
    },
    /// Want of memory.
    Memory,
}

impl<'a> From<AllocError> for ChooseError<'a> {
    ghost use Rattle.std.specs.Prelude.{◌≡◌};
    ghost use Rattle.comdat.specs.declared.error.ChooseError.TheVariants.{Memory};

    ghost from_gives = { λ _ e. e ≡ Memory };

    fn from(_error: AllocError) -> ChooseError<'a> {
        ChooseError::Memory
    }
}

impl<'a> From<Memory> for ChooseError<'a> {
    ghost use Rattle.std.specs.Prelude.{◌≡◌};
    ghost use Rattle.comdat.specs.declared.error.ChooseError.TheVariants.{Memory};

    ghost from_gives = { λ _ e. e ≡ Memory };

    fn from(_error: Memory) -> ChooseError<'a> {
        ChooseError::Memory
    }
}

impl<'a, T: Drop> From<AllocFailed<T>> for ChooseError<'a> {
    ghost use Rattle.std.specs.Prelude.{◌≡◌};
    ghost use Rattle.comdat.specs.declared.error.ChooseError.TheVariants.{Memory};

    ghost from_gives = { λ _ e. e ≡ Memory };

    fn from(_error: AllocFailed<T>) -> ChooseError<'a> {
        ChooseError::Memory
    }
}
