//! Why bytes do not open as a module.

use coff_object::ObjError;
use link_base::{ImpFault, Kind, Memory};
use std::alloc::AllocError;

/// Why bytes do not open as a module.
#[derive(Drop)]
pub enum ModuleError {
    /// They are a malformed object.
    Object(ObjError),
    /// They are a malformed short import.
    Import(ImpFault),
    /// One of their directives is malformed, by an offset in the data of its section.
    Directive { at: usize },
    /// They have a form that is not linked: one that the first bytes show, or one that the names or the contents of a well
    /// formed object or short import show.
    Unsupported(Kind),
    /// Want of memory.
    Memory,
}

impl From<AllocError> for ModuleError {
    ghost use Rattle.std.specs.Prelude.{◌≡◌};
    ghost use Rattle.module_view.specs.declared.error.ModuleError.TheVariants.{Memory};

    ghost from_gives = { λ _ e. e ≡ Memory };

    fn from(_error: AllocError) -> ModuleError {
        ModuleError::Memory
    }
}

impl From<Memory> for ModuleError {
    ghost use Rattle.std.specs.Prelude.{◌≡◌};
    ghost use Rattle.module_view.specs.declared.error.ModuleError.TheVariants.{Memory};

    ghost from_gives = { λ _ e. e ≡ Memory };

    fn from(_error: Memory) -> ModuleError {
        ModuleError::Memory
    }
}
