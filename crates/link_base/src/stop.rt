//! Why a stage of a link does not come to its end.

use crate::fault::Fault;
use crate::memory::Memory;
use crate::name::Name;
use std::alloc::AllocError;

/// Why a stage that only computes ends a link.
#[derive(Drop)]
pub enum Refusal<'a> {
    /// The input is refused.
    Fault(Fault<'a>),
    /// Want of memory.
    Memory,
}

/// Why a stage that reads files ends a link.
#[derive(Drop)]
pub enum Stop<'a> {
    /// The input is refused.
    Fault(Fault<'a>),
    /// The read of a file of this name failed.
    Read(Name<'a>),
    /// Want of memory.
    Memory,
}

impl<'a> From<AllocError> for Refusal<'a> {
    ghost use Rattle.std.specs.Prelude.{◌≡◌};
    ghost use Rattle.link_base.specs.declared.stop.Refusal.TheVariants.{Memory};

    ghost from_gives = { λ _ e. e ≡ Memory };

    fn from(_error: AllocError) -> Refusal<'a> {
        Refusal::Memory
    }
}

impl<'a> From<Memory> for Refusal<'a> {
    ghost use Rattle.std.specs.Prelude.{◌≡◌};
    ghost use Rattle.link_base.specs.declared.stop.Refusal.TheVariants.{Memory};

    ghost from_gives = { λ _ e. e ≡ Memory };

    fn from(_error: Memory) -> Refusal<'a> {
        Refusal::Memory
    }
}

impl<'a> From<Fault<'a>> for Refusal<'a> {
    ghost use Rattle.std.specs.Prelude.{◌≡◌};
    ghost use Rattle.link_base.specs.declared.stop.Refusal.TheVariants as refusal;

    ghost from_gives = { λ fault e. e ≡ refusal.Fault fault };

    fn from(fault: Fault<'a>) -> Refusal<'a> {
        Refusal::Fault(fault)
    }
}

impl<'a> From<Refusal<'a>> for Stop<'a> {
    ghost use Rattle.std.specs.Prelude.{◌≡◌};
    ghost use Rattle.link_base.specs.Refusals.{stop_of};

    ghost from_gives = { λ refusal e. e ≡ stop_of refusal };

    fn from(refusal: Refusal<'a>) -> Stop<'a> {
        match refusal {
            Refusal::Fault(fault) => Stop::Fault(fault),
            Refusal::Memory => Stop::Memory,
        }
    }
}
