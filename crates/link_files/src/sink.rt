//! A sink: it takes bytes one after another, as standard output does.

ghost use Rattle.std.specs.Prelude.{◌<◌, ◌-◌, ◌^◌, ℕ, List, Option};
ghost use Rattle.link_files.specs.Putting.{PutsBytes};

use std::alloc::AllocError;

/// Why a put did not take all of its bytes.
#[derive(Clone, Copy, Debug, PartialEq, Eq)]
pub enum PutError {
    /// The outside failed: a prefix of the bytes was taken.
    Fault,
    /// Memory was refused, and nothing was taken.
    Memory,
}

impl From<AllocError> for PutError {
    ghost use Rattle.std.specs.Prelude.{◌≡◌};
    ghost use Rattle.link_files.specs.declared.sink.PutError.TheVariants as put;

    ghost from_gives = { λ _ error. error ≡ put.Memory };

    fn from(_error: AllocError) -> PutError {
        PutError::Memory
    }
}

/// Takes bytes one after another. Contracts may know what it has taken: the bytes are then told.
pub trait Sink {
    /// The bytes taken so far, where they are told.
    ghost taken: { Self → Option (List ℕ) };

    /// How many puts have failed.
    ghost faults: { Self → ℕ };

    /// Takes the bytes. A fault comes exactly where the put failed.
    fn put(&mut self, bytes: &[u8]) -> Result<(), PutError>
        requires { faults self.old < 2 ^ 64 - 1 }
        ensures { PutsBytes (taken self.old) (taken self.new) bytes.now (faults self.old) (faults self.new) result };
}
