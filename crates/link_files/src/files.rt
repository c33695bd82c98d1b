//! Files by name: what a read or a write promises, whether or not the contents are known.

ghost use Rattle.std.specs.Prelude.{◌≡◌, ◌<◌, ◌-◌, ◌^◌, ℕ, List, Option};
ghost use Rattle.link_files.specs.Store.{Store};
ghost use Rattle.link_files.specs.Reading.{ReadsFile};
ghost use Rattle.link_files.specs.Writing.{WritesFile};

use link_base::Memory;
use std::alloc::{AllocError, Allocator};

/// Why a read gives no bytes.
#[derive(Clone, Copy, Debug, PartialEq, Eq)]
pub enum FileError {
    /// No file of this name is there.
    NotFound,
    /// The file has more bytes than the limit.
    TooLarge,
    /// The outside failed.
    Fault,
    /// Memory was refused.
    Memory,
}

/// Why a write did not store the whole file.
#[derive(Clone, Copy, Debug, PartialEq, Eq)]
pub enum WriteError {
    /// The outside failed: the file holds a prefix of the bytes.
    Fault,
    /// Memory was refused, and nothing was written.
    Memory,
}

impl From<AllocError> for FileError {
    ghost use Rattle.std.specs.Prelude.{◌≡◌};
    ghost use Rattle.link_files.specs.declared.files.FileError.TheVariants as read;

    ghost from_gives = { λ _ error. error ≡ read.Memory };

    fn from(_error: AllocError) -> FileError {
        FileError::Memory
    }
}

impl From<Memory> for WriteError {
    ghost use Rattle.std.specs.Prelude.{◌≡◌};
    ghost use Rattle.link_files.specs.declared.files.WriteError.TheVariants as write;

    ghost from_gives = { λ _ error. error ≡ write.Memory };

    fn from(_error: Memory) -> WriteError {
        WriteError::Memory
    }
}

/// Files that can be read and written by name. Contracts may know their contents: the store is then told. No
/// call can test whether it is. An object whose count of failures has come to the last number of its type is
/// used no more.
pub trait Files {
    /// The files and their bytes, where they are told.
    ghost store: { Self → Option Store };

    /// How many reads have failed.
    ghost read_faults: { Self → ℕ };

    /// How many writes have failed.
    ghost write_faults: { Self → ℕ };

    /// The bytes of the file, of which there are at most `limit`. A fault comes exactly where the read failed.
    fn read<A: Allocator>(
        &mut self,
        alloc: A,
        name: &str,
        limit: u64,
    ) -> Result<Vec<u8, A>, FileError>
        requires reads_below { read_faults self.old < 2 ^ 64 - 1 }
        requires writes_below { write_faults self.old < 2 ^ 64 - 1 }
        ensures reads { ReadsFile (store self.old) name.now limit (read_faults self.old) (read_faults self.new) result }
        ensures store_kept { store self.new ≡ store self.old }
        ensures writes_kept { write_faults self.new ≡ write_faults self.old };

    /// Stores the bytes in a file of this name, in place of one that is there. A fault comes exactly where the
    /// write failed.
    fn write(&mut self, name: &str, bytes: &[u8]) -> Result<(), WriteError>
        requires reads_below { read_faults self.old < 2 ^ 64 - 1 }
        requires writes_below { write_faults self.old < 2 ^ 64 - 1 }
        ensures writes { WritesFile (store self.old) (store self.new) name.now bytes.now
            (write_faults self.old) (write_faults self.new) result }
        ensures reads_kept { read_faults self.new ≡ read_faults self.old };
}
