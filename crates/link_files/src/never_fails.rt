//! Files in memory of which no call fails.

ghost use Rattle.std.specs.Prelude.{◌≡◌, OnOk, OnErr, option_copied, Some};
ghost use Rattle.link_files.specs.Store.{no_files, file_of, with_file};

use crate::file_map::FileMap;
use crate::files::{FileError, Files, WriteError};
use link_base::Memory;
use std::alloc::{Allocator, Global};
use std::marker::Model;

/// Files in memory, told as they stand. No read and no write of them fails.
#[derive(Drop)]
pub struct NeverFails {
    files: FileMap,
}

impl Model for NeverFails {
    ghost use Rattle.link_files.specs.Store.{Store, store_code};

    ghost Value = { Store };

    ghost coded = { store_code };

    ghost view = { λ it. it.files };
}

impl NeverFails {
    /// No files yet.
    pub fn new(alloc: Global) -> NeverFails
        ensures { result ≡ no_files }
    {
        NeverFails {
            files: FileMap::new(alloc),
        }
    }

    /// Puts a file in place of one of its name.
    pub fn add(&mut self, name: &str, bytes: &[u8]) -> Result<(), Memory>
        ensures ok { OnOk result (self.new ≡ with_file self.old name.now bytes.now) }
        ensures err { OnErr result (self.new ≡ self.old) }
    {
        self.files.put(name, bytes)
    }

    /// The bytes of a file, or none where it is not there.
    pub fn held(&self, name: &str) -> Option<&[u8]>
        ensures { option_copied result ≡ file_of self.now name.now }
    {
        self.files.get(name)
    }
}

impl Files for NeverFails {
    ghost store = { λ files. Some files };

    ghost read_faults = { λ _. 0 };

    ghost write_faults = { λ _. 0 };

    fn read<A: Allocator>(
        &mut self,
        alloc: A,
        name: &str,
        limit: u64,
    ) -> Result<Vec<u8, A>, FileError> {
        self.files.read(alloc, name, limit)
    }

    fn write(&mut self, name: &str, bytes: &[u8]) -> Result<(), WriteError> {
        self.files.put(name, bytes)?;
        Ok(())
    }
}
