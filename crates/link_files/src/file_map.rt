//! Files in memory, by their names.

ghost use Rattle.std.specs.Prelude.{◌≡◌, ℕ, OnOk, OnErr, option_copied, Some, false};
ghost use Rattle.link_files.specs.Store.{no_files, file_of, with_file};
ghost use Rattle.link_files.specs.Reading.{ReadsFile, FailsAsPlanned};

use crate::files::FileError;
use link_base::Memory;
use std::alloc::{Allocator, Global};
use std::collections::BTreeMap;
use std::marker::Model;

#[derive(Drop)]
pub(crate) struct FileMap {
    files: BTreeMap<String, Vec<u8>>,
    alloc: Global,
}

impl Model for FileMap {
    ghost use Rattle.link_files.specs.Store.{Store, store_code, store_of};

    ghost Value = { Store };

    ghost coded = { store_code };

    ghost view = { λ map. store_of map.files.entries };
}

impl FileMap {
    pub(crate) fn new(alloc: Global) -> FileMap
        ensures { result ≡ no_files }
    {
        FileMap {
            files: BTreeMap::new(alloc),
            alloc,
        }
    }

    pub(crate) fn get(&self, name: &str) -> Option<&[u8]>
        ensures { option_copied result ≡ file_of self.now name.now }
    {
        match self.files.get(name) {
            Some(bytes) => Some(bytes.as_slice()),
            None => None,
        }
    }

    /// Puts a file in place of one of its name.
    pub(crate) fn put(&mut self, name: &str, bytes: &[u8]) -> Result<(), Memory>
        ensures ok { OnOk result (self.new ≡ with_file self.old name.now bytes.now) }
        ensures err { OnErr result (self.new ≡ self.old) }
    {
        let name = String::from_str(self.alloc, name)?;
        let bytes = Vec::from_slice(self.alloc, bytes)?;
        self.files.insert(name, bytes)?;
        Ok(())
    }

    /// A copy of the file, where it is there and has at most `limit` bytes.
    pub(crate) fn read<A: Allocator>(
        &self,
        alloc: A,
        name: &str,
        limit: u64,
    ) -> Result<Vec<u8, A>, FileError>
        ensures reads { (count : ℕ) → ReadsFile (Some self.now) name.now limit count count result }
        ensures never_fails { FailsAsPlanned false result }
    {
        let Some(bytes) = self.get(name) else {
            return Err(FileError::NotFound);
        };
        if bytes.len() as u64 > limit {
            return Err(FileError::TooLarge);
        }
        Ok(Vec::from_slice(alloc, bytes)?)
    }
}
