//! Files in memory, of which listed calls fail.

ghost use Rattle.std.specs.Prelude.{◌≡◌, ◌<◌, ◌-◌, ◌^◌, OnOk, OnErr, option_copied, Some};
ghost use Rattle.link_files.specs.Store.{file_of};
ghost use Rattle.link_files.specs.FaultPlan.{fails_next};
ghost use Rattle.link_files.specs.Reading.{ReadsFile, FailsAsPlanned};
ghost use Rattle.link_files.specs.Writing.{WritesFile};
ghost use Rattle.link_files.specs.MemFiles.{fresh_files, with_added, after_read, LeavesState};

use crate::fault_plan::Plan;
use crate::file_map::FileMap;
use crate::files::{FileError, Files, WriteError};
use link_base::Memory;
use std::alloc::{Allocator, Global};
use std::marker::Model;

/// Files in memory, told as they stand. Reads and writes are numbered from 1, together; a call whose number is
/// listed fails. The counts are of the reads and of the writes that failed.
#[derive(Drop)]
pub struct MemFiles {
    files: FileMap,
    read_faults: u64,
    write_faults: u64,
    plan: Plan,
}

impl Model for MemFiles {
    ghost use Rattle.link_files.specs.MemFiles.{MemState, mem_state_code};

    ghost Value = { MemState };

    ghost coded = { mem_state_code };

    ghost view = { λ it. record { files = it.files; read_faults = it.read_faults; write_faults = it.write_faults; plan = it.plan } };
}

impl MemFiles {
    /// No files yet. The calls with the numbers in `fails` are to fail.
    pub fn new(alloc: Global, fails: Vec<u64>) -> MemFiles
        ensures { result ≡ fresh_files fails.items }
    {
        MemFiles {
            files: FileMap::new(alloc),
            read_faults: 0,
            write_faults: 0,
            plan: Plan::new(fails),
        }
    }

    /// Puts a file in place of one of its name. This is no call that is numbered.
    pub fn add(&mut self, name: &str, bytes: &[u8]) -> Result<(), Memory>
        ensures ok { OnOk result (self.new ≡ with_added self.old name.now bytes.now) }
        ensures err { OnErr result (self.new ≡ self.old) }
    {
        self.files.put(name, bytes)
    }

    /// The bytes of a file, or none where it is not there.
    pub fn held(&self, name: &str) -> Option<&[u8]>
        ensures { option_copied result ≡ file_of self.now.files name.now }
    {
        self.files.get(name)
    }
}

impl Files for MemFiles {
    ghost store = { λ it. Some it.files };

    ghost read_faults = { λ it. it.read_faults };

    ghost write_faults = { λ it. it.write_faults };

    fn read<A: Allocator>(
        &mut self,
        alloc: A,
        name: &str,
        limit: u64,
    ) -> Result<Vec<u8, A>, FileError>
        requires reads_below { self.old.read_faults < 2 ^ 64 - 1 }
        requires writes_below { self.old.write_faults < 2 ^ 64 - 1 }
        ensures reads { ReadsFile (Some self.old.files) name.now limit self.old.read_faults self.new.read_faults result }
        ensures store_kept { Some self.new.files ≡ Some self.old.files }
        ensures writes_kept { self.new.write_faults ≡ self.old.write_faults }
        ensures state { self.new ≡ after_read self.old }
        ensures planned { FailsAsPlanned (fails_next self.old.plan) result }
    {
        if self.plan.fails_now() {
            self.read_faults += 1;
            return Err(FileError::Fault);
        }
        self.files.read(alloc, name, limit)
    }

    /// A write that is to fail stores the first half of the bytes, rounded down.
    fn write(&mut self, name: &str, bytes: &[u8]) -> Result<(), WriteError>
        requires reads_below { self.old.read_faults < 2 ^ 64 - 1 }
        requires writes_below { self.old.write_faults < 2 ^ 64 - 1 }
        ensures writes { WritesFile (Some self.old.files) (Some self.new.files) name.now bytes.now
            self.old.write_faults self.new.write_faults result }
        ensures reads_kept { self.new.read_faults ≡ self.old.read_faults }
        ensures state { LeavesState self.old self.new name.now bytes.now result }
    {
        if self.plan.fails_now() {
            self.files.put(name, &bytes[..bytes.len() / 2])?;
            self.write_faults += 1;
            return Err(WriteError::Fault);
        }
        self.files.put(name, bytes)?;
        Ok(())
    }
}
