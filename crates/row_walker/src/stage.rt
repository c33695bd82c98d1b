//! The files of a row while its steps are taken, and the runs of the linker over them.

ghost use Rattle.std.specs.Prelude.{◌≡◌, IfOk};

use link_files::{MemFiles, MemSink, NeverFails, OpenGate};
use linker_program::{Status, run};
use row_files::RowError;
use std::alloc::Global;
use std::mem;
use std::thread::Threads;

/// A file's name and its bytes.
#[derive(Drop)]
pub struct NamedBytes {
    pub name: String,
    pub bytes: Vec<u8>,
}

/// How the last run ended: its status, and what it printed.
#[derive(Drop)]
pub struct Ended {
    pub status: u8,
    pub printed: MemSink,
}

/// What the steps of a row have come to.
#[derive(Drop)]
pub struct Stage {
    /// The files as the row gives them.
    pub given: Vec<NamedBytes>,
    /// The files as the runs without planned failures left them.
    pub store: NeverFails,
    /// The files as the last run left them, where failures were planned for it.
    pub failed: Option<MemFiles>,
    /// The reads and writes, and the puts, that are to fail in the next run.
    failing_calls: Vec<u64>,
    failing_puts: Vec<u64>,
    pub ended: Option<Ended>,
}

impl Stage {
    ghost use Rattle.std.specs.Prelude.{option_copied};
    ghost use Rattle.row_walker.specs.Met.{held_by};

    /// The stage before the first step.
    pub fn new(alloc: Global, given: Vec<NamedBytes>) -> Result<Stage, RowError> {
        let mut store = NeverFails::new(alloc);
        for file in &given {
            store.add(file.name.as_str(), &file.bytes)?;
        }
        Ok(Stage {
            given,
            store,
            failed: None,
            failing_calls: Vec::new(alloc),
            failing_puts: Vec::new(alloc),
            ended: None,
        })
    }

    /// Adds a file to those that the row gives.
    pub fn give(&mut self, alloc: Global, name: &str, bytes: Vec<u8>) -> Result<(), RowError> {
        self.store.add(name, &bytes)?;
        let name = String::from_str(alloc, name)?;
        self.given.push(NamedBytes { name, bytes })?;
        Ok(())
    }

    pub fn fail_call(&mut self, number: u64) -> Result<(), RowError> {
        self.failing_calls.push(number)?;
        Ok(())
    }

    pub fn fail_put(&mut self, number: u64) -> Result<(), RowError> {
        self.failing_puts.push(number)?;
        Ok(())
    }

    /// The bytes of a file as the last run left it.
    pub fn held(&self, name: &str) -> Option<&[u8]>
        ensures { option_copied result ≡ held_by self.now name.now }
    {
        match &self.failed {
            Some(files) => files.held(name),
            None => self.store.held(name),
        }
    }

    /// Runs the linker. Where calls are to fail, the run begins with the files as the row gives them, and what it writes is
    /// seen by the steps up to the next run.
    pub fn run<R: Threads + Sync>(
        &mut self,
        rt: &R,
        alloc: Global,
        words: &[String],
    ) -> Result<(), RowError> {
        let calls = mem::replace(&mut self.failing_calls, Vec::new(alloc));
        let puts = mem::replace(&mut self.failing_puts, Vec::new(alloc));
        let is_planned = !calls.is_empty() || !puts.is_empty();
        let mut printed = MemSink::new(alloc, puts);
        let status = if is_planned {
            let mut files = failing_files(alloc, &self.given, calls)?;
            let status = run(rt, alloc, &mut files, &mut printed, &OpenGate, words);
            self.failed = Some(files);
            status
        } else {
            self.failed = None;
            run(rt, alloc, &mut self.store, &mut printed, &OpenGate, words)
        };
        if status == Status::OutOfMemory.code() {
            return Err(RowError::Memory);
        }
        self.ended = Some(Ended { status, printed });
        Ok(())
    }
}

/// The files, of which the calls with these numbers are to fail.
fn failing_files(alloc: Global, given: &[NamedBytes], calls: Vec<u64>) -> Result<MemFiles, RowError>
    ensures reads { IfOk result (λ files. files.read_faults ≡ 0) }
    ensures writes { IfOk result (λ files. files.write_faults ≡ 0) }
{
    let mut files = MemFiles::new(alloc, calls);
    for file in given {
        files.add(file.name.as_str(), &file.bytes)?;
    }
    Ok(files)
}
