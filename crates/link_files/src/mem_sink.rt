//! A sink in memory, of which listed puts fail.

ghost use Rattle.std.specs.Prelude.{◌≡◌, ◌<◌, ◌-◌, ◌^◌, Some};
ghost use Rattle.link_files.specs.Putting.{PutsBytes};
ghost use Rattle.link_files.specs.MemSink.{fresh_sink, LeavesSink};

use crate::fault_plan::Plan;
use crate::sink::{PutError, Sink};
use std::alloc::Global;
use std::marker::Model;

/// A sink in memory, told as it stands. Puts are numbered from 1; a put whose number is listed fails. The count
/// is of the puts that failed.
#[derive(Drop)]
pub struct MemSink {
    bytes: Vec<u8>,
    faults: u64,
    plan: Plan,
}

impl Model for MemSink {
    ghost use Rattle.link_files.specs.MemSink.{SinkState};

    ghost Value = { SinkState };

    ghost view = { λ it. record { taken = it.bytes.items; faults = it.faults; plan = it.plan } };
}

impl MemSink {
    /// Nothing taken yet. The puts with the numbers in `fails` are to fail.
    pub fn new(alloc: Global, fails: Vec<u64>) -> MemSink
        ensures { result ≡ fresh_sink fails.items }
    {
        MemSink {
            bytes: Vec::new(alloc),
            faults: 0,
            plan: Plan::new(fails),
        }
    }

    /// The bytes taken so far.
    pub fn taken(&self) -> &[u8]
        ensures { result.now ≡ self.now.taken }
    {
        self.bytes.as_slice()
    }
}

impl Sink for MemSink {
    ghost taken = { λ it. Some it.taken };

    ghost faults = { λ it. it.faults };

    /// A put that is to fail takes the first half of the bytes, rounded down.
    fn put(&mut self, bytes: &[u8]) -> Result<(), PutError>
        requires { self.old.faults < 2 ^ 64 - 1 }
        ensures puts { PutsBytes (Some self.old.taken) (Some self.new.taken) bytes.now
            self.old.faults self.new.faults result }
        ensures state { LeavesSink self.old self.new bytes.now result }
    {
        if self.plan.fails_now() {
            self.bytes.extend_from_slice(&bytes[..bytes.len() / 2])?;
            self.faults += 1;
            return Err(PutError::Fault);
        }
        self.bytes.extend_from_slice(bytes)?;
        Ok(())
    }
}
