//! The output files of a run, written one after the other.

ghost use Rattle.std.specs.Prelude.{◌≡◌, ◌<◌, ◌-◌, ◌^◌, map};
ghost use Rattle.link_files.specs.Outside.{files_of};
ghost use Rattle.link_files.specs.Outputs.{named_bytes, WritesOutputs};

use crate::files::{Files, WriteError};

/// A file that is to be written: its name and all of its bytes.
#[derive(Drop)]
pub struct Output<'a> {
    pub name: &'a str,
    pub bytes: Vec<u8>,
}

/// Why not all outputs were written.
#[derive(Clone, Copy, Debug, PartialEq, Eq)]
pub enum OutputError {
    /// The write of the output at this index failed. Those before it are whole, and it holds the first of its bytes.
    Fault(usize),
    /// Want of memory. Some of the first outputs are whole, and the others are as they were.
    Memory,
}

/// Writes the outputs in their order, and stops at the first that cannot be written.
pub fn write_outputs<F: Files>(files: &mut F, outputs: &[Output<'_>]) -> Result<(), OutputError>
    requires reads_below { F.read_faults files.old < 2 ^ 64 - 1 }
    requires writes_below { F.write_faults files.old < 2 ^ 64 - 1 }
    ensures { WritesOutputs (files_of F.store F.read_faults F.write_faults files.old)
        (files_of F.store F.read_faults F.write_faults files.new) (map named_bytes outputs.now) result }
{
    for (index, output) in outputs.iter().enumerate() {
        match files.write(output.name, &output.bytes) {
            Ok(()) => {}
            Err(WriteError::Fault) => return Err(OutputError::Fault(index)),
            Err(WriteError::Memory) => return Err(OutputError::Memory),
        }
    }
    Ok(())
}
