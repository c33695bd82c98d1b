//! The files of a command that shows something, and its answer.

ghost use Rattle.std.specs.Prelude.{◌≡◌, ◌<◌, ◌-◌, ◌^◌, IfOk};
ghost use Rattle.link_files.specs.Outside.{files_of};
ghost use Rattle.linker_program.specs.LinkRun.{ImageTries};
ghost use Rattle.linker_program.specs.Shown.{file_bytes};
ghost use Rattle.linker_program.specs.ShowSteps.{GivesBytes, SaysMade};

use crate::answer::{Answer, read_failed, refused};
use crate::status::Status;
use link_base::{Fault, Memory, Name, Stop};
use link_files::{FileError, Files};
use std::alloc::Global;

/// The greatest length of a file of which something is shown.
const SHOWN_FILE_LIMIT: u64 = 1 << 30;

/// The bytes of a file, which is refused where it is not there, or has too many.
pub(crate) fn read_whole<'a, F: Files>(
    alloc: Global,
    files: &mut F,
    name: &'a str,
) -> Result<Vec<u8>, Stop<'a>>
    requires reads_below { F.read_faults files.old < 2 ^ 64 - 1 }
    requires writes_below { F.write_faults files.old < 2 ^ 64 - 1 }
    ensures { GivesBytes (file_bytes name.now) (ImageTries name.now)
        (files_of F.store F.read_faults F.write_faults files.old)
        (files_of F.store F.read_faults F.write_faults files.new) result }
{
    match files.read(alloc, name, SHOWN_FILE_LIMIT) {
        Ok(bytes) => Ok(bytes),
        Err(FileError::NotFound) => Err(Stop::Fault(not_found(name))),
        Err(FileError::TooLarge) => Err(Stop::Fault(too_large(name))),
        Err(FileError::Fault) => Err(Stop::Read(Name::of(name.as_bytes()))),
        Err(FileError::Memory) => Err(Stop::Memory),
    }
}

/// The fault of a file that is not there.
fn not_found(file: &str) -> Fault<'_>
    ensures { result ≡ Fault.NotFound file.now None }
{
    Fault::NotFound {
        file: Name::of(file.as_bytes()),
        member: None,
    }
}

/// The fault of a file that has too many bytes.
fn too_large(file: &str) -> Fault<'_>
    ensures { result ≡ Fault.FileTooLarge file.now None }
{
    Fault::FileTooLarge {
        file: Name::of(file.as_bytes()),
        member: None,
    }
}

/// The answer of a command that made a line to show, or came to a stop.
pub(crate) fn shown(alloc: Global, made: Result<Vec<u8>, Stop<'_>>) -> Result<Answer, Memory>
    ensures { IfOk result (λ answer. SaysMade answer made.entry) }
{
    match made {
        Ok(line) => Ok(Answer {
            status: Status::Done,
            line,
        }),
        Err(Stop::Fault(fault)) => refused(alloc, &fault),
        Err(Stop::Read(name)) => read_failed(alloc, &name),
        Err(Stop::Memory) => Err(Memory),
    }
}
