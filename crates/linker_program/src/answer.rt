//! The answers of a run, each with the line that is printed.

ghost use Rattle.std.specs.Prelude.{IfOk};
ghost use Rattle.linker_program.specs.Steps.{Refuses, RefusesWords, TellsReadFailure};

use crate::lines::{read_failure_line, usage_line};
use crate::status::Status;
use diagnostics::fault_line;
use link_base::{Fault, Memory, Name};
use std::alloc::Global;

/// How the work of a run ended, and the line that says so.
#[derive(Drop)]
pub struct Answer {
    pub status: Status,
    pub line: Vec<u8>,
}

/// The answer that refuses the input.
pub(crate) fn refused(alloc: Global, fault: &Fault<'_>) -> Result<Answer, Memory>
    ensures { IfOk result (λ answer. Refuses answer fault.now) }
{
    let line = fault_line(alloc, fault)?;
    Ok(Answer {
        status: Status::Refused,
        line,
    })
}

/// The answer that refuses the words, for a kind of refusal at the word with this index.
pub(crate) fn words_refused(alloc: Global, index: usize, kind: &[u8]) -> Result<Answer, Memory>
    ensures { IfOk result (λ answer. RefusesWords answer index kind.now) }
{
    let line = usage_line(alloc, index as u64, kind)?;
    Ok(Answer {
        status: Status::Usage,
        line,
    })
}

/// The answer for a file whose read failed.
pub(crate) fn read_failed(alloc: Global, name: &Name<'_>) -> Result<Answer, Memory>
    ensures { IfOk result (λ answer. TellsReadFailure answer name.now) }
{
    let line = read_failure_line(alloc, name)?;
    Ok(Answer {
        status: Status::ReadFailed,
        line,
    })
}
