//! A row that is run: its files are made, and its steps taken.

ghost use Rattle.std.specs.Prelude.{OnOk};
ghost use Rattle.row_walker.specs.Met.{Meets};

use crate::checks::{
    check_at, check_gone, check_kept, check_printed, check_same, check_size, check_starts,
    check_status, held,
};
use crate::error::FailedLine;
use crate::row::{Action, Contents, Row, RowFile};
use crate::stage::{NamedBytes, Stage};
use row_files::{RowError, library_file, object_file};
use std::alloc::Global;
use std::thread::Threads;

/// Takes the steps of the row up to the first that is not met.
pub fn run_row<R: Threads + Sync>(rt: &R, alloc: Global, row: Row) -> Result<(), FailedLine> {
    let Row {
        files,
        steps,
        unread,
        ..
    } = row;
    if let Some(unread) = unread {
        return Err(unread);
    }
    let mut given = Vec::new(alloc);
    for file in files {
        let line = file.line;
        push_given(alloc, &mut given, file).map_err(|error| FailedLine { line, error })?;
    }
    let mut stage = Stage::new(alloc, given).map_err(|error| FailedLine { line: 0, error })?;
    for step in &steps {
        let line = step.line;
        take_step(rt, alloc, &mut stage, &step.action).map_err(|error| FailedLine { line, error })?;
    }
    Ok(())
}

fn push_given(alloc: Global, given: &mut Vec<NamedBytes>, file: RowFile) -> Result<(), RowError> {
    let RowFile { name, contents, .. } = file;
    let bytes = match contents {
        Contents::Plain(bytes) => bytes,
        Contents::Object(object) => object_file(alloc, &object)?,
        Contents::Library(library) => library_file(alloc, &library)?,
    };
    given.push(NamedBytes { name, bytes })?;
    Ok(())
}

/// Does what the step says, or looks whether the stage meets what it expects.
fn take_step<R: Threads + Sync>(
    rt: &R,
    alloc: Global,
    stage: &mut Stage,
    action: &Action,
) -> Result<(), RowError>
    ensures { OnOk result (Meets action.now stage.new) }
{
    match action {
        Action::FailCall(number) => stage.fail_call(*number),
        Action::FailPut(number) => stage.fail_put(*number),
        Action::Run(words) => stage.run(rt, alloc, words),
        Action::Status(status) => check_status(alloc, stage, *status),
        Action::Printed(printed) => check_printed(alloc, stage, printed),
        Action::At {
            name,
            offset,
            bytes,
        } => check_at(alloc, stage, name.as_str(), *offset, bytes),
        Action::Size { name, len } => check_size(alloc, stage, name.as_str(), *len),
        Action::Gone(name) => check_gone(alloc, stage, name.as_str()),
        Action::Kept(name) => check_kept(alloc, stage, name.as_str()),
        Action::Same(name, other) => check_same(alloc, stage, name.as_str(), other.as_str()),
        Action::Starts(name, other) => { check_starts(alloc, stage, name.as_str(), other.as_str()) }
        Action::Copy(name, copy) => {
            let bytes = Vec::from_slice(alloc, held(alloc, stage, name.as_str())?)?;
            stage.give(alloc, copy.as_str(), bytes)
        }
    }
}
