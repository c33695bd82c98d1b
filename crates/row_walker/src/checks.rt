//! What is expected of the last run and of the files, and what is said where it did not come.

ghost use Rattle.std.specs.Prelude.{◌≡◌, OnOk, IfOk, Some, None};
ghost use Rattle.row_walker.specs.Met.{held_by, EndedWith, HasPrinted, HoldsAt, HasLength};

use crate::stage::{Ended, Stage};
use row_files::RowError;
use std::alloc::Global;

fn last_run(stage: &Stage) -> Result<&Ended, RowError>
    ensures { IfOk result (λ ended. stage.now.ended ≡ Some ended.now) }
{
    stage
        .ended
        .as_ref()
        .ok_or(RowError::Malformed("no run stands above"))
}

pub fn check_status(alloc: Global, stage: &Stage, expected: u64) -> Result<(), RowError>
    ensures { OnOk result (EndedWith stage.now expected) }
{
    let ended = last_run(stage)?;
    let status = ended.status;
    if u64::from(status) == expected {
        return Ok(());
    }
    let printed = String::from_utf8_lossy(alloc, ended.printed.taken())?;
    Err(RowError::Wrong(format!(in alloc;
        "expected status {expected}, came {status} with {printed:?}"
    )?))
}

pub fn check_printed(alloc: Global, stage: &Stage, expected: &[u8]) -> Result<(), RowError>
    ensures { OnOk result (HasPrinted stage.now expected.now) }
{
    let ended = last_run(stage)?;
    if ended.printed.taken() == expected {
        return Ok(());
    }
    let expected = String::from_utf8_lossy(alloc, expected)?;
    let printed = String::from_utf8_lossy(alloc, ended.printed.taken())?;
    Err(RowError::Wrong(format!(in alloc; "expected {expected:?}, came {printed:?}")?))
}

/// The bytes of a file as the last run left it.
pub fn held<'a>(alloc: Global, stage: &'a Stage, name: &str) -> Result<&'a [u8], RowError>
    ensures { IfOk result (λ bytes. held_by stage.now name.now ≡ Some bytes.now) }
{
    match stage.held(name) {
        Some(bytes) => Ok(bytes),
        None => Err(RowError::Wrong(format!(in alloc; "there is no file {name}")?)),
    }
}

pub fn check_at(
    alloc: Global,
    stage: &Stage,
    name: &str,
    offset: usize,
    expected: &[u8],
) -> Result<(), RowError>
    ensures { OnOk result (HoldsAt stage.now name.now offset expected.now) }
{
    let bytes = held(alloc, stage, name)?;
    let end = offset.saturating_add(expected.len());
    let Some(found) = bytes.get(offset..end) else {
        let len = bytes.len();
        return Err(RowError::Wrong(format!(in alloc; "{name} has {len} bytes")?));
    };
    if found == expected {
        return Ok(());
    }
    let found = hex::encode(alloc, found)?;
    Err(RowError::Wrong(format!(in alloc; "came {found}")?))
}

pub fn check_size(alloc: Global, stage: &Stage, name: &str, expected: usize) -> Result<(), RowError>
    ensures { OnOk result (HasLength stage.now name.now expected) }
{
    let len = held(alloc, stage, name)?.len();
    if len == expected {
        return Ok(());
    }
    Err(RowError::Wrong(format!(in alloc; "{name} has {len} bytes")?))
}

pub fn check_gone(alloc: Global, stage: &Stage, name: &str) -> Result<(), RowError>
    ensures { OnOk result (held_by stage.now name.now ≡ None) }
{
    match stage.held(name) {
        Some(_) => Err(RowError::Wrong(format!(in alloc; "there is a file {name}")?)),
        None => Ok(()),
    }
}

/// Whether the file is there as the row gives it.
pub fn check_kept(alloc: Global, stage: &Stage, name: &str) -> Result<(), RowError> {
    let bytes = held(alloc, stage, name)?;
    for file in &stage.given {
        if file.name.as_str() == name {
            if file.bytes.as_slice() == bytes {
                return Ok(());
            }
            return Err(RowError::Wrong(format!(in alloc; "{name} has changed")?));
        }
    }
    Err(RowError::Malformed("the row gives no such file"))
}

pub fn check_same(alloc: Global, stage: &Stage, name: &str, other: &str) -> Result<(), RowError>
    ensures { OnOk result (held_by stage.now name.now ≡ held_by stage.now other.now) }
{
    if held(alloc, stage, name)? == held(alloc, stage, other)? {
        return Ok(());
    }
    Err(RowError::Wrong(format!(in alloc; "{name} and {other} differ")?))
}

/// Whether the first file holds the first bytes of the second.
pub fn check_starts(alloc: Global, stage: &Stage, name: &str, whole: &str) -> Result<(), RowError> {
    let start = held(alloc, stage, name)?;
    if held(alloc, stage, whole)?.starts_with(start) {
        return Ok(());
    }
    Err(RowError::Wrong(format!(in alloc; "{whole} does not begin as {name}")?))
}
