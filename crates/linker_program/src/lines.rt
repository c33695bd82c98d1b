//! The lines that a run prints, other than those of diagnostics.

ghost use Rattle.std.specs.Prelude.{◌≡◌, ◌++◌, OnOk, IfOk};
ghost use Rattle.linker_program.specs.RunLines.{counted, usage_line, summary_line, sum_text, generated_line, read_failure_line, write_failure_line};

use crate::sums::{OTHER_BASE, OWN_BASE};
use diagnostics::{push_escaped, push_hex_address, push_number};
use link_base::{Memory, Name};
use std::alloc::Global;

/// The line for words that are refused: the index of the word and the kind of the refusal.
pub(crate) fn usage_line(alloc: Global, index: u64, kind: &[u8]) -> Result<Vec<u8>, Memory>
    ensures { IfOk result (λ line. line.items ≡ usage_line index kind.now) }
{
    let mut line = Vec::new(alloc);
    line.extend_from_slice(b"usage ")?;
    push_number(alloc, &mut line, index)?;
    line.push(b' ')?;
    line.extend_from_slice(kind)?;
    line.push(b'\n')?;
    Ok(line)
}

/// The line for a link that is done.
pub(crate) fn summary_line(
    alloc: Global,
    output: &str,
    modules: u64,
    sections: u64,
    len: u64,
) -> Result<Vec<u8>, Memory>
    ensures { IfOk result (λ line. line.items ≡ summary_line output.now modules sections len) }
{
    let mut line = Vec::new(alloc);
    line.extend_from_slice(b"linked ")?;
    push_escaped(&mut line, &Name::of(output.as_bytes()))?;
    line.extend_from_slice(b": ")?;
    push_counted(alloc, &mut line, modules, b" modules, ")?;
    push_counted(alloc, &mut line, sections, b" sections, ")?;
    push_counted(alloc, &mut line, len, b" bytes\n")?;
    Ok(line)
}

fn push_counted(alloc: Global, line: &mut Vec<u8>, number: u64, things: &[u8]) -> Result<(), Memory>
    ensures { OnOk result (line.new.items ≡ line.old.items ++ counted number things.now) }
{
    push_number(alloc, line, number)?;
    line.extend_from_slice(things)?;
    Ok(())
}

/// The line for a generated program: how many functions it has, the length of its image, and the sum of its code at each
/// base.
pub(crate) fn generated_line(
    alloc: Global,
    count: u32,
    len: u64,
    own: u64,
    other: u64,
) -> Result<Vec<u8>, Memory>
    ensures { IfOk result (λ line. line.items ≡ generated_line count len own other) }
{
    let mut line = Vec::new(alloc);
    line.extend_from_slice(b"gen ")?;
    push_counted(alloc, &mut line, u64::from(count), b": ")?;
    push_counted(alloc, &mut line, len, b" bytes, ")?;
    push_sum(alloc, &mut line, own, OWN_BASE)?;
    line.extend_from_slice(b", ")?;
    push_sum(alloc, &mut line, other, OTHER_BASE)?;
    line.push(b'\n')?;
    Ok(line)
}

fn push_sum(alloc: Global, line: &mut Vec<u8>, sum: u64, base: u64) -> Result<(), Memory>
    ensures { OnOk result (line.new.items ≡ line.old.items ++ sum_text sum base) }
{
    push_counted(alloc, line, sum, b" at ")?;
    push_hex_address(alloc, line, base)
}

/// The line for a file whose read failed.
pub(crate) fn read_failure_line(alloc: Global, name: &Name<'_>) -> Result<Vec<u8>, Memory>
    ensures { IfOk result (λ line. line.items ≡ read_failure_line name.now) }
{
    let mut line = Vec::new(alloc);
    line.extend_from_slice(b"read fault ")?;
    push_escaped(&mut line, name)?;
    line.push(b'\n')?;
    Ok(line)
}

/// The line for a file whose write failed.
pub(crate) fn write_failure_line(alloc: Global, name: &str) -> Result<Vec<u8>, Memory>
    ensures { IfOk result (λ line. line.items ≡ write_failure_line name.now) }
{
    let mut line = Vec::new(alloc);
    line.extend_from_slice(b"write fault ")?;
    push_escaped(&mut line, &Name::of(name.as_bytes()))?;
    line.push(b'\n')?;
    Ok(line)
}
