//! The last step of a link: its outputs are written.

ghost use Rattle.std.specs.Prelude.{◌≡◌, ◌<◌, ◌-◌, ◌^◌, ◌++◌, map, option_map, IfOk, OnOk, OnErr, string_bytes};
ghost use Rattle.std.specs.Option.{option_copied};
ghost use Rattle.link_files.specs.Outside.{files_of};
ghost use Rattle.link_files.specs.Outputs.{named_bytes};
ghost use Rattle.link_words.specs.Outcome.{options_said};
ghost use Rattle.linker_program.specs.LinkRun.{asked_output, pdb_name};
ghost use Rattle.linker_program.specs.Steps.{AnswersWrite, LeftByWrites};
ghost use Rattle.linker_program.specs.WriteSteps.{linked_outputs, linked_summary};

use crate::answer::Answer;
use crate::lines::{summary_line, write_failure_line};
use crate::linked::Linked;
use crate::status::Status;
use link_base::Memory;
use link_files::{Files, Output, OutputError, write_outputs};
use link_words::Options;
use std::alloc::Global;

/// Writes what a link made, after its summary line is made.
pub(crate) fn write_linked<F: Files>(
    alloc: Global,
    files: &mut F,
    options: &Options<'_>,
    linked: Linked,
) -> Result<Answer, Memory>
    requires reads_below { F.read_faults files.old < 2 ^ 64 - 1 }
    requires writes_below { F.write_faults files.old < 2 ^ 64 - 1 }
    ensures written { IfOk result (λ answer. AnswersWrite
        (files_of F.store F.read_faults F.write_faults files.old)
        (files_of F.store F.read_faults F.write_faults files.new)
        (linked_outputs (options_said options.now) linked) (linked_summary (string_bytes options.now.out) linked)
        answer.status answer.line.items) }
    ensures memory { OnErr result (LeftByWrites
        (files_of F.store F.read_faults F.write_faults files.old)
        (files_of F.store F.read_faults F.write_faults files.new)
        (linked_outputs (options_said options.now) linked)) }
{
    let line = summary_line(
        alloc,
        options.out.as_str(),
        linked.modules as u64,
        u64::from(linked.sections),
        linked.image.len() as u64,
    )?;
    let mut outputs = Vec::new(alloc);
    push_pdb(&mut outputs, options, linked.pdb)?;
    push_map(&mut outputs, options, linked.map)?;
    push_asked(&mut outputs, options.implib, linked.library)?;
    outputs.push(Output {
        name: options.out.as_str(),
        bytes: linked.image,
    })?;
    match write_outputs(files, &outputs) {
        Ok(()) => Ok(Answer {
            status: Status::Done,
            line,
        }),
        Err(OutputError::Fault(index)) => {
            let line = write_failure_line(alloc, outputs[index].name)?;
            Ok(Answer {
                status: Status::WriteFailed,
                line,
            })
        }
        Err(OutputError::Memory) => Err(Memory),
    }
}

/// Appends the PDB, where there is one and it is asked for.
fn push_pdb<'w>(
    outputs: &mut Vec<Output<'w>>,
    options: &'w Options<'_>,
    bytes: Option<Vec<u8>>,
) -> Result<(), Memory>
    ensures { OnOk result (map named_bytes outputs.new.items ≡ map named_bytes outputs.old.items
        ++ asked_output (pdb_name (options_said options.now)) (option_map (λ bytes. bytes.items) bytes)) }
{
    let name = if options.debug {
        Some(options.pdb.as_str())
    } else {
        None
    };
    push_asked(outputs, name, bytes)
}

/// Appends the map, where there is one and it is asked for.
fn push_map<'w>(
    outputs: &mut Vec<Output<'w>>,
    options: &'w Options<'_>,
    bytes: Option<Vec<u8>>,
) -> Result<(), Memory>
    ensures { OnOk result (map named_bytes outputs.new.items ≡ map named_bytes outputs.old.items
        ++ asked_output (option_map string_bytes options.now.map) (option_map (λ bytes. bytes.items) bytes)) }
{
    let name = match &options.map {
        Some(name) => Some(name.as_str()),
        None => None,
    };
    push_asked(outputs, name, bytes)
}

/// Appends an output, where there are its name and its bytes.
fn push_asked<'w>(
    outputs: &mut Vec<Output<'w>>,
    name: Option<&'w str>,
    bytes: Option<Vec<u8>>,
) -> Result<(), Memory>
    ensures { OnOk result (map named_bytes outputs.new.items ≡ map named_bytes outputs.old.items
        ++ asked_output (option_copied name.entry) (option_map (λ bytes. bytes.items) bytes)) }
{
    let Some(name) = name else {
        return Ok(());
    };
    let Some(bytes) = bytes else {
        return Ok(());
    };
    outputs.push(Output { name, bytes })?;
    Ok(())
}
