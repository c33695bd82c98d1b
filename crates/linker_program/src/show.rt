//! Bytes of an image, as they stand in memory at a base.

ghost use Rattle.std.specs.Prelude.{◌≡◌, ◌<◌, ◌-◌, ◌^◌, IfOk, OnErr};
ghost use Rattle.link_files.specs.Outside.{files_of};
ghost use Rattle.linker_program.specs.LinkRun.{ShowAnswers, ImageTries, NothingWritten};
ghost use Rattle.linker_program.specs.Shown.{at_line, AtOutcome};
ghost use Rattle.linker_program.specs.ShowSteps.{GivesBytes};

use crate::answer::Answer;
use crate::shown_file::{read_whole, shown};
use image_show::shown_at;
use link_base::{Memory, Stop};
use link_files::Files;
use std::alloc::Global;

/// Loads the image in a file at a base, and shows `length` bytes of its memory from an RVA on.
pub(crate) fn show_at<F: Files>(
    alloc: Global,
    files: &mut F,
    image: &str,
    base: u64,
    rva: u32,
    length: u32,
) -> Result<Answer, Memory>
    requires reads_below { F.read_faults files.old < 2 ^ 64 - 1 }
    requires writes_below { F.write_faults files.old < 2 ^ 64 - 1 }
    ensures answered { IfOk result (λ answer. ShowAnswers (AtOutcome image.now base rva length) (ImageTries image.now)
        (files_of F.store F.read_faults F.write_faults files.old)
        (files_of F.store F.read_faults F.write_faults files.new) answer.status answer.line.items) }
    ensures memory { OnErr result (NothingWritten
        (files_of F.store F.read_faults F.write_faults files.old)
        (files_of F.store F.read_faults F.write_faults files.new)) }
{
    let made = line_at(alloc, files, image, base, rva, length);
    shown(alloc, made)
}

/// The line of the bytes.
fn line_at<'a, F: Files>(
    alloc: Global,
    files: &mut F,
    image: &'a str,
    base: u64,
    rva: u32,
    length: u32,
) -> Result<Vec<u8>, Stop<'a>>
    requires reads_below { F.read_faults files.old < 2 ^ 64 - 1 }
    requires writes_below { F.write_faults files.old < 2 ^ 64 - 1 }
    ensures { GivesBytes (at_line image.now base rva length) (ImageTries image.now)
        (files_of F.store F.read_faults F.write_faults files.old)
        (files_of F.store F.read_faults F.write_faults files.new) result }
{
    let bytes = read_whole(alloc, files, image)?;
    Ok(shown_at(alloc, &bytes, base, rva, length)?)
}
