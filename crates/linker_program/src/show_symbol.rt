//! Bytes of an image where a public symbol stands, as they stand in memory at a base.

ghost use Rattle.std.specs.Prelude.{◌≡◌, ◌<◌, ◌-◌, ◌^◌, IfOk, OnErr};
ghost use Rattle.link_files.specs.Outside.{files_of};
ghost use Rattle.linker_program.specs.LinkRun.{ShowAnswers, PairTries, NothingWritten};
ghost use Rattle.linker_program.specs.Shown.{symbol_line, ShowOutcome};
ghost use Rattle.linker_program.specs.ShowSteps.{GivesBytes};

use crate::answer::Answer;
use crate::shown_file::{read_whole, shown};
use image_show::shown_symbol;
use link_base::{Memory, Name, Stop};
use link_files::Files;
use std::alloc::Global;

/// Loads the image in a file at a base, and shows `length` bytes of its memory from where the program database in another
/// has a public symbol.
pub(crate) fn show_symbol<F: Files>(
    alloc: Global,
    files: &mut F,
    image: &str,
    pdb: &str,
    base: u64,
    symbol: &str,
    length: u32,
) -> Result<Answer, Memory>
    requires reads_below { F.read_faults files.old < 2 ^ 64 - 1 }
    requires writes_below { F.write_faults files.old < 2 ^ 64 - 1 }
    ensures answered { IfOk result (λ answer. ShowAnswers (ShowOutcome image.now pdb.now base symbol.now length) (PairTries image.now pdb.now)
        (files_of F.store F.read_faults F.write_faults files.old)
        (files_of F.store F.read_faults F.write_faults files.new) answer.status answer.line.items) }
    ensures memory { OnErr result (NothingWritten
        (files_of F.store F.read_faults F.write_faults files.old)
        (files_of F.store F.read_faults F.write_faults files.new)) }
{
    let made = symbol_line(alloc, files, image, pdb, base, symbol, length);
    shown(alloc, made)
}

/// The line of the bytes.
fn symbol_line<'a, F: Files>(
    alloc: Global,
    files: &mut F,
    image: &'a str,
    pdb: &'a str,
    base: u64,
    symbol: &'a str,
    length: u32,
) -> Result<Vec<u8>, Stop<'a>>
    requires reads_below { F.read_faults files.old < 2 ^ 64 - 1 }
    requires writes_below { F.write_faults files.old < 2 ^ 64 - 1 }
    ensures { GivesBytes (symbol_line image.now pdb.now base symbol.now length) (PairTries image.now pdb.now)
        (files_of F.store F.read_faults F.write_faults files.old)
        (files_of F.store F.read_faults F.write_faults files.new) result }
{
    let image = read_whole(alloc, files, image)?;
    let pdb = read_whole(alloc, files, pdb)?;
    let name = Name::of(symbol.as_bytes());
    Ok(shown_symbol(alloc, &image, &pdb, base, name, length)?)
}
