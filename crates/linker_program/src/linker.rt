//! A run of the linker.

ghost use Rattle.std.specs.Prelude.{◌≡◌, ◌<◌, ◌-◌, ◌^◌, map, string_bytes, IfOk, OnErr};
ghost use Rattle.link_files.specs.Outside.{files_of, printed_by};
ghost use Rattle.linker_program.specs.Outcome.{HasOutcome};
ghost use Rattle.linker_program.specs.LinkRun.{Answers, LeftByMemory, Ran, IsOwed, RanWith};

use crate::answer::{Answer, words_refused};
use crate::generate::generate;
use crate::link::link;
use crate::show::show_at;
use crate::show_symbol::show_symbol;
use crate::status::Status;
use bumpalo::Bump;
use link_base::Memory;
use link_files::{Files, Gate, PutError, Sink};
use link_words::{Command, WordsError, read_words, usage_word};
use std::alloc::Global;
use std::thread::Threads;

/// Runs the linker on the words, which are the arguments after the program's name: it reads and writes by `files`, and
/// prints one line to `out`. The result is the status that the program ends with: 0 for a link that is done, 1 for an
/// input that is refused, 2 for words that are refused, 3 for want of memory, 4 for a read that failed, 5 for a write
/// that failed, and 6 for a line that could not be printed.
pub fn run<R: Threads + Sync, F: Files, O: Sink, G: Gate>(
    rt: &R,
    alloc: Global,
    files: &mut F,
    out: &mut O,
    gate: &G,
    words: &[String],
) -> u8
    requires reads_below { F.read_faults files.old < 2 ^ 64 - 1 }
    requires writes_below { F.write_faults files.old < 2 ^ 64 - 1 }
    requires puts_below { O.faults out.old < 2 ^ 64 - 1 }
    // What is printed, what the files hold, and where the status comes from.
    ensures ran { Ran (map string_bytes words.now)
        (files_of F.store F.read_faults F.write_faults files.old)
        (files_of F.store F.read_faults F.write_faults files.new)
        (printed_by O.taken O.faults out.old) (printed_by O.taken O.faults out.new) result }
    // Where the files are known and nothing failed, the status is that of the expected outcome.
    ensures owed { IsOwed (map string_bytes words.now)
        (files_of F.store F.read_faults F.write_faults files.old)
        (files_of F.store F.read_faults F.write_faults files.new)
        (printed_by O.taken O.faults out.old) (printed_by O.taken O.faults out.new) result }
{
    status_of(rt, alloc, files, out, gate, words).code()
}

/// Does the work of a run, and prints its line.
fn status_of<R: Threads + Sync, F: Files, O: Sink, G: Gate>(
    rt: &R,
    alloc: Global,
    files: &mut F,
    out: &mut O,
    gate: &G,
    words: &[String],
) -> Status
    requires reads_below { F.read_faults files.old < 2 ^ 64 - 1 }
    requires writes_below { F.write_faults files.old < 2 ^ 64 - 1 }
    requires puts_below { O.faults out.old < 2 ^ 64 - 1 }
    ensures { RanWith (map string_bytes words.now)
        (files_of F.store F.read_faults F.write_faults files.old)
        (files_of F.store F.read_faults F.write_faults files.new)
        (printed_by O.taken O.faults out.old) (printed_by O.taken O.faults out.new) result }
{
    let arena = Bump::new(alloc);
    match answer(rt, alloc, files, &arena, gate, words) {
        Ok(answer) => match out.put(&answer.line) {
            Ok(()) => answer.status,
            Err(PutError::Fault) => Status::PutFailed,
            Err(PutError::Memory) => Status::OutOfMemory,
        },
        Err(_) => Status::OutOfMemory,
    }
}

/// Does the work of a run, before its line is printed. The inputs of a link stand in this arena.
fn answer<'a, R: Threads + Sync, F: Files, G: Gate>(
    rt: &R,
    alloc: Global,
    files: &mut F,
    arena: &'a Bump,
    gate: &G,
    words: &'a [String],
) -> Result<Answer, Memory>
    requires reads_below { F.read_faults files.old < 2 ^ 64 - 1 }
    requires writes_below { F.write_faults files.old < 2 ^ 64 - 1 }
    ensures answered { IfOk result (λ answer. Answers (map string_bytes words.now)
        (files_of F.store F.read_faults F.write_faults files.old)
        (files_of F.store F.read_faults F.write_faults files.new) answer.status answer.line.items) }
    ensures memory { OnErr result (LeftByMemory (HasOutcome (map string_bytes words.now))
        (files_of F.store F.read_faults F.write_faults files.old)
        (files_of F.store F.read_faults F.write_faults files.new)) }
{
    match read_words(alloc, words) {
        Ok(Command::Link(options)) => link(rt, alloc, files, arena, &options, gate),
        Ok(
            Command::At {
                image,
                base,
                rva,
                length,
            },
        ) => show_at(alloc, files, image, base, rva, length),
        Ok(
            Command::Show {
                image,
                pdb,
                base,
                symbol,
                length,
            },
        ) => show_symbol(alloc, files, image, pdb, base, symbol, length),
        Ok(Command::Gen { n }) => generate(rt, alloc, n, gate),
        Err(WordsError::Usage { index, kind }) => words_refused(alloc, index, usage_word(kind)),
        Err(WordsError::Memory) => Err(Memory),
    }
}
