//! A run of the linker on words and files in memory.

ghost use Rattle.std.specs.Prelude.{◌≡◌, map, string_bytes, IfOk};
ghost use Rattle.link_files.specs.Outside.{files_of};
ghost use Rattle.link_rows.specs.Runs.{texts, stored, unfailed, shown, silent, IsRun};

use link_base::Memory;
use link_files::{Files, MemSink, NeverFails, OpenGate};
use linker_program::run;
use std::alloc::Global;
use std::thread::Threads;

/// A file's name and its bytes.
pub type NamedFile<'a> = (&'a str, &'a [u8]);

/// How a run ended: its status, the files as it left them, and the sink that it printed to.
#[derive(Drop)]
pub struct Ended<F> {
    pub status: u8,
    pub files: F,
    pub out: MemSink,
}

/// Runs the linker where nothing fails.
pub fn run_without_failures<R: Threads + Sync>(
    rt: &R,
    alloc: Global,
    files: &[NamedFile<'_>],
    words: &[&str],
) -> Result<Ended<NeverFails>, Memory>
    ensures { IfOk result (λ ended. IsRun (texts words.now) (unfailed (stored files.now)) (unfailed ended.files) (shown ended.out) ended.status) }
{
    let store = store_of(alloc, files)?;
    let out = MemSink::new(alloc, Vec::new(alloc));
    run_over(rt, alloc, store, out, words)
}

/// The files, of which no call fails.
fn store_of(alloc: Global, files: &[NamedFile<'_>]) -> Result<NeverFails, Memory>
    ensures { IfOk result (λ store. store ≡ stored files.now) }
{
    let mut store = NeverFails::new(alloc);
    for (name, bytes) in files {
        store.add(name, bytes)?;
    }
    Ok(store)
}

/// Runs the linker over files and a sink of which no call failed so far.
pub fn run_over<R: Threads + Sync, F: Files + Drop>(
    rt: &R,
    alloc: Global,
    mut files: F,
    mut out: MemSink,
    words: &[&str],
) -> Result<Ended<F>, Memory>
    requires reads { F.read_faults files ≡ 0 }
    requires writes { F.write_faults files ≡ 0 }
    requires printed { shown out ≡ silent }
    ensures { IfOk result (λ ended. IsRun (texts words.now)
        (files_of F.store F.read_faults F.write_faults files)
        (files_of F.store F.read_faults F.write_faults ended.files) (shown ended.out) ended.status) }
{
    let words = owned_words(alloc, words)?;
    let status = run(rt, alloc, &mut files, &mut out, &OpenGate, &words);
    Ok(Ended { status, files, out })
}

fn owned_words(alloc: Global, words: &[&str]) -> Result<Vec<String>, Memory>
    ensures { IfOk result (λ owned. map string_bytes owned.items ≡ texts words.now) }
{
    let mut owned = Vec::new(alloc);
    for word in words {
        owned.push(String::from_str(alloc, word)?)?;
    }
    Ok(owned)
}
