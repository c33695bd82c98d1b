//! The modules among the inputs, opened by several parts, and their answers in the order of the files.

ghost use Rattle.std.specs.Prelude.{◌≡◌, ◌≤◌, ◌∷◌, List, length, All, IfOk};
ghost use Rattle.link_base.specs.Limits.{FILE_LIMIT as most_bytes};
ghost use Rattle.file_search.specs.Reading.{file_found};
ghost use Rattle.file_search.specs.declared.found.FoundFile.{FoundFile as Found};
ghost use Rattle.lib_search.specs.Inputs.{is_module};
ghost use Rattle.lib_search.specs.OpenedFiles.{job_of, jobs_among, AnswersFile, HoldsAnswers};

use file_search::FoundFile;
use lib_reader::begins_library;
use link_base::Memory;
use link_files::Gate;
use module_view::Origin;
use par_read::{Answer, Job, open_all};
use resource_files::begins_resources;
use std::alloc::Global;
use std::thread::Threads;
use std::vec::IntoIter;

/// By how many parts the modules among the inputs are opened.
const OPENING_PARTS: usize = 8;

/// Opens the modules among files, by several parts. The answers come in the order of the files.
pub(crate) fn open_modules<'a, R: Threads + Sync, G: Gate>(
    rt: &R,
    alloc: Global,
    files: &[FoundFile<'a>],
    gate: &G,
) -> Result<IntoIter<Answer<'a>, Global>, Memory>
    requires { All (λ file. length file.bytes.now ≤ most_bytes) files.now }
    ensures { IfOk result (HoldsAnswers files.now) }
{
    let jobs = jobs_among(alloc, files)?;
    let answers = open_all(rt, alloc, &jobs, OPENING_PARTS, gate)?;
    Ok(answers.into_iter())
}

/// The answer of a file after those before it: the next one for a module, and none for another file.
pub(crate) fn next_answer<'a>(
    file: &FoundFile<'a>,
    answers: &mut IntoIter<Answer<'a>, Global>,
) -> Option<Answer<'a>>
    ensures { (later : List Found) → HoldsAnswers (file.now ∷ later) answers.old → AnswersFile file.now result × HoldsAnswers later answers.new }
{
    if is_module(file) {
        answers.next()
    } else {
        None
    }
}

/// What is to be opened for a file that is a module.
pub(crate) fn job_of<'a>(file: &FoundFile<'a>) -> Job<'a>
    ensures { result ≡ job_of file.now }
{
    Job {
        origin: Origin {
            file: file.file.again(),
            member: None,
        },
        bytes: file.bytes,
    }
}

/// What is to be opened for the modules among files.
fn jobs_among<'a>(alloc: Global, files: &[FoundFile<'a>]) -> Result<Vec<Job<'a>>, Memory>
    requires { All (λ file. length file.bytes.now ≤ most_bytes) files.now }
    ensures jobs { IfOk result (λ jobs. jobs.items ≡ jobs_among files.now) }
    ensures short { IfOk result (λ jobs. All (λ job. length job.bytes.now ≤ most_bytes) jobs.items) }
{
    let mut jobs = Vec::with_capacity(alloc, files.len())?;
    for file in files {
        if is_module(file) {
            jobs.push(job_of(file))?;
        }
    }
    Ok(jobs)
}

/// Whether a file is opened as a module: it begins as no library and as no resource file.
fn is_module(file: &FoundFile<'_>) -> bool
    ensures { result ≡ is_module (file_found file.now) }
{
    !(begins_library(file.bytes) || begins_resources(file.bytes))
}
