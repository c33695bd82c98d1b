//! The parts of the work, halved among threads.

ghost use Rattle.std.specs.Prelude.{◌≡◌, ◌<◌, ◌≤◌, ◌+◌, ◌^◌, ◌-◌, length, All, IfOk};
ghost use Rattle.std.specs.List.{flat_map};
ghost use Rattle.std.specs.Thread.{IsSync};
ghost use Rattle.par_read.specs.Opened.{AreOpenedAs};
ghost use Rattle.par_read.specs.Parts.{jobs_between};

use crate::job::{Answer, Job};
use crate::part::open_part;
use link_base::Memory;
use link_files::Gate;
use module_view::{Module, ModuleError};
use std::alloc::Global;
use std::thread::{Threads, join};

/// The number by which the first of the parts that open files passes the gate.
const FIRST_AT_GATE: usize = 64;

/// Opens the files of all jobs, by so many parts, from 1 to 64. Of n jobs, part p has those from p·n/parts up to (p + 1)·n/parts
/// and passes the gate as number 64 + p before it opens the first; where there is one part, no thread is started. Each answer
/// is what `open_module` gives for the job of its place. `Memory` comes where the lists want memory; want of memory for opening
/// a file is that file's own answer.
#[tactic(auto, using(crate::proofs::PartLemmas::all_parts))]
pub fn open_all<'a, R: Threads + Sync, G: Gate>(
    rt: &R,
    alloc: Global,
    jobs: &[Job<'a>],
    parts: usize,
    gate: &G,
) -> Result<Vec<Result<Module<'a>, ModuleError>>, Memory>
    requires some { 1 ≤ parts }
    requires few { parts ≤ 64 }
    requires short { All (λ job. length job.bytes.now < 2 ^ 32 - 1) jobs.now }
    ensures opened { IfOk result (λ answers. AreOpenedAs jobs.now answers.items) }
{
    if parts == 1 {
        return open_at_gate(alloc, jobs, parts, 0, gate);
    }
    let lists = open_parts(rt, alloc, jobs, parts, 0, parts, gate)?;
    in_one_list(alloc, jobs.len(), lists)
}

/// All lists in one, in their order. It has room for `room` answers from the start: with no more of them, each is moved once.
fn in_one_list<'a>(
    alloc: Global,
    room: usize,
    lists: Vec<Vec<Answer<'a>>>,
) -> Result<Vec<Answer<'a>>, Memory>
    ensures { IfOk result (λ answers. answers.items ≡ flat_map (λ list. list.items) lists.entry.items) }
{
    let mut answers = Vec::with_capacity(alloc, room)?;
    for mut list in lists {
        answers.append(&mut list)?;
    }
    Ok(answers)
}

/// Opens the files of a part once it has passed the gate.
fn open_at_gate<'a, G: Gate>(
    alloc: Global,
    jobs: &[Job<'a>],
    parts: usize,
    part: usize,
    gate: &G,
) -> Result<Vec<Answer<'a>>, Memory>
    requires few { parts ≤ 64 }
    requires among { part < parts }
    requires short { All (λ job. length job.bytes.now < 2 ^ 32 - 1) jobs.now }
    ensures { IfOk result (λ answers. AreOpenedAs (jobs_between parts part (part + 1) jobs.now) answers.items) }
{
    gate.pass(FIRST_AT_GATE + part);
    open_part(alloc, jobs, parts, part)
}

/// Opens the files of the parts from `first` up to `end`: one part here, more of them halved. Each part has a list of its own,
/// so that joined halves move no answer.
#[cycle(parts)]
fn open_parts<'a, R: Threads + Sync, G: Gate>(
    rt: &R,
    alloc: Global,
    jobs: &[Job<'a>],
    parts: usize,
    first: usize,
    end: usize,
    gate: &G,
) -> Result<Vec<Vec<Answer<'a>>>, Memory>
    requires few { parts ≤ 64 }
    requires order { first < end }
    requires among { end ≤ parts }
    requires short { All (λ job. length job.bytes.now < 2 ^ 32 - 1) jobs.now }
    ensures { IfOk result (λ lists. AreOpenedAs (jobs_between parts first end jobs.now) (flat_map (λ list. list.items) lists.items)) }
{
    if end - first == 1 {
        let list = open_at_gate(alloc, jobs, parts, first, gate)?;
        return Ok(vec![in alloc; list]?);
    }
    let middle = first + (end - first) / 2;
    let front = move || -> Result<Vec<Vec<Answer<'_>>>, Memory>
        requires { IsSync R.row × IsSync G.row × (parts ≤ 64) × (first < middle) × (middle ≤ parts) × All (λ job. length job.bytes.now < 2 ^ 32 - 1) jobs.now }
        ensures { IfOk result (λ lists. AreOpenedAs (jobs_between parts first middle jobs.entry.now) (flat_map (λ list. list.items) lists.items)) }
    { open_parts(rt, alloc, jobs, parts, first, middle, gate) };
    let back = move || -> Result<Vec<Vec<Answer<'_>>>, Memory>
        requires { IsSync R.row × IsSync G.row × (parts ≤ 64) × (middle < end) × (end ≤ parts) × All (λ job. length job.bytes.now < 2 ^ 32 - 1) jobs.now }
        ensures { IfOk result (λ lists. AreOpenedAs (jobs_between parts middle end jobs.entry.now) (flat_map (λ list. list.items) lists.items)) }
    { open_parts(rt, alloc, jobs, parts, middle, end, gate) };
    let (low, high) = join(rt, front, back);
    let mut lists = low?;
    lists.append(&mut high?)?;
    Ok(lists)
}
