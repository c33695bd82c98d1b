//! The jobs of one part.

ghost use Rattle.std.specs.Prelude.{◌≡◌, ◌<◌, ◌≤◌, ◌+◌, ◌^◌, ◌-◌, length, All, IfOk};
ghost use Rattle.par_read.specs.Opened.{AreOpenedAs};
ghost use Rattle.par_read.specs.Parts.{part_begin, jobs_between};

use crate::job::{Answer, Job, open_job};
use link_base::Memory;
use std::alloc::Global;

/// Opens the files of the jobs of a part, one after another. Each part has its own, and all parts have all.
#[tactic(auto, using(crate::proofs::PartLemmas::begins_behind))]
pub(crate) fn open_part<'a>(
    alloc: Global,
    jobs: &[Job<'a>],
    parts: usize,
    part: usize,
) -> Result<Vec<Answer<'a>>, Memory>
    requires few { parts ≤ 64 }
    requires among { part < parts }
    requires short { All (λ job. length job.bytes.now < 2 ^ 32 - 1) jobs.now }
    ensures { IfOk result (λ answers. AreOpenedAs (jobs_between parts part (part + 1) jobs.now) answers.items) }
{
    let begin = part_begin(jobs.len(), parts, part);
    let end = part_begin(jobs.len(), parts, part + 1);
    open_jobs(alloc, &jobs[begin..end])
}

/// Where the jobs of a part begin, among all jobs; those of the last part end where one more part would begin.
#[tactic(auto, unfolding(crate::specs::Parts::part_begin))]
fn part_begin(jobs: usize, parts: usize, part: usize) -> usize
    requires some { 0 < parts }
    requires few { parts ≤ 64 }
    requires among { part ≤ parts }
    ensures begin { result ≡ part_begin jobs parts part }
    ensures inside { result ≤ jobs }
{
    (part as u128 * jobs as u128 / parts as u128) as usize
}

/// Opens the files of these jobs, in their order.
fn open_jobs<'a>(alloc: Global, jobs: &[Job<'a>]) -> Result<Vec<Answer<'a>>, Memory>
    requires { All (λ job. length job.bytes.now < 2 ^ 32 - 1) jobs.now }
    ensures { IfOk result (λ answers. AreOpenedAs jobs.now answers.items) }
{
    let mut answers = Vec::with_capacity(alloc, jobs.len())?;
    for job in jobs {
        answers.push(open_job(alloc, job))?;
    }
    Ok(answers)
}
