//! The fields of all jobs, patched in the file of an image.

ghost use Rattle.std.specs.Prelude.{◌≡◌, ◌<◌, ◌≤◌, ◌+◌, ℕ, drop, length, OnOk, IfErr};
ghost use Rattle.std.specs.List.{All, AllPairs};
ghost use Rattle.std.specs.Thread.{IsSync};
ghost use Rattle.par_patch.specs.LeastRange.{IsLeastRange};
ghost use Rattle.par_patch.specs.Parts.{AreParts, jobs_of};
ghost use Rattle.par_patch.specs.PatchedJobs.{IsReady, EndsBefore, EndsWithin, FieldsFit, patched_job, patched_jobs};
ghost use Rattle.par_patch.specs.Slices.{AreJobsIn, IsJobIn, IsPatchedSlice, IsAnswerOf, first_start, shifted};

use crate::job::{Job, JobRange};
use crate::least::least_of;
use crate::parts::Parts;
use address_layout::Layout;
use link_files::Gate;
use relocate::patch;
use std::thread::{Threads, join_mut};

/// Patches the fields of all jobs in the bytes of an image at `base`. Part p of `parts`, from 0 on, passes the gate, and
/// takes the jobs from p * n / parts on up to (p + 1) * n / parts, of n. Each part has a thread of its own, where one can be
/// made, and a single one has that of the caller. `layout` has an RVA for each piece, and `owner` the index of its output
/// section.
///
/// # Errors
///
/// `JobRange` for the least relocation index whose value lies out of the range of its type, in the job of the least module
/// and section that has one. The image is then of no use.
pub fn patch_all<'a, R: Threads + Sync, G: Gate>(
    rt: &R,
    image: &mut [u8],
    jobs: &[Job<'a>],
    base: u64,
    layout: &Layout,
    owner: &[u32],
    parts: usize,
    gate: &G,
) -> Result<(), JobRange>
    requires some { 1 ≤ parts }
    requires few { parts ≤ 64 }
    requires apart { AllPairs EndsBefore jobs.now }
    requires within { All (EndsWithin (length image.old)) jobs.now }
    requires ready { All (IsReady layout.now owner.now) jobs.now }
    ensures patched { OnOk result (image.new ≡ patched_jobs base layout.now owner.now jobs.now image.old) }
    ensures in_range { OnOk result (All (FieldsFit base layout.now owner.now image.old) jobs.now) }
    ensures refused { IfErr result (IsLeastRange base layout.now owner.now jobs.now image.old) }
{
    let all = Parts {
        first: 0,
        end: parts,
        all_parts: parts,
        all_jobs: jobs.len(),
    };
    patch_parts(rt, image, 0, jobs, base, layout, owner, all, gate)
}

/// Patches the jobs of some parts in a slice of the image, which begins at an offset of the image. Both halves of the parts
/// do so at the same time, each in its part of the slice.
fn patch_parts<'a, R: Threads + Sync, G: Gate>(
    rt: &R,
    image: &mut [u8],
    offset: usize,
    jobs: &[Job<'a>],
    base: u64,
    layout: &Layout,
    owner: &[u32],
    parts: Parts,
    gate: &G,
) -> Result<(), JobRange>
    requires parts { AreParts parts }
    requires dealt { length jobs.now ≡ jobs_of parts }
    requires jobs { AreJobsIn layout.now owner.now offset (length image.old) jobs.now }
    ensures { IsPatchedSlice base layout.now owner.now offset jobs.now image.old image.new result }
{
    if parts.end - parts.first == 1 {
        gate.pass(parts.first);
        return patch_part(image, offset, jobs, base, layout, owner);
    }
    let (front_parts, back_parts) = parts.halves();
    let (front_jobs, back_jobs) = jobs.split_at(front_parts.jobs());
    let cut = first_start(back_jobs, offset, image.len());
    let back_offset = offset + cut;
    let (front, back) = image.split_at_mut(cut);
    let (first, second) = join_mut(
        rt,
        &mut || -> Result<(), JobRange>
            requires { IsSync R.row
                × (AreParts front_parts
                × ((length front_jobs.now ≡ jobs_of front_parts)
                × AreJobsIn layout.now owner.now offset (length front.now) front_jobs.now)) }
            ensures { IsPatchedSlice base layout.entry.now owner.entry.now offset front_jobs.entry.now front.entry.now front.exit.now result }
        {
            patch_parts(
                rt,
                front,
                offset,
                front_jobs,
                base,
                layout,
                owner,
                front_parts,
                gate,
            )
        },
        &mut || -> Result<(), JobRange>
            requires { IsSync R.row
                × (AreParts back_parts
                × ((length back_jobs.now ≡ jobs_of back_parts)
                × AreJobsIn layout.now owner.now back_offset (length back.now) back_jobs.now)) }
            ensures { IsPatchedSlice base layout.entry.now owner.entry.now back_offset back_jobs.entry.now back.entry.now back.exit.now result }
        {
            patch_parts(
                rt,
                back,
                back_offset,
                back_jobs,
                base,
                layout,
                owner,
                back_parts,
                gate,
            )
        },
    );
    least_of(first, second)
}

/// Where the first of some jobs begins in a slice of the image, which begins at an offset and has so many bytes; where there
/// is no job, the end of the slice.
fn first_start<'a>(jobs: &[Job<'a>], offset: usize, len: usize) -> usize
    requires { All (IsJobIn offset len) jobs.now }
    ensures { result ≡ first_start jobs.now offset len }
{
    match jobs.first() {
        Some(job) => job.start - offset,
        None => len,
    }
}

/// Patches one job after the other in a slice of the image, which begins at an offset of the image.
fn patch_part<'a>(
    image: &mut [u8],
    offset: usize,
    jobs: &[Job<'a>],
    base: u64,
    layout: &Layout,
    owner: &[u32],
) -> Result<(), JobRange>
    requires { AreJobsIn layout.now owner.now offset (length image.old) jobs.now }
    ensures { IsPatchedSlice base layout.now owner.now offset jobs.now image.old image.new result }
{
    let mut answer = Ok(());
    for job in jobs {
        answer = least_of(answer, patch_job(image, offset, job, base, layout, owner));
    }
    answer
}

/// Patches the fields of a job in a slice of the image, which begins at an offset of the image.
fn patch_job<'a>(
    image: &mut [u8],
    offset: usize,
    job: &Job<'a>,
    base: u64,
    layout: &Layout,
    owner: &[u32],
) -> Result<(), JobRange>
    requires inside { IsJobIn offset (length image.old) job.now }
    requires ready { IsReady layout.now owner.now job.now }
    ensures patched { OnOk result (image.new ≡ patched_job base layout.now owner.now (shifted offset job.now) image.old) }
    ensures behind { (place : ℕ) → job.now.start + job.now.len ≤ offset + place → drop place image.new ≡ drop place image.old }
    ensures answer { IsAnswerOf base layout.now owner.now (shifted offset job.now) image.old result }
{
    let start = job.start - offset;
    let part = &mut image[start..start + job.len];
    let rva = layout.pieces[job.piece as usize];
    match patch(part, rva, base, job.fixups, layout, owner) {
        Ok(()) => Ok(()),
        Err(range) => Err(JobRange {
            module: job.module,
            section: job.section,
            index: range.index,
            value: range.value,
        }),
    }
}
