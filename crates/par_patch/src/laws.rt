//! Laws of the definitions, each the contract of a function that does nothing.

ghost use Rattle.std.specs.Prelude.{◌≡◌, ℕ, List, length};
ghost use Rattle.std.specs.List.{All, AllPairs};
ghost use Rattle.address_layout.specs.declared.layout.Layout.{Layout};
ghost use Rattle.par_patch.specs.declared.job.Job.{Job};
ghost use Rattle.par_patch.specs.declared.job.JobRange.{JobRange};
ghost use Rattle.par_patch.specs.LeastRange.{AreOfTwoSections, HasDistinctIndexes, IsLeastRange};
ghost use Rattle.par_patch.specs.PatchedJobs.{EndsWithin, patched_jobs};

/// Where the jobs are of sections that differ, and the relocations of each have indexes that differ, one range alone is the
/// least: what is told does not go by how the jobs are dealt.
pub fn one_least_range()
    ensures { (base : ℕ) (layout : Layout) (owner image : List ℕ) (jobs : List Job) (range other : JobRange) → AllPairs AreOfTwoSections jobs → All HasDistinctIndexes jobs
        → IsLeastRange base layout owner jobs image range → IsLeastRange base layout owner jobs image other → range ≡ other }
{}

/// The patched image is as long as the old one.
pub fn patching_jobs_keeps_the_length()
    ensures { (base : ℕ) (layout : Layout) (owner : List ℕ) (jobs : List Job) (image : List ℕ) → All (EndsWithin (length image)) jobs
        → length (patched_jobs base layout owner jobs image) ≡ length image }
{}
