//! The parts that jobs are dealt to.

ghost use Rattle.std.specs.Prelude.{◌≡◌, ◌+◌, ◌<◌, ◌≤◌};
ghost use Rattle.par_patch.specs.Parts.{AreParts, AreHalves, first_job, jobs_of};

/// Parts in a row, of all that jobs are dealt to.
#[derive(Clone, Copy)]
pub(crate) struct Parts {
    /// The first of them.
    pub(crate) first: usize,
    /// The one behind the last.
    pub(crate) end: usize,
    /// How many parts there are in all.
    pub(crate) all_parts: usize,
    /// How many jobs there are in all.
    pub(crate) all_jobs: usize,
}

impl Parts {
    /// How many jobs they take.
    pub(crate) fn jobs(&self) -> usize
        requires { AreParts self.now }
        ensures { result ≡ jobs_of self.now }
    {
        first_job(self.end, self.all_parts, self.all_jobs)
            - first_job(self.first, self.all_parts, self.all_jobs)
    }

    /// The first half of them, and the others.
    pub(crate) fn halves(&self) -> (Parts, Parts)
        requires parts { AreParts self.now }
        requires several { self.now.first + 1 < self.now.end }
        ensures { AreHalves self.now result.0 result.1 }
    {
        let middle = self.first + (self.end - self.first) / 2;
        let front = Parts {
            end: middle,
            ..*self
        };
        let back = Parts {
            first: middle,
            ..*self
        };
        (front, back)
    }
}

/// The first job of a part, in 128 bits, since the product may have more than 64.
fn first_job(part: usize, all_parts: usize, all_jobs: usize) -> usize
    requires some { 0 < all_parts }
    requires few { all_parts ≤ 64 }
    requires within { part ≤ all_parts }
    ensures { result ≡ first_job part all_parts all_jobs }
{
    (part as u128 * all_jobs as u128 / all_parts as u128) as usize
}
