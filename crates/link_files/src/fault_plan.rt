//! Which calls of an object in memory are to fail.

ghost use Rattle.std.specs.Prelude.{◌≡◌};
ghost use Rattle.link_files.specs.FaultPlan.{fresh_plan, fails_next, after_call};

use std::marker::Model;

/// The numbers of the calls that are to fail, from 1, and how many calls there were.
#[derive(Drop)]
pub(crate) struct Plan {
    fails: Vec<u64>,
    calls: u64,
}

impl Model for Plan {
    ghost use Rattle.link_files.specs.FaultPlan.{FaultPlan};

    ghost Value = { FaultPlan };

    ghost view = { λ plan. record { fails = plan.fails.items; calls = plan.calls } };
}

impl Plan {
    pub(crate) fn new(fails: Vec<u64>) -> Plan
        ensures { result ≡ fresh_plan fails.items }
    {
        Plan { fails, calls: 0 }
    }

    /// Counts a call, and says whether it is to fail. The count stands still at its type's end.
    pub(crate) fn fails_now(&mut self) -> bool
        ensures answer { result ≡ fails_next self.old }
        ensures counted { self.new ≡ after_call self.old }
    {
        self.calls = self.calls.saturating_add(1);
        self.fails.contains(&self.calls)
    }
}
