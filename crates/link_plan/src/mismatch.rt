//! Directives that give one key different values.

ghost use Rattle.std.specs.Prelude.{◌≡◌, None, OnOk, IfErr};
ghost use Rattle.link_base.specs.Refusals.{RefusesFor};
ghost use Rattle.link_plan.specs.PlanFaults.{mismatch_fault};

use link_base::{Fault, Refusal};
use link_directives::first_mismatch;
use module_view::Module;
use std::alloc::Global;

/// That no directive gives a key another value than an earlier one: else the input is refused (`Mismatch`).
pub(crate) fn check_mismatch<'a>(alloc: Global, modules: &[Module<'a>]) -> Result<(), Refusal<'a>>
    ensures accepted { OnOk result (mismatch_fault modules.now ≡ None) }
    ensures refused { IfErr result (RefusesFor (mismatch_fault modules.now)) }
{
    match first_mismatch(alloc, modules)? {
        None => Ok(()),
        Some(mismatch) => Err(Refusal::Fault(Fault::Mismatch {
            key: mismatch.key,
            first: mismatch.first,
            second: mismatch.second,
        })),
    }
}
