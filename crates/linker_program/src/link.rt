//! One link: its modules are read and joined, the image, its map, its PDB and its import library are made, and the outputs
//! are written.

ghost use Rattle.std.specs.Prelude.{◌≡◌, ◌<◌, ◌-◌, ◌^◌, IfOk, IfErr, OnErr};
ghost use Rattle.link_files.specs.Outside.{files_of};
ghost use Rattle.link_words.specs.Outcome.{options_said};
ghost use Rattle.link_plan.specs.Plan.{plan_resources, IsPlanOf};
ghost use Rattle.linker_program.specs.Outcome.{LinkOutcome};
ghost use Rattle.linker_program.specs.LinkRun.{LinkAnswers, LinkTries, LeftByMemory};
ghost use Rattle.linker_program.specs.Steps.{ModulesHave, IsLinked, RefusesModules};

use crate::answer::{Answer, read_failed, refused};
use crate::linked::Linked;
use crate::write::write_linked;
use bumpalo::Bump;
use input_arena::Inputs;
use link_base::{Memory, Refusal, Stop};
use link_files::{Files, Gate};
use link_image::build;
use link_plan::{LinkPlan, plan};
use link_words::Options;
use std::alloc::Global;
use std::mem;
use std::thread::Threads;

/// Links what the options name, with the inputs in this arena.
pub(crate) fn link<'a, R: Threads + Sync, F: Files, G: Gate>(
    rt: &R,
    alloc: Global,
    files: &mut F,
    arena: &'a Bump,
    options: &Options<'a>,
    gate: &G,
) -> Result<Answer, Memory>
    requires reads_below { F.read_faults files.old < 2 ^ 64 - 1 }
    requires writes_below { F.write_faults files.old < 2 ^ 64 - 1 }
    ensures answered { IfOk result (λ answer. LinkAnswers (LinkOutcome (options_said options.now)) (LinkTries (options_said options.now))
        (files_of F.store F.read_faults F.write_faults files.old)
        (files_of F.store F.read_faults F.write_faults files.new) answer.status answer.line.items) }
    ensures memory { OnErr result (LeftByMemory (LinkOutcome (options_said options.now))
        (files_of F.store F.read_faults F.write_faults files.old)
        (files_of F.store F.read_faults F.write_faults files.new)) }
{
    let mut inputs = Inputs::new(arena);
    match plan(rt, alloc, files, &mut inputs, options, gate) {
        Ok(plan) => {
            let answer = link_planned(rt, alloc, files, options, &plan, gate);
            // The program ends, and the system takes back at once what would be freed module by module.
            mem::forget(plan);
            answer
        }
        Err(Stop::Fault(fault)) => refused(alloc, &fault),
        Err(Stop::Read(name)) => read_failed(alloc, &name),
        Err(Stop::Memory) => Err(Memory),
    }
}

/// Makes the image of a plan with its map, its PDB and its import library, and writes what comes of it.
fn link_planned<'a, R: Threads + Sync, F: Files, G: Gate>(
    rt: &R,
    alloc: Global,
    files: &mut F,
    options: &Options<'a>,
    plan: &LinkPlan<'a>,
    gate: &G,
) -> Result<Answer, Memory>
    requires reads_below { F.read_faults files.old < 2 ^ 64 - 1 }
    requires writes_below { F.write_faults files.old < 2 ^ 64 - 1 }
    requires planned { IsPlanOf (options_said options.now) plan.now.modules.items plan.now }
    ensures answered { IfOk result (λ answer. LinkAnswers (ModulesHave (options_said options.now) plan.now.modules.items (plan_resources plan.now)) (LinkTries (options_said options.now))
        (files_of F.store F.read_faults F.write_faults files.old)
        (files_of F.store F.read_faults F.write_faults files.new) answer.status answer.line.items) }
    ensures memory { OnErr result (LeftByMemory (ModulesHave (options_said options.now) plan.now.modules.items (plan_resources plan.now))
        (files_of F.store F.read_faults F.write_faults files.old)
        (files_of F.store F.read_faults F.write_faults files.new)) }
{
    match make(rt, alloc, options, plan, gate) {
        Ok(linked) => write_linked(alloc, files, options, linked),
        Err(Refusal::Fault(fault)) => refused(alloc, &fault),
        Err(Refusal::Memory) => Err(Memory),
    }
}

/// Makes the image of a plan, with its map, its PDB and its import library.
fn make<'a, R: Threads + Sync, G: Gate>(
    rt: &R,
    alloc: Global,
    options: &Options<'a>,
    plan: &LinkPlan<'a>,
    gate: &G,
) -> Result<Linked, Refusal<'a>>
    requires { IsPlanOf (options_said options.now) plan.now.modules.items plan.now }
    ensures linked { IfOk result (IsLinked (options_said options.now) plan.now.modules.items (plan_resources plan.now)) }
    ensures refused { IfErr result (RefusesModules (options_said options.now) plan.now.modules.items (plan_resources plan.now)) }
{
    let built = build(rt, alloc, plan, options, gate)?;
    Ok(Linked {
        modules: plan.modules.len(),
        sections: built.sections,
        image: built.image,
        map: built.map,
        pdb: built.pdb,
        library: built.library,
    })
}
