//! A generated program: its objects and its words are made, linked, and the image is loaded at two bases, all in memory.

ghost use Rattle.std.specs.Prelude.{◌≡◌, ◌≤◌, map, string_bytes, IfOk};
ghost use Rattle.link_words.specs.Outcome.{options_said};
ghost use Rattle.link_plan.specs.Plan.{plan_resources, IsPlanOf};
ghost use Rattle.generated_world.specs.GeneratedWorld.{generated_files, generated_words};
ghost use Rattle.linker_program.specs.Outcome.{LinkOutcome, ModulesOutcome};
ghost use Rattle.linker_program.specs.Generated.{image_told};
ghost use Rattle.linker_program.specs.GeneratedSteps.{Says, TellsGenerated, TellsLink};

use crate::answer::{Answer, refused, words_refused};
use crate::lines::generated_line;
use crate::status::Status;
use crate::sums::{OTHER_BASE, OWN_BASE, sum_at};
use bumpalo::Bump;
use generated_world::{world_files, world_words};
use input_arena::Inputs;
use link_base::{Fault, Memory, Refusal, Stop};
use link_files::{Gate, NeverFails};
use link_image::build;
use link_plan::{LinkPlan, plan};
use link_words::{Command, Options, WordsError, read_words, usage_word};
use std::alloc::Global;
use std::thread::Threads;

/// Links a program of so many functions, and shows what becomes of its code.
pub(crate) fn generate<R: Threads + Sync, G: Gate>(
    rt: &R,
    alloc: Global,
    count: u32,
    gate: &G,
) -> Result<Answer, Memory>
    requires some { 1 ≤ count }
    requires few { count ≤ 2000 }
    ensures { IfOk result (TellsGenerated count) }
{
    let arena = Bump::new(alloc);
    let mut files = world_files(alloc, count)?;
    let words = world_words(alloc, count)?;
    link_by_words(rt, alloc, &mut files, &arena, &words, count, gate)
}

/// Links what the words of the program name, with the inputs in this arena.
fn link_by_words<'a, R: Threads + Sync, G: Gate>(
    rt: &R,
    alloc: Global,
    files: &mut NeverFails,
    arena: &'a Bump,
    words: &'a [String],
    count: u32,
    gate: &G,
) -> Result<Answer, Memory>
    requires files { files.old ≡ generated_files count }
    requires words { map string_bytes words.now ≡ generated_words count }
    ensures { IfOk result (TellsGenerated count) }
{
    let command = match read_words(alloc, words) {
        Ok(command) => command,
        Err(WordsError::Usage { index, kind }) => {
            return words_refused(alloc, index, usage_word(kind));
        }
        Err(WordsError::Memory) => return Err(Memory),
    };
    match command {
        Command::Link(options) => link_by_options(rt, alloc, files, arena, &options, count, gate),
        _ => unreachable!(),
    }
}

/// Links these files, of which no read fails.
fn link_by_options<'a, R: Threads + Sync, G: Gate>(
    rt: &R,
    alloc: Global,
    files: &mut NeverFails,
    arena: &'a Bump,
    options: &Options<'a>,
    count: u32,
    gate: &G,
) -> Result<Answer, Memory>
    ensures { IfOk result (TellsLink (LinkOutcome (options_said options.now) files.old) count) }
{
    let mut inputs = Inputs::new(arena);
    match plan(rt, alloc, files, &mut inputs, options, gate) {
        Ok(plan) => make_image(rt, alloc, options, &plan, count, gate),
        Err(Stop::Fault(fault)) => refused(alloc, &fault),
        Err(Stop::Read(_)) => unreachable!(),
        Err(Stop::Memory) => Err(Memory),
    }
}

/// Makes the image of a plan, and shows what becomes of its code.
fn make_image<'a, R: Threads + Sync, G: Gate>(
    rt: &R,
    alloc: Global,
    options: &Options<'a>,
    plan: &LinkPlan<'a>,
    count: u32,
    gate: &G,
) -> Result<Answer, Memory>
    requires planned { IsPlanOf (options_said options.now) plan.now.modules.items plan.now }
    ensures { IfOk result (TellsLink (ModulesOutcome (options_said options.now) plan.now.modules.items (plan_resources plan.now)) count) }
{
    match build(rt, alloc, plan, options, gate) {
        Ok(built) => show_sums(alloc, &built.image, count),
        Err(Refusal::Fault(fault)) => refused(alloc, &fault),
        Err(Refusal::Memory) => Err(Memory),
    }
}

/// Shows the sums of the bytes of the code of an image at the two bases.
fn show_sums(alloc: Global, image: &[u8], count: u32) -> Result<Answer, Memory>
    ensures { IfOk result (λ answer. Says answer (image_told count image.now)) }
{
    let Some(own) = sum_at(alloc, image, OWN_BASE)? else {
        return refused(alloc, &Fault::BasePermit { base: OWN_BASE });
    };
    let Some(other) = sum_at(alloc, image, OTHER_BASE)? else {
        return refused(alloc, &Fault::BasePermit { base: OTHER_BASE });
    };
    let line = generated_line(alloc, count, image.len() as u64, own, other)?;
    Ok(Answer {
        status: Status::Done,
        line,
    })
}
