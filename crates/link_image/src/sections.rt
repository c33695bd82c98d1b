//! Where the pieces of a plan stand.

ghost use Rattle.std.specs.Prelude.{◌≡◌, ◌≤◌, ◌-◌, ◌++◌, true, length, take, replicate, IfOk, IfErr};
ghost use Rattle.link_words.specs.Outcome.{options_said};
ghost use Rattle.link_plan.specs.Plan.{IsPlanOf, kept_parts};
ghost use Rattle.link_image.specs.BaseFields.{is_relocated};
ghost use Rattle.link_image.specs.LinkedImage.{AreGrouped, ArePlaced};
ghost use Rattle.link_image.specs.BuildFaults.{RefusesBuild};
ghost use Rattle.link_image.specs.Steps.{AreMerged};

use crate::exports::check_exports;
use crate::pdata::check_pdata;
use address_layout::{Layout, LayoutError, place};
use link_base::{Fault, Memory, Refusal};
use link_plan::LinkPlan;
use link_words::Options;
use section_group::{GroupError, OutSection, group};
use std::alloc::Global;

/// The pieces in sections, by their names and the merges of the link; and that neither the exception table nor an
/// export is bad.
pub(crate) fn group_pieces<'a>(
    alloc: Global,
    plan: &LinkPlan<'a>,
    options: &Options<'a>,
) -> Result<Vec<OutSection<'a>>, Refusal<'a>>
    requires { IsPlanOf (options_said options.now) plan.now.modules.items plan.now }
    ensures grouped { IfOk result (λ sections. AreGrouped (options_said options.now) (kept_parts plan.now) plan.now.pieces.items sections.items) }
    ensures refused { IfErr result (RefusesBuild (options_said options.now) (kept_parts plan.now)) }
{
    let sections = merge_pieces(alloc, plan, options)?;
    check_pdata(plan, options)?;
    check_exports(plan)?;
    Ok(sections)
}

/// The pieces that are kept and the tables in sections, by their names and the merges of the link.
fn merge_pieces<'a>(
    alloc: Global,
    plan: &LinkPlan<'a>,
    options: &Options<'a>,
) -> Result<Vec<OutSection<'a>>, Refusal<'a>>
    requires { IsPlanOf (options_said options.now) plan.now.modules.items plan.now }
    ensures merged { IfOk result (λ sections. AreMerged (options_said options.now) (kept_parts plan.now) plan.now.pieces.items sections.items) }
    ensures refused { IfErr result (RefusesBuild (options_said options.now) (kept_parts plan.now)) }
{
    let first = plan.kept.len() - plan.modules.len();
    let used = used_pieces(alloc, &plan.kept, first, plan.pieces.len())?;
    match group(alloc, &plan.pieces, &used, &plan.merges) {
        Ok(sections) => Ok(sections),
        Err(GroupError::BadMerge(name)) => Err(Refusal::Fault(Fault::BadMerge { name })),
        Err(GroupError::Memory) => Err(Refusal::Memory),
    }
}

/// Whether each of `count` pieces is used: the first where they are kept, and the tables behind them.
fn used_pieces(
    alloc: Global,
    kept: &[bool],
    first: usize,
    count: usize,
) -> Result<Vec<bool>, Memory>
    requires kept { first ≤ length kept.now }
    requires count { first ≤ count }
    ensures { IfOk result (λ used. used.items ≡ take first kept.now ++ replicate (count - first) true) }
{
    let mut used = Vec::with_capacity(alloc, count)?;
    used.extend_from_slice(&kept[..first])?;
    used.resize(count, true)?;
    Ok(used)
}

/// The places of the sections and their pieces, with room in the headers for the section of base relocations where it will
/// follow.
pub(crate) fn place_pieces<'a>(
    alloc: Global,
    plan: &LinkPlan<'a>,
    options: &Options<'a>,
    sections: &[OutSection<'a>],
    reloc: bool,
) -> Result<Layout, Refusal<'a>>
    requires plan { IsPlanOf (options_said options.now) plan.now.modules.items plan.now }
    requires grouped { AreGrouped (options_said options.now) (kept_parts plan.now) plan.now.pieces.items sections.now }
    requires reloc { reloc ≡ is_relocated (options_said options.now) (kept_parts plan.now) }
    ensures placed { IfOk result (ArePlaced plan.now.pieces.items sections.now reloc) }
    ensures refused { IfErr result (RefusesBuild (options_said options.now) (kept_parts plan.now)) }
{
    match place(alloc, &plan.pieces, sections, reloc) {
        Ok(layout) => Ok(layout),
        Err(LayoutError::TooManySections(count)) => Err(Refusal::Fault(Fault::TooManySections {
            count,
        })),
        Err(LayoutError::ImageTooLarge(size)) => Err(Refusal::Fault(Fault::ImageTooLarge { size })),
        Err(LayoutError::BaseRange(base)) => Err(Refusal::Fault(Fault::BaseRange { base })),
        Err(LayoutError::Memory) => Err(Refusal::Memory),
    }
}
