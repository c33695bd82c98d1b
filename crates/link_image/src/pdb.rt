//! The PDB of an image.

ghost use Rattle.std.specs.Prelude.{◌≡◌, ◌≤◌, ◌+◌, ◌*◌, length, option_map, IfOk, OnOk, IfErr};
ghost use Rattle.link_base.specs.Limits.{SECTION_LIMIT};
ghost use Rattle.link_base.specs.PeFormat.{SECTION_HEADERS_OFFSET, SIZEOF_SECTION_HEADER};
ghost use Rattle.section_group.specs.Uniqueness.{rows_of};
ghost use Rattle.pdb_msf.specs.WrittenFile.{msf_of};
ghost use Rattle.link_words.specs.Outcome.{options_said};
ghost use Rattle.link_plan.specs.Plan.{IsPlanOf, kept_parts};
ghost use Rattle.link_image.specs.LinkedBytes.{owners_in};
ghost use Rattle.link_image.specs.LinkPdb.{streams_at, asked_pdb, Fits, RefusesPdb};

use crate::map::listed_image;
use crate::placement::Placement;
use image_pdb::image_pdb;
use link_base::pe_format::{SECTION_HEADERS_OFFSET, SIZEOF_SECTION_HEADER};
use link_base::{Fault, MODULE_LIMIT, Refusal};
use link_plan::LinkPlan;
use link_words::Options;
use pdb_msf::MsfError;
use std::alloc::Global;

/// The PDB of an image with this identifier and this file, where one is asked for. One that would be too large is refused
/// (`PdbTooLarge`). More modules than a link can have are want of memory.
pub(crate) fn pdb_of<'a>(
    alloc: Global,
    plan: &LinkPlan<'a>,
    options: &Options<'a>,
    placement: &Placement<'a>,
    owner: &[u32],
    id: &[u8; 16],
    image: &[u8],
) -> Result<Option<Vec<u8>>, Refusal<'a>>
    requires plan { IsPlanOf (options_said options.now) plan.now.modules.items plan.now }
    requires few { length placement.now.sections.items ≤ SECTION_LIMIT }
    requires places { length placement.now.layout.sections.items ≡ length placement.now.sections.items }
    requires owner { owner.now ≡ owners_in (rows_of placement.now.sections.items) placement.now.layout }
    requires headers { SECTION_HEADERS_OFFSET + SIZEOF_SECTION_HEADER * length placement.now.sections.items ≤ length image.now }
    ensures pdb { IfOk result (λ pdb. option_map (λ bytes. bytes.items) pdb
        ≡ asked_pdb (options_said options.now) (msf_of (streams_at (options_said options.now) (kept_parts plan.now) (rows_of placement.now.sections.items) placement.now.layout id.now image.now))) }
    ensures fits { OnOk result (Fits (options_said options.now) (streams_at (options_said options.now) (kept_parts plan.now) (rows_of placement.now.sections.items) placement.now.layout id.now image.now)) }
    ensures refused { IfErr result (RefusesPdb (options_said options.now) (streams_at (options_said options.now) (kept_parts plan.now) (rows_of placement.now.sections.items) placement.now.layout id.now image.now)) }
{
    if !options.debug {
        return Ok(None);
    }
    if plan.modules.len() > MODULE_LIMIT {
        return Err(Refusal::Memory);
    }
    let start = SECTION_HEADERS_OFFSET as usize;
    let headers = &image[start..start + SIZEOF_SECTION_HEADER * placement.sections.len()];
    let listed = listed_image(plan, placement, owner);
    match image_pdb(alloc, &listed, options.time, id, headers) {
        Ok(pdb) => Ok(Some(pdb)),
        Err(MsfError::TooLarge(size)) => Err(Refusal::Fault(Fault::PdbTooLarge { size })),
        Err(MsfError::Memory) => Err(Refusal::Memory),
    }
}
