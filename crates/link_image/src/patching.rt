//! The fields of the pieces, patched in the file of the image by several parts.

ghost use Rattle.std.specs.Prelude.{◌≡◌, ◌++◌, true, None, IfOk, IfErr, OnOk, length, map};
ghost use Rattle.std.specs.List.{All};
ghost use Rattle.link_base.specs.PeFormat.{NUMBEROF_DIRECTORY_ENTRIES};
ghost use Rattle.link_base.specs.Refusals.{RefusesFor};
ghost use Rattle.section_group.specs.Uniqueness.{rows_of};
ghost use Rattle.link_plan.specs.Plan.{kept_parts};
ghost use Rattle.link_image.specs.LinkedBytes.{placed_contents, linked_contents, fields_range_fault};
ghost use Rattle.link_image.specs.PatchJobs.{CanHaveJob, CanHaveJobs, IsJob, AreJobs, has_fields, job_place, piece_and_place, places_at};
ghost use Rattle.link_image.specs.Steps.{IsReady, file_of, reloc_tables};

use crate::placement::Placement;
use address_layout::Layout;
use image_writer::Headers;
use link_base::{Fault, Memory, Refusal};
use link_files::Gate;
use link_plan::LinkPlan;
use par_patch::{Job, patch_all};
use piece_bytes::place_in_section;
use std::alloc::Global;
use std::thread::Threads;

/// By how many parts the fields are patched.
const PATCHING_PARTS: usize = 8;

/// Patches the fields of all pieces in the file of an image, by several parts. `owner` has the section of each piece. The
/// first field whose value does not fit is refused (`RelocRange`), and the file is then of no use.
pub(crate) fn patch_pieces<'a, R: Threads + Sync, G: Gate>(
    rt: &R,
    alloc: Global,
    image: &mut Vec<u8>,
    plan: &LinkPlan<'a>,
    headers: &Headers,
    placement: &Placement<'a>,
    owner: &[u32],
    gate: &G,
) -> Result<(), Refusal<'a>>
    requires ready { IsReady (kept_parts plan.now) plan.now.pieces.items plan.now.fixes.items placement.now.sections.items placement.now.layout owner.now (reloc_tables placement.now.table) }
    requires directories { length headers.now.directories ≡ NUMBEROF_DIRECTORY_ENTRIES }
    requires file { image.old.items ≡ file_of headers.now placement.now.sections.items placement.now.layout (placed_contents (kept_parts plan.now) placement.now.layout) (reloc_tables placement.now.table) }
    ensures patched { OnOk result (image.new.items ≡ file_of headers.now placement.now.sections.items placement.now.layout
        (linked_contents (kept_parts plan.now) (rows_of placement.now.sections.items) placement.now.layout headers.now.base) (reloc_tables placement.now.table)) }
    ensures in_range { OnOk result (fields_range_fault (kept_parts plan.now) (rows_of placement.now.sections.items) placement.now.layout headers.now.base ≡ None) }
    ensures refused { IfErr result (RefusesFor (fields_range_fault (kept_parts plan.now) (rows_of placement.now.sections.items) placement.now.layout headers.now.base)) }
{
    let jobs = patch_jobs(alloc, plan, placement)?;
    let base = headers.base;
    let layout = &placement.layout;
    match patch_all(rt, image, &jobs, base, layout, owner, PATCHING_PARTS, gate) {
        Ok(()) => Ok(()),
        Err(range) => Err(Refusal::Fault(Fault::RelocRange {
            module: Some(range.module),
            section: range.section,
            relocation: range.index,
            value: range.value,
        })),
    }
}

/// A job for each piece with fields, in the order in which the pieces stand in the file.
fn patch_jobs<'b, 'a>(
    alloc: Global,
    plan: &'b LinkPlan<'a>,
    placement: &Placement<'a>,
) -> Result<Vec<Job<'b>>, Memory>
    requires { CanHaveJobs plan.now.pieces.items plan.now.fixes.items placement.now.sections.items placement.now.layout }
    ensures { IfOk result (λ jobs. AreJobs plan.now.pieces.items plan.now.fixes.items placement.now.sections.items placement.now.layout jobs.items) }
{
    let mut jobs = Vec::new(alloc);
    for section in 0..placement.sections.len() {
        let members = &placement.sections[section].pieces;
        push_jobs(&mut jobs, plan, &placement.layout, section, members)?;
    }
    Ok(jobs)
}

/// Appends a job for each piece of a section that has fields.
fn push_jobs<'b, 'a>(
    jobs: &mut Vec<Job<'b>>,
    plan: &'b LinkPlan<'a>,
    layout: &Layout,
    section: usize,
    members: &[u32],
) -> Result<(), Memory>
    requires place { All (CanHaveJob plan.now.pieces.items plan.now.fixes.items layout.now section) members.now }
    requires each { All (IsJob plan.now.pieces.items plan.now.fixes.items) jobs.old.items }
    ensures places { OnOk result (map job_place jobs.new.items ≡ map job_place jobs.old.items ++ places_at plan.now.fixes.items layout.now section members.now) }
    ensures each { OnOk result (All (IsJob plan.now.pieces.items plan.now.fixes.items) jobs.new.items) }
{
    for member in members {
        if has_fields(plan, *member) {
            jobs.push(job_of(plan, layout, section, *member))?;
        }
    }
    Ok(())
}

/// Whether a piece has fields. The table of base relocations, which is no piece of the plan, has none.
fn has_fields<'a>(plan: &LinkPlan<'a>, piece: u32) -> bool
    ensures { result ≡ has_fields plan.now.fixes.items piece }
{
    let k = piece as usize;
    k < plan.fixes.len() && !plan.fixes[k].is_empty()
}

/// The job of a piece of a section.
fn job_of<'b, 'a>(plan: &'b LinkPlan<'a>, layout: &Layout, section: usize, piece: u32) -> Job<'b>
    requires place { CanHaveJob plan.now.pieces.items plan.now.fixes.items layout.now section piece }
    requires fields { has_fields plan.now.fixes.items piece ≡ true }
    ensures place { job_place result ≡ piece_and_place layout.now section piece }
    ensures is { IsJob plan.now.pieces.items plan.now.fixes.items result }
{
    let k = piece as usize;
    let of = &plan.pieces[k];
    Job {
        piece,
        module: of.module,
        section: of.number,
        start: place_in_section(layout, section, k),
        len: of.size as usize,
        fixups: &plan.fixes[k],
    }
}
