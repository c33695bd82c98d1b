//! The identifier of an image, in the data that names its PDB.

ghost use Rattle.std.specs.Prelude.{◌≡◌, true, length, IfOk, OnOk};
ghost use Rattle.link_base.specs.PeFormat.{NUMBEROF_DIRECTORY_ENTRIES};
ghost use Rattle.debug_entry.specs.Identifier.{image_identifier};
ghost use Rattle.link_words.specs.Outcome.{options_said};
ghost use Rattle.link_plan.specs.Plan.{IsPlanOf, kept_parts};
ghost use Rattle.link_image.specs.Steps.{IsReady, numbered_indexes, identified_file, reloc_tables, sorted_file};

use crate::placement::Placement;
use debug_entry::image_identifier;
use image_writer::Headers;
use link_base::Memory;
use link_plan::LinkPlan;
use link_words::Options;
use piece_bytes::write_pieces;
use std::alloc::Global;
use synthetic_sections::DEBUG_DATA;

/// The identifier that the file of an image tells, which is put into the data that names its PDB; zero where it has none. The
/// tables are these pieces, and `owner` has the index of the section of each piece.
pub(crate) fn identify<'a>(
    alloc: Global,
    image: &mut Vec<u8>,
    plan: &LinkPlan<'a>,
    options: &Options<'a>,
    headers: &Headers,
    placement: &Placement<'a>,
    places: &[Option<usize>; 9],
    owner: &[u32],
) -> Result<[u8; 16], Memory>
    requires plan { IsPlanOf (options_said options.now) plan.now.modules.items plan.now }
    requires places { places.now ≡ numbered_indexes (length plan.now.modules.items) plan.now.pieces.items }
    requires ready { IsReady (kept_parts plan.now) plan.now.pieces.items plan.now.fixes.items placement.now.sections.items placement.now.layout owner.now (reloc_tables placement.now.table) }
    requires directories { length headers.now.directories ≡ NUMBEROF_DIRECTORY_ENTRIES }
    requires file { image.old.items ≡ sorted_file headers.now plan.now placement.now }
    ensures identifier { IfOk result (λ id. options.now.debug ≡ true → id ≡ image_identifier (sorted_file headers.now plan.now placement.now)) }
    ensures file { OnOk result (image.new.items ≡ identified_file headers.now plan.now placement.now) }
{
    let Some(k) = places[DEBUG_DATA as usize] else {
        return Ok([0; 16]);
    };
    let id = image_identifier(image);
    let data = plan.names.debug().data(alloc, &id)?;
    let section = owner[k] as usize;
    write_pieces(
        image,
        &data,
        &placement.layout,
        &plan.pieces,
        section,
        &[k as u32],
    );
    Ok(id)
}
