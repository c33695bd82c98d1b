//! The exception table: what is wrong with its pieces, and its rows in order.

ghost use Rattle.std.specs.Prelude.{◌≡◌, ◌<◌, length, None, Some, OnOk, IfErr};
ghost use Rattle.link_base.specs.PeFormat.{NUMBEROF_DIRECTORY_ENTRIES};
ghost use Rattle.section_group.specs.Uniqueness.{rows_of};
ghost use Rattle.link_pieces.specs.Pieces.{link_pieces};
ghost use Rattle.link_words.specs.Outcome.{options_said};
ghost use Rattle.link_plan.specs.Plan.{IsPlanOf, kept_parts};
ghost use Rattle.link_image.specs.LinkedBytes.{linked_contents};
ghost use Rattle.pdata_table.specs.SortedContents.{sorted_contents};
ghost use Rattle.link_image.specs.NamedSections.{pdata_pieces};
ghost use Rattle.link_image.specs.TableFaults.{is_bad_pdata, bad_pdata, pdata_fault_at, pdata_fault};
ghost use Rattle.link_image.specs.Steps.{IsReady, file_of, reloc_tables};

use crate::placement::Placement;
use crate::tables::section_named;
use image_writer::Headers;
use link_base::{Fault, Memory};
use link_fields::is_pdata;
use link_plan::LinkPlan;
use link_words::Options;
use pdata_table::sort_rows;
use piece_bytes::{read_pieces, write_pieces};
use section_group::Piece;
use std::alloc::Global;

/// The length of a row of the exception table.
const ROW_LEN: u32 = 12;

/// That the pieces of the exception table hold whole rows. The first that does not is refused.
#[tactic(auto, unfolding(crate::specs::TableFaults::pdata_fault))]
pub(crate) fn check_pdata<'a>(plan: &LinkPlan<'a>, options: &Options<'a>) -> Result<(), Fault<'a>>
    requires { IsPlanOf (options_said options.now) plan.now.modules.items plan.now }
    ensures accepted { OnOk result (pdata_fault (kept_parts plan.now) ≡ None) }
    ensures refused { IfErr result (λ fault. pdata_fault (kept_parts plan.now) ≡ Some fault) }
{
    let first = plan.kept.len() - plan.modules.len();
    for k in 0..first {
        check_piece(plan, options, k)?;
    }
    Ok(())
}

/// That a piece holds whole rows, where it is kept and one of the exception table.
fn check_piece<'a>(plan: &LinkPlan<'a>, options: &Options<'a>, k: usize) -> Result<(), Fault<'a>>
    requires plan { IsPlanOf (options_said options.now) plan.now.modules.items plan.now }
    requires piece { k < length (link_pieces plan.now.names) }
    ensures accepted { OnOk result (pdata_fault_at (kept_parts plan.now) k ≡ None) }
    ensures refused { IfErr result (λ fault. pdata_fault_at (kept_parts plan.now) k ≡ Some fault) }
{
    let piece = &plan.pieces[k];
    let is_bad = plan.kept[k] & is_bad_pdata(piece);
    if is_bad {
        return Err(bad_pdata(piece));
    }
    Ok(())
}

/// Whether a piece is one of the exception table, and has bytes that are no whole rows or that the file does not hold.
#[tactic(auto, unfolding(crate::specs::TableFaults::is_bad_pdata))]
fn is_bad_pdata(piece: &Piece<'_>) -> bool
    ensures { result ≡ is_bad_pdata piece.now }
{
    is_pdata(piece) && piece.size > 0 && (!piece.init || piece.size % ROW_LEN != 0)
}

fn bad_pdata<'a>(piece: &Piece<'a>) -> Fault<'a>
    ensures { result ≡ bad_pdata piece.now }
{
    Fault::BadPdata {
        module: Some(piece.module),
        section: piece.number,
    }
}

/// Puts the rows of the exception table in order, in the file of an image whose fields are patched.
pub(crate) fn sort_pdata<'a>(
    alloc: Global,
    image: &mut Vec<u8>,
    plan: &LinkPlan<'a>,
    headers: &Headers,
    placement: &Placement<'a>,
    owner: &[u32],
) -> Result<(), Memory>
    requires ready { IsReady (kept_parts plan.now) plan.now.pieces.items plan.now.fixes.items placement.now.sections.items placement.now.layout owner.now (reloc_tables placement.now.table) }
    requires directories { length headers.now.directories ≡ NUMBEROF_DIRECTORY_ENTRIES }
    requires file { image.old.items ≡ file_of headers.now placement.now.sections.items placement.now.layout
        (linked_contents (kept_parts plan.now) (rows_of placement.now.sections.items) placement.now.layout headers.now.base) (reloc_tables placement.now.table) }
    ensures { OnOk result (image.new.items ≡ file_of headers.now placement.now.sections.items placement.now.layout
        (sorted_contents (pdata_pieces (rows_of placement.now.sections.items)) (linked_contents (kept_parts plan.now) (rows_of placement.now.sections.items) placement.now.layout headers.now.base))
        (reloc_tables placement.now.table)) }
{
    let Some(section) = section_named(&placement.sections, b".pdata") else {
        return Ok(());
    };
    let members = &placement.sections[section].pieces;
    let layout = &placement.layout;
    let mut table = read_pieces(alloc, image, layout, &plan.pieces, section, members)?;
    sort_rows(alloc, &mut table)?;
    write_pieces(image, &table, layout, &plan.pieces, section, members);
    Ok(())
}
