//! The exports of an image: what is wrong with them, and their table once the pieces have places.

ghost use Rattle.std.specs.Prelude.{◌≡◌, ◌≤◌, ◌<◌, ◌^◌, ◌+◌, true, None, Some, length, map, IsTrue, IfOk, OnOk, IfErr};
ghost use Rattle.std.specs.List.{All};
ghost use Rattle.link_base.specs.Refusals.{first_standing};
ghost use Rattle.address_layout.specs.PermittedBase.{is_permitted};
ghost use Rattle.synthetic_sections.specs.LinkerPieces as linker;
ghost use Rattle.link_pieces.specs.TablePieces.{KeptParts, table_index};
ghost use Rattle.link_words.specs.Outcome.{options_said};
ghost use Rattle.link_fields.specs.ExportTargets.{export_target};
ghost use Rattle.link_plan.specs.Planned.{planned_target, planned_targets};
ghost use Rattle.link_plan.specs.Plan.{IsPlanOf, kept_parts};
ghost use Rattle.link_image.specs.LinkedBytes.{exported_row, exported_rows, target_rva, export_table_at};
ghost use Rattle.link_image.specs.ExportFaults.{absolute_fault, export_fault, inside_of, in_table_fault, is_absolute, lies_in};
ghost use Rattle.link_image.specs.LinkedImage.{base_rule};
ghost use Rattle.link_image.specs.BuildFaults.{RefusesBuild};
ghost use Rattle.link_image.specs.Steps.{numbered_indexes, targets_of, IsGiven, IsPlaced};

use crate::placement::Placement;
use directives::Export;
use export_tables::{ExportRow, ExportTo, fill};
use link_base::{ExportFault, Fault, Memory, Refusal};
use link_exports::table_row;
use link_plan::LinkPlan;
use link_words::Options;
use relocate::Target;
use std::alloc::Global;
use synthetic_sections::EXPORTS;

/// That the ordinals of the exports can be given, and that each export stands for a place. The first that is wrong is
/// refused.
#[tactic(auto, unfolding(crate::specs::ExportFaults::export_fault))]
pub(crate) fn check_exports<'a>(plan: &LinkPlan<'a>) -> Result<(), Fault<'a>>
    requires { plan.now.exported.items ≡ planned_targets (kept_parts plan.now) }
    ensures accepted { OnOk result (export_fault (kept_parts plan.now) ≡ None) }
    ensures refused { IfErr result (λ fault. export_fault (kept_parts plan.now) ≡ Some fault) }
{
    let exports = plan.names.exports();
    if let Some(fault) = exports.fault() {
        return Err(fault);
    }
    check_places(exports.rows(), &plan.exported)
}

/// That each of some exports stands for a place, by what they stand for.
fn check_places<'a>(rows: &[Export<'a>], targets: &[Option<Target>]) -> Result<(), Fault<'a>>
    requires { length targets.now ≡ length rows.now }
    ensures accepted { OnOk result ((link : KeptParts) → targets.now ≡ targets_of link rows.now → first_standing (map (absolute_fault link) rows.now) ≡ None) }
    ensures refused { IfErr result (λ fault. (link : KeptParts) → targets.now ≡ targets_of link rows.now → first_standing (map (absolute_fault link) rows.now) ≡ Some fault) }
{
    for k in 0..rows.len() {
        check_place(&rows[k], &targets[k])?;
    }
    Ok(())
}

/// That an export stands for a place, by what it stands for.
fn check_place<'a>(row: &Export<'a>, target: &Option<Target>) -> Result<(), Fault<'a>>
    ensures accepted { OnOk result ((link : KeptParts) → target.now ≡ planned_target link (export_target link.parts row.now) → absolute_fault link row.now ≡ None) }
    ensures refused { IfErr result (λ fault. (link : KeptParts) → target.now ≡ planned_target link (export_target link.parts row.now) → absolute_fault link row.now ≡ Some fault) }
{
    if is_absolute(target) {
        return Err(Fault::BadExport {
            kind: ExportFault::Absolute,
            name: row.name.again(),
        });
    }
    Ok(())
}

/// Whether an export stands for a number, or for the start of the image.
fn is_absolute(target: &Option<Target>) -> bool
    ensures { result ≡ is_absolute target.now }
{
    match target {
        Some(Target::Absolute(_) | Target::ImageBase) => true,
        Some(Target::Piece { .. }) | None => false,
    }
}

/// The export table of the image, whose tables are these pieces; empty where it has none. An export that lies in the table
/// itself is refused. An export at the RVA 0, where no piece stands, would be want of memory.
pub(crate) fn export_table<'a>(
    alloc: Global,
    plan: &LinkPlan<'a>,
    options: &Options<'a>,
    placement: &Placement<'a>,
    places: &[Option<usize>; 9],
) -> Result<Vec<u8>, Refusal<'a>>
    requires plan { IsPlanOf (options_said options.now) plan.now.modules.items plan.now }
    requires placed { IsPlaced (options_said options.now) plan.now placement.now }
    requires permitted { is_permitted (base_rule (options_said options.now)) placement.now.layout.image options.now.base ≡ true }
    requires places { places.now ≡ numbered_indexes (length plan.now.modules.items) plan.now.pieces.items }
    ensures table { IfOk result (λ table. table.items ≡ export_table_at (kept_parts plan.now) placement.now.layout) }
    ensures outside { OnOk result (in_table_fault (kept_parts plan.now) placement.now.layout.pieces.items ≡ None) }
    ensures given { OnOk result (0 < plan.now.names.exports.size → All (λ row. IsGiven row.what) (exported_rows (kept_parts plan.now) placement.now.layout.pieces.items)) }
    ensures refused { IfErr result (RefusesBuild (options_said options.now) (kept_parts plan.now)) }
{
    match places[EXPORTS as usize] {
        None => Ok(Vec::new(alloc)),
        Some(k) => table_at(alloc, plan, options, placement, k),
    }
}

/// The export table of the image, which is the piece of an index.
fn table_at<'a>(
    alloc: Global,
    plan: &LinkPlan<'a>,
    options: &Options<'a>,
    placement: &Placement<'a>,
    k: usize,
) -> Result<Vec<u8>, Refusal<'a>>
    requires plan { IsPlanOf (options_said options.now) plan.now.modules.items plan.now }
    requires placed { IsPlaced (options_said options.now) plan.now placement.now }
    requires permitted { is_permitted (base_rule (options_said options.now)) placement.now.layout.image options.now.base ≡ true }
    requires found { table_index (kept_parts plan.now) linker.EXPORTS ≡ Some k }
    ensures table { IfOk result (λ table. table.items ≡ export_table_at (kept_parts plan.now) placement.now.layout) }
    ensures outside { OnOk result (in_table_fault (kept_parts plan.now) placement.now.layout.pieces.items ≡ None) }
    ensures given { OnOk result (All (λ row. IsGiven row.what) (exported_rows (kept_parts plan.now) placement.now.layout.pieces.items)) }
    ensures refused { IfErr result (RefusesBuild (options_said options.now) (kept_parts plan.now)) }
{
    let exports = plan.names.exports();
    let rvas = &placement.layout.pieces;
    let rva = rvas[k];
    let rows = placed_rows(alloc, exports.rows(), &plan.exported, rvas)?;
    check_outside(&rows, rva, exports.size())?;
    let table = fill(
        alloc,
        &rows,
        exports.ordinals(),
        exports.dll(),
        exports.time(),
        rva,
    )?;
    Ok(table)
}

/// Exports as rows of the table, by what they stand for, where pieces have these RVAs.
fn placed_rows<'a>(
    alloc: Global,
    rows: &[Export<'a>],
    targets: &[Option<Target>],
    rvas: &[u32],
) -> Result<Vec<ExportRow<'a>>, Memory>
    requires { length targets.now ≡ length rows.now }
    ensures rows { IfOk result (λ placed. (link : KeptParts) → targets.now ≡ targets_of link rows.now → placed.items ≡ map (exported_row link rvas.now) rows.now) }
    ensures given { IfOk result (λ placed. All (λ row. IsGiven row.what) placed.items) }
{
    let mut placed = Vec::with_capacity(alloc, rows.len())?;
    for k in 0..rows.len() {
        let row = placed_row(&rows[k], &targets[k], rvas)?;
        placed.push(row)?;
    }
    Ok(placed)
}

/// An export as a row of the table.
fn placed_row<'a>(
    row: &Export<'a>,
    target: &Option<Target>,
    rvas: &[u32],
) -> Result<ExportRow<'a>, Memory>
    ensures row { IfOk result (λ placed. (link : KeptParts) → target.now ≡ planned_target link (export_target link.parts row.now) → placed ≡ exported_row link rvas.now row.now) }
    ensures given { IfOk result (λ placed. IsGiven placed.what) }
{
    let rva = target_rva(rvas, target)?;
    let placed = table_row(row, rva);
    if is_given(&placed.what) {
        Ok(placed)
    } else {
        Err(Memory)
    }
}

/// Whether an export that stands for an address stands for one that is not 0.
fn is_given(what: &ExportTo<'_>) -> bool
    ensures { IsTrue result → IsGiven what.now }
{
    match what {
        ExportTo::Rva(rva) => *rva > 0,
        ExportTo::Forward(_) => true,
    }
}

/// The RVA of what an export stands for, where pieces have these RVAs.
fn target_rva(rvas: &[u32], target: &Option<Target>) -> Result<u32, Memory>
    ensures { IfOk result (λ rva. rva ≡ target_rva rvas.now target.now) }
{
    let Some(Target::Piece { piece, value }) = target else {
        return Ok(0);
    };
    let Some(start) = rvas.get(*piece as usize) else {
        return Err(Memory);
    };
    start.checked_add(*value).ok_or(Memory)
}

/// That none of some rows lies in the table of this size at an RVA.
fn check_outside<'a>(rows: &[ExportRow<'a>], rva: u32, size: u32) -> Result<(), Fault<'a>>
    requires { rva + size < 2 ^ 32 }
    ensures accepted { OnOk result (first_standing (map (inside_of rva size) rows.now) ≡ None) }
    ensures refused { IfErr result (λ fault. first_standing (map (inside_of rva size) rows.now) ≡ Some fault) }
{
    for row in rows {
        check_row(row, rva, size)?;
    }
    Ok(())
}

/// That a row does not lie in the table.
fn check_row<'a>(row: &ExportRow<'a>, rva: u32, size: u32) -> Result<(), Fault<'a>>
    requires { rva + size < 2 ^ 32 }
    ensures accepted { OnOk result (inside_of rva size row.now ≡ None) }
    ensures refused { IfErr result (λ fault. inside_of rva size row.now ≡ Some fault) }
{
    if lies_in(rva, size, &row.what) {
        return Err(Fault::BadExport {
            kind: ExportFault::InTable,
            name: row.name.again(),
        });
    }
    Ok(())
}

/// Whether an address lies in the table.
fn lies_in(rva: u32, size: u32, what: &ExportTo<'_>) -> bool
    requires { rva + size < 2 ^ 32 }
    ensures { result ≡ lies_in rva size what.now }
{
    match what {
        ExportTo::Rva(address) => rva <= *address && *address < rva + size,
        ExportTo::Forward(_) => false,
    }
}
