//! Where everything stands: the pieces in their sections, and after them the table of base relocations.

ghost use Rattle.std.specs.Prelude.{◌≡◌, ◌<◌, ◌+◌, ◌-◌, ◌^◌, true, length, slice_index, IfOk, IfErr, OnOk};
ghost use Rattle.std.specs.List.{All};
ghost use Rattle.address_layout.specs.PermittedBase.{is_permitted};
ghost use Rattle.link_words.specs.Outcome.{options_said};
ghost use Rattle.link_plan.specs.Plan.{IsPlanOf, kept_parts};
ghost use Rattle.link_image.specs.BaseFields.{is_relocated};
ghost use Rattle.link_image.specs.LinkedImage.{base_rule, entry_rva, table_directory, AreGrouped, ArePlaced};
ghost use Rattle.link_image.specs.BuildFaults.{RefusesBuild};
ghost use Rattle.link_image.specs.Steps.{IsPlaced, IsTable, EndsWithTable, reloc_tables};

use crate::sections::{group_pieces, place_pieces};
use address_fields::{base_fields, hold_address};
use address_layout::{BaseRule, Layout, LayoutError, append_reloc, check_base};
use base_reloc::blocks;
use link_base::pe_format::{SCN_CNT_INITIALIZED_DATA, SCN_MEM_DISCARDABLE, SCN_MEM_READ};
use link_base::{Fault, Memory, Name, Refusal};
use link_plan::LinkPlan;
use link_words::Options;
use piece_bytes::rva_in;
use section_group::OutSection;
use std::alloc::Global;

/// The flags of the section of base relocations.
pub(crate) const TABLE_FLAGS: u32 = SCN_CNT_INITIALIZED_DATA | SCN_MEM_DISCARDABLE | SCN_MEM_READ;

/// Where everything stands.
#[derive(Drop)]
pub(crate) struct Placement<'a> {
    /// The sections, of which that of base relocations is the last.
    pub(crate) sections: Vec<OutSection<'a>>,
    pub(crate) layout: Layout,
    /// The table of base relocations, where the image has one.
    pub(crate) table: Option<Vec<u8>>,
}

/// The pieces in their sections and at their places, and after them the table of base relocations, where the image can move
/// and holds an address.
pub(crate) fn place_all<'a>(
    alloc: Global,
    plan: &LinkPlan<'a>,
    options: &Options<'a>,
) -> Result<Placement<'a>, Refusal<'a>>
    requires { IsPlanOf (options_said options.now) plan.now.modules.items plan.now }
    ensures placed { IfOk result (IsPlaced (options_said options.now) plan.now) }
    ensures refused { IfErr result (RefusesBuild (options_said options.now) (kept_parts plan.now)) }
{
    let sections = group_pieces(alloc, plan, options)?;
    let relocated = is_relocated(plan, options);
    let layout = place_pieces(alloc, plan, options, &sections, relocated)?;
    if !relocated {
        return Ok(Placement {
            sections,
            layout,
            table: None,
        });
    }
    let fields = base_fields(alloc, &sections, &layout.pieces, &plan.fixes)?;
    let table = blocks(alloc, &fields)?;
    append_table(alloc, plan, options, sections, layout, table)
}

/// Whether the image has a table of base relocations.
fn is_relocated<'a>(plan: &LinkPlan<'a>, options: &Options<'a>) -> bool
    requires { IsPlanOf (options_said options.now) plan.now.modules.items plan.now }
    ensures { result ≡ is_relocated (options_said options.now) (kept_parts plan.now) }
{
    !options.fixed && hold_address(&plan.fixes)
}

/// The table as one more section and piece.
fn append_table<'a>(
    alloc: Global,
    plan: &LinkPlan<'a>,
    options: &Options<'a>,
    sections: Vec<OutSection<'a>>,
    layout: Layout,
    table: Vec<u8>,
) -> Result<Placement<'a>, Refusal<'a>>
    requires plan { IsPlanOf (options_said options.now) plan.now.modules.items plan.now }
    requires grouped { AreGrouped (options_said options.now) (kept_parts plan.now) plan.now.pieces.items sections.items }
    requires placed { ArePlaced plan.now.pieces.items sections.items true layout }
    requires relocated { is_relocated (options_said options.now) (kept_parts plan.now) ≡ true }
    requires table { IsTable (kept_parts plan.now) layout.pieces.items table.items }
    ensures placed { IfOk result (IsPlaced (options_said options.now) plan.now) }
    ensures refused { IfErr result (RefusesBuild (options_said options.now) (kept_parts plan.now)) }
{
    let mut sections = sections;
    let mut layout = layout;
    let len = table_len(&table)?;
    match append_reloc(alloc, &mut layout, len) {
        Ok(()) => {}
        Err(LayoutError::ImageTooLarge(size)) => {
            return Err(Refusal::Fault(Fault::ImageTooLarge { size }));
        }
        Err(_) => return Err(Refusal::Memory),
    }
    push_table(alloc, &mut sections, plan.pieces.len() as u32)?;
    Ok(Placement {
        sections,
        layout,
        table: Some(table),
    })
}

/// The length of a table, as a number of 32 bits. A table that is as long as that would not fit into an image.
fn table_len(table: &[u8]) -> Result<u32, Memory>
    ensures len { IfOk result (λ len. len ≡ length table.now) }
    ensures small { OnOk result (length table.now < 2 ^ 32) }
{
    match u32::try_from(table.len()) {
        Ok(len) => Ok(len),
        Err(_) => Err(Memory),
    }
}

/// Appends the section of base relocations, whose piece has an index.
fn push_table<'a>(
    alloc: Global,
    sections: &mut Vec<OutSection<'a>>,
    piece: u32,
) -> Result<(), Memory>
    ensures { OnOk result (EndsWithTable sections.old.items sections.new.items piece) }
{
    let mut pieces = Vec::with_capacity(alloc, 1)?;
    pieces.push(piece)?;
    sections.push(OutSection {
        name: Name::of(b".reloc"),
        flags: TABLE_FLAGS,
        pieces,
    })?;
    Ok(())
}

/// That the image may stand at the base that it prefers.
pub(crate) fn check_own_base<'a>(
    plan: &LinkPlan<'a>,
    options: &Options<'a>,
    placement: &Placement<'a>,
) -> Result<(), Refusal<'a>>
    requires plan { IsPlanOf (options_said options.now) plan.now.modules.items plan.now }
    requires placed { IsPlaced (options_said options.now) plan.now placement.now }
    ensures permitted { OnOk result (is_permitted (base_rule (options_said options.now)) placement.now.layout.image options.now.base ≡ true) }
    ensures refused { IfErr result (RefusesBuild (options_said options.now) (kept_parts plan.now)) }
{
    let rule = BaseRule {
        base: options.base,
        fixed: options.fixed,
        large: options.large,
    };
    match check_base(&rule, &placement.layout) {
        Ok(()) => Ok(()),
        Err(_) => Err(Refusal::Fault(Fault::BaseRange { base: options.base })),
    }
}

/// The RVA at which the image begins, or 0 where it begins nowhere.
pub(crate) fn entry_rva<'a>(
    plan: &LinkPlan<'a>,
    options: &Options<'a>,
    placement: &Placement<'a>,
) -> u32
    requires plan { IsPlanOf (options_said options.now) plan.now.modules.items plan.now }
    requires placed { IsPlaced (options_said options.now) plan.now placement.now }
    ensures { result ≡ entry_rva placement.now.layout.pieces.items plan.now.entry }
{
    match &plan.entry {
        None => 0,
        Some(place) => rva_in(placement.layout.pieces[place.piece as usize], place.value),
    }
}

/// The RVA and the size of the table of base relocations, which is the last piece.
pub(crate) fn table_directory(placement: &Placement<'_>) -> (u32, u32)
    requires { All (λ table. length table < 2 ^ 32) (reloc_tables placement.now.table) }
    ensures { result ≡ table_directory placement.now.layout (reloc_tables placement.now.table) }
{
    match &placement.table {
        None => (0, 0),
        Some(table) => (last_rva(&placement.layout.pieces), table.len() as u32),
    }
}

/// The RVA of the last piece, or 0 where there is none.
fn last_rva(rvas: &[u32]) -> u32
    ensures { result ≡ slice_index rvas.now (length rvas.now - 1) }
{
    match rvas.last() {
        Some(rva) => *rva,
        None => 0,
    }
}
