//! The relocations of pieces, each with what its symbol means.

ghost use Rattle.std.specs.Prelude.{◌≡◌, ◌≤◌, Some, None, IfOk, OnOk, slice_index_or};
ghost use Rattle.coff_records.specs.ObjectFile.{section_total};
ghost use Rattle.module_view.specs.Module.{module_at};
ghost use Rattle.link_pieces.specs.PieceIndex.{IsPieceIndex};
ghost use Rattle.link_fields.specs.Targets.{record_target, AreTargets};
ghost use Rattle.link_fields.specs.Fixes.{section_fixes, linker_fixes};
ghost use Rattle.link_fields.specs.Steps.{HoldsTargets};

use crate::targets::{import_target, meant_target, noted_target, read_targets};
use coff_object::Object;
use link_base::Memory;
use link_pieces::{LinkNames, PieceIndex};
use relocate::{PackedFix, PackedTarget};
use std::alloc::Global;
use synthetic_sections::{FIRST_LOCAL_SLOT, FIRST_THUNK, slot_field, thunk_field};

/// What the symbols of one module mean, by its position: the module whose symbols were read last.
#[derive(Drop)]
pub(crate) struct LastTargets {
    position: Option<u32>,
    targets: Vec<PackedTarget>,
    /// The module whose relocations were looked up by names last, and how many these were.
    by_names: (u32, u32),
}

impl LastTargets {
    /// Of no module yet.
    pub(crate) fn none(alloc: Global) -> LastTargets
        ensures { result.position ≡ None }
    {
        LastTargets {
            position: None,
            targets: Vec::new(alloc),
            by_names: (0, 0),
        }
    }

    /// Whether to look up so many more relocations of the module at a position by names: its symbols, whose records are so many,
    /// were not read, and the relocations looked up are no more than these. Then reading all symbols would take longer.
    fn are_few(&mut self, position: u32, count: u32, records: u32) -> bool
        ensures position { self.new.position ≡ self.old.position }
        ensures targets { self.new.targets ≡ self.old.targets }
    {
        if self.position == Some(position) {
            return false;
        }
        let (counted, before) = self.by_names;
        let before = if counted == position { before } else { 0 };
        let looked_up = count.saturating_add(before);
        self.by_names = (position, looked_up);
        looked_up <= records
    }
}

/// The relocations of a section of the module at a position.
pub(crate) fn section_fixes<'a>(
    alloc: Global,
    last: &mut LastTargets,
    names: &LinkNames<'a>,
    index: &PieceIndex<'a>,
    object: &Object<'a>,
    position: u32,
    section: u32,
) -> Result<Vec<PackedFix>, Memory>
    requires indexed { IsPieceIndex names.now index.now }
    requires held { HoldsTargets names.now last.old.position last.old.targets.items }
    requires here { object.now ≡ (module_at names.now.modules position).bytes }
    requires first { 1 ≤ section }
    requires last { section ≤ section_total object.now }
    ensures fixes { IfOk result (λ fixes. fixes.items ≡ section_fixes names.now position object.now section) }
    ensures held { OnOk result (HoldsTargets names.now last.new.position last.new.targets.items) }
{
    let count = object.relocation_count(section);
    if count == 0 {
        return Ok(Vec::new(alloc));
    }
    read_unless_few(last, names, index, object, position, count)?;
    let mut fixes = Vec::with_capacity(alloc, count as usize)?;
    let mut number = 0;
    for relocation in object.relocations(section) {
        let target = record_target(last, names, index, object, position, relocation.symbol)?;
        fixes.push(PackedFix::of(number, relocation.at, relocation.kind, &target))?;
        number += 1;
    }
    Ok(fixes)
}

/// Reads what the symbols of the module at a position mean, unless so many more relocations are looked up by names.
fn read_unless_few<'a>(
    last: &mut LastTargets,
    names: &LinkNames<'a>,
    index: &PieceIndex<'a>,
    object: &Object<'a>,
    position: u32,
    count: u32,
) -> Result<(), Memory>
    requires indexed { IsPieceIndex names.now index.now }
    requires held { HoldsTargets names.now last.old.position last.old.targets.items }
    requires here { object.now ≡ (module_at names.now.modules position).bytes }
    ensures { OnOk result (HoldsTargets names.now last.new.position last.new.targets.items) }
{
    if last.are_few(position, count, object.record_count()) {
        return Ok(());
    }
    read_last(last, names, index, object, position)
}

/// What a record of the module at a position means. All symbols of the module are read where it is not noted of this one.
fn record_target<'a>(
    last: &mut LastTargets,
    names: &LinkNames<'a>,
    index: &PieceIndex<'a>,
    object: &Object<'a>,
    position: u32,
    at: u32,
) -> Result<PackedTarget, Memory>
    requires indexed { IsPieceIndex names.now index.now }
    requires held { HoldsTargets names.now last.old.position last.old.targets.items }
    requires here { object.now ≡ (module_at names.now.modules position).bytes }
    ensures target { IfOk result (λ target. target ≡ record_target names.now position object.now at) }
    ensures held { OnOk result (HoldsTargets names.now last.new.position last.new.targets.items) }
{
    if last.position == Some(position) {
        return Ok(target_at(&last.targets, at));
    }
    if let Some(target) = noted_target(names, index, object, position, at) {
        return Ok(PackedTarget::new(Some(target)));
    }
    read_last(last, names, index, object, position)?;
    Ok(target_at(&last.targets, at))
}

/// The field of a piece that the linker makes, by the number of the piece: of a jump the slot that it goes through, of a local slot the
/// address of what its name means. An import table has none.
pub(crate) fn linker_fixes<'a>(
    alloc: Global,
    names: &LinkNames<'a>,
    index: &PieceIndex<'a>,
    number: u32,
) -> Result<Vec<PackedFix>, Memory>
    requires indexed { IsPieceIndex names.now index.now }
    ensures { IfOk result (λ fixes. fixes.items ≡ linker_fixes names.now number) }
{
    if number < FIRST_THUNK {
        return Ok(Vec::new(alloc));
    }
    if number < FIRST_LOCAL_SLOT {
        let target = import_target(index, number - FIRST_THUNK);
        return Ok(vec![in alloc; PackedFix::new(thunk_field(target))]?);
    }
    let meaning = names.resolve(index.slot_name(number));
    Ok(vec![in alloc; PackedFix::new(slot_field(meant_target(index, meaning)))]?)
}

/// Reads what the symbols of the module at a position mean, where that was not read last.
fn read_last<'a>(
    last: &mut LastTargets,
    names: &LinkNames<'a>,
    index: &PieceIndex<'a>,
    object: &Object<'a>,
    position: u32,
) -> Result<(), Memory>
    requires indexed { IsPieceIndex names.now index.now }
    requires held { HoldsTargets names.now last.old.position last.old.targets.items }
    requires here { object.now ≡ (module_at names.now.modules position).bytes }
    ensures position { OnOk result (last.new.position ≡ Some position) }
    ensures targets { OnOk result (AreTargets names.now position object.now last.new.targets.items) }
{
    if last.position != Some(position) {
        read_targets(&mut last.targets, names, index, object, position)?;
        last.position = Some(position);
    }
    Ok(())
}

/// What a list says that a record means.
fn target_at(targets: &[PackedTarget], at: u32) -> PackedTarget
    ensures { result ≡ slice_index_or targets.now at None }
{
    match targets.get(at as usize) {
        Some(target) => target.copied(),
        None => PackedTarget::new(None),
    }
}
