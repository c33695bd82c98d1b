//! The imports of a link, as rows of its import tables.

ghost use Rattle.std.specs.Prelude.{◌≡◌, ◌≤◌, ℕ, [], ◌++◌, false, length, slice_index_or, IfOk, OnOk, IsTrue, All};
ghost use Rattle.std.specs.List.{cons_option};
ghost use Rattle.import_tables.specs.ImportShape.{name_len, AreWithinLimits};
ghost use Rattle.link_imports.specs.Imports.{row_if, import_rows, import_slots, slot_offset, AreImports};
ghost use Rattle.import_tables.specs.ReadBack.{IsReadable, AreReadable};
ghost use Rattle.link_base.specs.Limits.{MODULE_LIMIT, NAME_LIMIT};
ghost use Rattle.link_imports.specs.Steps.{CanBeTold};

use import_tables::{ImportRow, ImportShape, shape};
use link_base::Memory;
use module_view::Module;
use short_import::{Import, ImportBy};
use std::alloc::Global;
use synthetic_sections::can_stand;

/// The imports of a link that are kept, in the order of its modules.
#[derive(Drop)]
pub struct LinkImports<'a> {
    /// A row of the import tables for each.
    pub rows: Vec<ImportRow<'a>>,
    /// The sizes of the tables, and the offset of each row's slot.
    pub shape: ImportShape,
    /// The offset of the slot of the import that is a module, by the module's position; empty where no import is kept.
    pub offsets: Vec<u32>,
}

/// The imports among these modules that are kept, as `kept` says of each module's position; beyond it nothing is. One with a
/// name of more than 32,000 bytes or with a NUL, which does not open as a module, is want of memory.
pub fn link_imports<'a>(
    alloc: Global,
    modules: &[Module<'a>],
    kept: &[bool],
) -> Result<LinkImports<'a>, Memory>
    requires { length modules.now ≤ MODULE_LIMIT }
    ensures { IfOk result (AreImports modules.now kept.now) }
{
    let rows = import_rows(alloc, modules, kept)?;
    let shape = shape(alloc, &rows)?;
    let offsets = slot_offsets(alloc, modules, kept, &shape.slots)?;
    Ok(LinkImports {
        rows,
        shape,
        offsets,
    })
}

/// A row for each module that is a short import and is kept.
fn import_rows<'a>(
    alloc: Global,
    modules: &[Module<'a>],
    kept: &[bool],
) -> Result<Vec<ImportRow<'a>>, Memory>
    requires { length modules.now ≤ MODULE_LIMIT }
    ensures rows { IfOk result (λ rows. rows.items ≡ import_rows modules.now kept.now) }
    ensures limits { IfOk result (λ rows. AreWithinLimits rows.items) }
    ensures readable { OnOk result (AreReadable (import_rows modules.now kept.now)) }
{
    let mut rows = Vec::with_capacity(alloc, modules.len())?;
    for position in 0..modules.len() {
        push_row(&mut rows, &modules[position], is_kept(kept, position))?;
    }
    Ok(rows)
}

/// Whether the import that is the module at a position is kept; beyond the list none is.
fn is_kept(kept: &[bool], position: usize) -> bool
    ensures { result ≡ slice_index_or kept.now position false }
{
    match kept.get(position) {
        Some(is_kept) => *is_kept,
        None => false,
    }
}

/// Appends the row of a module, where it is a short import and is kept.
fn push_row<'a>(
    rows: &mut Vec<ImportRow<'a>>,
    module: &Module<'a>,
    kept: bool,
) -> Result<(), Memory>
    ensures rows { OnOk result (rows.new.items ≡ rows.old.items ++ cons_option (row_if kept «module».now) []) }
    ensures told { OnOk result (All CanBeTold rows.old.items → All CanBeTold rows.new.items) }
{
    if !kept {
        return Ok(());
    }
    let Some(import) = module.import() else {
        return Ok(());
    };
    let Import { dll, by, .. } = import.again();
    if !can_stand(&dll) || !can_be_found(&by) {
        return Err(Memory);
    }
    rows.push(ImportRow { dll, by })?;
    Ok(())
}

/// Whether the loader can find an import so: by an ordinal, or by a name that can stand in the tables.
fn can_be_found(by: &ImportBy<'_>) -> bool
    ensures short { IsTrue result → name_len by.now ≤ NAME_LIMIT }
    ensures readable { IsTrue result → IsReadable by.now }
{
    match by {
        ImportBy::Ordinal(number) => {
            let _ordinal = *number;
            true
        }
        ImportBy::Named { hint, name } => {
            let _hint = *hint;
            can_stand(name)
        }
    }
}

/// The offset of the slot of the import that is a module, by the module's position, where imports are kept, which have these
/// slots.
fn slot_offsets(
    alloc: Global,
    modules: &[Module<'_>],
    kept: &[bool],
    slots: &[u32],
) -> Result<Vec<u32>, Memory>
    requires { slots.now ≡ import_slots modules.now kept.now }
    ensures { IfOk result (λ offsets. (position : ℕ) → slice_index_or offsets.items position 0 ≡ slot_offset modules.now kept.now position) }
{
    let mut offsets = Vec::new(alloc);
    if slots.is_empty() {
        return Ok(offsets);
    }
    let mut before = 0;
    for position in 0..modules.len() {
        offsets.push(slot_at(slots, before))?;
        before += rows_by(&modules[position], is_kept(kept, position));
    }
    Ok(offsets)
}

/// How many rows a module has.
fn rows_by(module: &Module<'_>, kept: bool) -> usize
    ensures count { result ≡ length (cons_option (row_if kept «module».now) []) }
    ensures few { result ≤ 1 }
{
    match module.import() {
        Some(_) if kept => 1,
        _ => 0,
    }
}

/// The offset of a slot by its index, or 0.
fn slot_at(slots: &[u32], index: usize) -> u32
    ensures { result ≡ slice_index_or slots.now index 0 }
{
    match slots.get(index) {
        Some(offset) => *offset,
        None => 0,
    }
}
