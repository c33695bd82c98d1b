//! Which sections definitions stand in.

ghost use Rattle.std.specs.Prelude.{◌≡◌, ◌+◌, ◌<◌, ◌≤◌, ◌||◌, ℕ, false, length, slice_index_or, replicate, OnOk};
ghost use Rattle.coff_records.specs.ObjectFile.{section_total};
ghost use Rattle.link_pieces.specs.Pieces.{is_place_in, is_named};
ghost use Rattle.link_pieces.specs.Steps.{IsWithin};

use link_base::Memory;
use module_view::{Module, Place};

/// Replaces a list by whether a definition stands in a section, for each section of a module, by its number. No section has
/// the number 0.
pub(crate) fn name_sections(
    named: &mut Vec<bool>,
    module: &Module<'_>,
    count: u32,
) -> Result<(), Memory>
    requires { count ≡ section_total «module».now.bytes }
    ensures count { OnOk result (length named.new.items ≡ count + 1) }
    ensures named { OnOk result ((section : ℕ)
        → slice_index_or named.new.items section false ≡ is_named «module».now.bytes section) }
{
    unmark(named, count as usize + 1)?;
    for definition in module.symbol_definitions() {
        mark(named, definition.place);
    }
    Ok(())
}

/// Replaces a list by as many marks, of which none is set.
fn unmark(named: &mut Vec<bool>, count: usize) -> Result<(), Memory>
    ensures { OnOk result (named.new.items ≡ replicate count false) }
{
    named.clear();
    named.resize(count, false)?;
    Ok(())
}

/// Marks the section that a place is in.
fn mark(named: &mut Vec<bool>, place: Place)
    requires { IsWithin (length named.old.items) place }
    ensures len { length named.new.items ≡ length named.old.items }
    ensures marked { (section : ℕ) → slice_index_or named.new.items section false
        ≡ (slice_index_or named.old.items section false || is_place_in section place) }
{
    if let Place::Section { section, .. } = place {
        named[section as usize] = true;
    }
}
