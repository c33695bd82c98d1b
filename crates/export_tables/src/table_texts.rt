//! The texts behind an export directory's tables, each with a NUL.

ghost use Rattle.std.specs.Prelude.{◌≡◌, ◌++◌, OnOk};
ghost use Rattle.std.specs.List.{flat_map};
ghost use Rattle.export_tables.specs.ExportTable.{text_bytes, name_bytes, target_bytes, texts_bytes};

use crate::names::NameEntry;
use crate::row::ExportTo;
use link_base::{Memory, Name};

/// Appends the texts: the DLL's name, the names in their order, and the forwarders by ordinal.
#[tactic(auto, unfolding(crate::specs::ExportTable::texts_bytes))]
pub(crate) fn push_texts(
    table: &mut Vec<u8>,
    dll: &Name<'_>,
    targets: &[Option<ExportTo<'_>>],
    names: &[NameEntry<'_>],
) -> Result<(), Memory>
    ensures { OnOk result (table.new.items ≡ table.old.items ++ texts_bytes dll.now targets.now names.now) }
{
    push_text(table, dll)?;
    push_names(table, names)?;
    push_forwarders(table, targets)
}

/// Appends the names.
fn push_names(table: &mut Vec<u8>, names: &[NameEntry<'_>]) -> Result<(), Memory>
    ensures { OnOk result (table.new.items ≡ table.old.items ++ flat_map name_bytes names.now) }
{
    for entry in names {
        push_text(table, &entry.name)?;
    }
    Ok(())
}

/// Appends the forwarders.
fn push_forwarders(table: &mut Vec<u8>, targets: &[Option<ExportTo<'_>>]) -> Result<(), Memory>
    ensures { OnOk result (table.new.items ≡ table.old.items ++ flat_map target_bytes targets.now) }
{
    for target in targets {
        push_forwarder(table, target)?;
    }
    Ok(())
}

/// Appends the text of a forwarder, where there is one.
fn push_forwarder(table: &mut Vec<u8>, target: &Option<ExportTo<'_>>) -> Result<(), Memory>
    ensures { OnOk result (table.new.items ≡ table.old.items ++ target_bytes target.now) }
{
    match target {
        Some(ExportTo::Forward(text)) => push_text(table, text),
        _ => Ok(()),
    }
}

/// Appends a text and its NUL.
fn push_text(table: &mut Vec<u8>, text: &Name<'_>) -> Result<(), Memory>
    ensures { OnOk result (table.new.items ≡ table.old.items ++ text_bytes text.now) }
{
    text.push_to(table)?;
    table.push(0)?;
    Ok(())
}
