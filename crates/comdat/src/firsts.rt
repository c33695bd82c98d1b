//! The choice where all sections are ANY: the first of each name.

ghost use Rattle.std.specs.Prelude.{◌≡◌, ◌<◌, ◌==◌, List, length, map, is_some, IfOk, IfSome};
ghost use Rattle.std.specs.List.{All, list_all, range_with_len};
ghost use Rattle.coff_aux.specs.AuxRecords.{COMDAT_SELECT_ANY};
ghost use Rattle.module_view.specs.Module.{ModuleView};
ghost use Rattle.comdat.specs.Entries.{named_by, KeepsEntry};
ghost use Rattle.comdat.specs.Numbering.{is_first};

use crate::entry::Entry;
use indexmap::IndexSet;
use link_base::{Memory, Name};
use std::alloc::Global;

/// For each section whether it is the first of its name, which is found by its number; none where not all sections are ANY.
/// No name is read.
pub(crate) fn firsts_of_any<'a>(
    alloc: Global,
    names: &IndexSet<Name<'a>>,
    entries: &[Entry],
) -> Result<Option<Vec<bool>>, Memory>
    requires { All (λ entry. entry.number < length names.now.keys) entries.now }
    ensures any { IfOk result (λ found. is_some found ≡ list_all (λ entry. entry.selection == COMDAT_SELECT_ANY) entries.now) }
    ensures firsts { IfOk result (λ found. IfSome found (λ flags. (modules : List ModuleView)
        → All (KeepsEntry names.now.keys modules) entries.now
        → flags.items ≡ map (is_first (named_by modules entries.now)) (range_with_len 0 (length entries.now)))) }
{
    let mut seen = vec![in alloc; false; names.len()]?;
    let mut flags = vec![in alloc; false; entries.len()]?;
    for (index, entry) in entries.iter().enumerate() {
        if !entry.is_any() {
            return Ok(None);
        }
        let name = entry.number as usize;
        flags[index] = !seen[name];
        seen[name] = true;
    }
    Ok(Some(flags))
}
