//! The numbers of groups.

ghost use Rattle.std.specs.Prelude.{◌≡◌, ◌<◌, List, length, IfOk};
ghost use Rattle.std.specs.List.{All};
ghost use Rattle.module_view.specs.Module.{ModuleView};
ghost use Rattle.comdat.specs.Entries.{KeepsEntry, named_by};
ghost use Rattle.comdat.specs.Numbering.{NO_GROUP, AreNumbers};

use crate::entry::Entry;
use indexmap::IndexSet;
use link_base::{Memory, Name};
use std::alloc::Global;

/// Stands at the number of a name that no group has yet. No group has it.
const NO_GROUP: u32 = u32::MAX;

/// The groups of some sections, which have numbers in the order of their first sections.
#[derive(Drop)]
pub(crate) struct Numbering {
    /// The number of each section's group.
    pub(crate) numbers: Vec<usize>,
    /// The place of each group's first section.
    pub(crate) firsts: Vec<usize>,
}

/// Numbers the groups of sections, each of which is found by the number of its name. No name is read.
pub(crate) fn number_groups<'a>(
    alloc: Global,
    names: &IndexSet<Name<'a>>,
    entries: &[Entry],
) -> Result<Numbering, Memory>
    requires { All (λ entry. entry.number < length names.now.keys) entries.now }
    ensures { IfOk result (λ n. (modules : List ModuleView) → All (KeepsEntry names.now.keys modules) entries.now
        → AreNumbers (named_by modules entries.now) n.numbers.items n.firsts.items) }
{
    let mut groups = vec![in alloc; NO_GROUP; names.len()]?;
    let mut numbers = Vec::with_capacity(alloc, entries.len())?;
    let mut firsts = Vec::new(alloc);
    for (index, entry) in entries.iter().enumerate() {
        let name = entry.number as usize;
        if groups[name] == NO_GROUP {
            groups[name] = next_group(firsts.len())?;
            firsts.push(index)?;
        }
        numbers.push(groups[name] as usize)?;
    }
    Ok(Numbering { numbers, firsts })
}

/// The number of the next group after so many. More groups than have numbers are want of memory.
fn next_group(count: usize) -> Result<u32, Memory>
    ensures number { IfOk result (λ number. number ≡ count) }
    ensures below { IfOk result (λ number. number < NO_GROUP) }
{
    if count >= NO_GROUP as usize {
        return Err(Memory);
    }
    Ok(count as u32)
}
