//! The sections of each group.

ghost use Rattle.std.specs.Prelude.{◌≡◌, ◌<◌, length, IfOk};
ghost use Rattle.std.specs.List.{All};
ghost use Rattle.comdat.specs.Numbering.{AreLists, AreEmpty};

use crate::numbering::Numbering;
use link_base::Memory;
use std::alloc::Global;

/// The places of the sections of each group, by its number, in their order.
pub(crate) fn group_lists(alloc: Global, numbering: &Numbering) -> Result<Vec<Vec<u32>>, Memory>
    requires { All (λ number. number < length numbering.now.firsts.items) numbering.now.numbers.items }
    ensures { IfOk result (λ lists. AreLists numbering.now.numbers.items (length numbering.now.numbers.items) (length numbering.now.firsts.items) lists.items) }
{
    let mut lists = empty_lists(alloc, numbering.firsts.len())?;
    for index in 0..numbering.numbers.len() {
        let number = numbering.numbers[index];
        let place = place_of(index)?;
        lists[number].push(place)?;
    }
    Ok(lists)
}

/// A place in 32 bits. More sections than these count are want of memory.
fn place_of(index: usize) -> Result<u32, Memory>
    ensures { IfOk result (λ place. place ≡ index) }
{
    match u32::try_from(index) {
        Ok(place) => Ok(place),
        Err(_) => Err(Memory),
    }
}

/// That many empty lists.
fn empty_lists(alloc: Global, count: usize) -> Result<Vec<Vec<u32>>, Memory>
    ensures { IfOk result (λ lists. AreEmpty count lists.items) }
{
    let mut lists = Vec::with_capacity(alloc, count)?;
    for _ in 0..count {
        lists.push(Vec::new(alloc))?;
    }
    Ok(lists)
}
