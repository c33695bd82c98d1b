//! The pieces of each section.

ghost use Rattle.std.specs.Prelude.{◌≡◌, ℕ, ◌<◌, ◌^◌, IsTrue, length, slice_get, slice_index_or, Some, None, OnOk, IfOk, []};
ghost use Rattle.std.specs.List.{IsDistinct};
ghost use Rattle.section_group.specs.Sections.{same_home};
ghost use Rattle.section_group.specs.Steps.{HasItsLike};
ghost use Rattle.section_group.specs.Gathering.{input_of, home_of, AreOwners, AreNumbers, IsNumberOf, GoesWithItsLike, KeepsHomes, AreMembers};

use crate::homes::Home;
use crate::owners::attributes;
use crate::parts::Parts;
use indexmap::{IndexMap, IndexSet};
use link_base::pe_format::SCN_MEM_ATTRIBUTES;
use link_base::{Memory, Name};
use std::alloc::Global;

/// The sections that used pieces go to, by their numbers, and the number of each used piece's section.
#[derive(Drop)]
pub(crate) struct Numbered<'a> {
    pub homes: IndexSet<Home<'a>>,
    pub numbers: Vec<Option<usize>>,
}

/// Numbers the sections that used pieces go to, in the order of their first pieces.
pub(crate) fn number_pieces<'a>(
    alloc: Global,
    parts: &Parts<'_, 'a>,
    owners: &IndexMap<Name<'a>, usize>,
) -> Result<Numbered<'a>, Memory>
    requires { AreOwners (input_of parts.now) owners.now.entries }
    ensures numbers { IfOk result (λ r. AreNumbers (input_of parts.now) r.homes.keys (length parts.now.pieces.now) r.numbers.items) }
    ensures distinct { IfOk result (λ r. IsDistinct same_home r.homes.keys) }
{
    let mut homes = IndexSet::new(alloc);
    let mut numbers = Vec::with_capacity(alloc, parts.pieces.len())?;
    for index in 0..parts.pieces.len() {
        let number = piece_number(&mut homes, &numbers, parts, owners, index)?;
        numbers.push(number)?;
    }
    Ok(Numbered { homes, numbers })
}

/// The number of a piece's section, where the piece is used: that of the piece before it, where the two are seen to go to
/// one section, which spares a search.
fn piece_number<'a>(
    homes: &mut IndexSet<Home<'a>>,
    numbers: &[Option<usize>],
    parts: &Parts<'_, 'a>,
    owners: &IndexMap<Name<'a>, usize>,
    index: usize,
) -> Result<Option<usize>, Memory>
    requires within { index < length parts.now.pieces.now }
    requires owners { AreOwners (input_of parts.now) owners.now.entries }
    requires so_far { AreNumbers (input_of parts.now) homes.old.keys index numbers.now }
    ensures there { IfOk result (IsNumberOf (input_of parts.now) homes.new.keys index) }
    ensures kept { OnOk result (KeepsHomes homes.old.keys homes.new.keys) }
    ensures distinct { OnOk result (IsDistinct same_home homes.old.keys → IsDistinct same_home homes.new.keys) }
{
    if !parts.used[index] {
        return Ok(None);
    }
    if goes_with_its_like(parts, index) {
        return Ok(numbers[index - 1]);
    }
    let number = home_number(homes, parts, owners, index)?;
    Ok(Some(number))
}

/// Whether the piece before it is used and has its name and its attributes: then they go to one section.
fn goes_with_its_like(parts: &Parts<'_, '_>, index: usize) -> bool
    requires { index < length parts.now.pieces.now }
    ensures goes { IsTrue result → GoesWithItsLike (input_of parts.now) index }
    ensures found { HasItsLike (input_of parts.now) index → IsTrue result }
{
    if index == 0 || !parts.used[index - 1] || !parts.share_name(index - 1, index) {
        return false;
    }
    let before = parts.pieces[index - 1].flags & SCN_MEM_ATTRIBUTES;
    before == parts.pieces[index].flags & SCN_MEM_ATTRIBUTES
}

/// The number of a used piece's section, which is a new one where the section has none.
fn home_number<'a>(
    homes: &mut IndexSet<Home<'a>>,
    parts: &Parts<'_, 'a>,
    owners: &IndexMap<Name<'a>, usize>,
    index: usize,
) -> Result<usize, Memory>
    requires within { index < length parts.now.pieces.now }
    requires owners { AreOwners (input_of parts.now) owners.now.entries }
    ensures there { IfOk result (λ number. slice_get homes.new.keys number ≡ Some (home_of (input_of parts.now) index)) }
    ensures kept { OnOk result (KeepsHomes homes.old.keys homes.new.keys) }
    ensures distinct { OnOk result (IsDistinct same_home homes.old.keys → IsDistinct same_home homes.new.keys) }
{
    let home = Home {
        name: parts.cut(index).section.again(),
        attributes: attributes(parts, owners, index),
    };
    let (number, _) = homes.insert_full(home)?;
    Ok(number)
}

/// The pieces of each number, in their order.
pub(crate) fn distribute(
    alloc: Global,
    numbers: &[Option<usize>],
    sections: usize,
) -> Result<Vec<Vec<u32>>, Memory>
    requires few { length numbers.now < 2 ^ 32 }
    requires within { (k : ℕ) (number : ℕ) → slice_index_or numbers.now k None ≡ Some number → number < sections }
    ensures { IfOk result (λ members. AreMembers numbers.now (length numbers.now) sections members.items) }
{
    let mut members = empty_lists(alloc, sections)?;
    for (index, number) in numbers.iter().enumerate() {
        if let Some(number) = number {
            members[*number].push(index as u32)?;
        }
    }
    Ok(members)
}

/// That many empty lists.
fn empty_lists(alloc: Global, sections: usize) -> Result<Vec<Vec<u32>>, Memory>
    ensures { IfOk result (λ members. AreMembers [] 0 sections members.items) }
{
    let mut members = Vec::with_capacity(alloc, sections)?;
    while members.len() < sections {
        members.push(Vec::new(alloc))?;
    }
    Ok(members)
}
