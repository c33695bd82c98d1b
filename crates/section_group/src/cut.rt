//! The names of all pieces, cut and led to their sections, each once.

ghost use Rattle.std.specs.Prelude.{◌≡◌, ◌+◌, ◌<◌, ◌≤◌, ◌^◌, ◌++◌, ◌∷◌, [], IfOk, OnOk, Some, length, map, slice_get};
ghost use Rattle.std.specs.List.{IsDistinct};
ghost use Rattle.indexmap.specs.IndexMap.{keys};
ghost use Rattle.section_group.specs.Merging.{same_name};
ghost use Rattle.section_group.specs.Chains.{led_by};
ghost use Rattle.section_group.specs.Steps.{name_cut, AreNumbered, NamesPieces, KeepsNames};

use crate::piece::Piece;
use crate::renames::Renames;
use indexmap::IndexSet;
use link_base::{Memory, Name};
use std::alloc::Global;

/// A name, cut, and what merges make of it.
#[derive(Drop)]
pub(crate) struct Cut<'a> {
    pub base: Name<'a>,
    pub suffix: Name<'a>,
    /// The name of the section.
    pub section: Name<'a>,
    /// Whether merges changed the base name.
    pub merged: bool,
    /// Whether the first owner of the section's name decides the attributes.
    pub follows_owner: bool,
}

/// The cuts of names, and for each piece the number of its cut.
pub(crate) fn cut_all<'a>(
    alloc: Global,
    pieces: &[Piece<'a>],
    renames: &Renames<'a>,
) -> Result<(Vec<Cut<'a>>, Vec<u32>), Memory>
    requires { length pieces.now < 2 ^ 32 }
    ensures { IfOk result (λ r. AreNumbered (led_by (keys renames.now.targets) renames.now.ends.items) pieces.now (length pieces.now) r.0.items r.1.items) }
{
    let mut names = IndexSet::new(alloc);
    let mut cuts = Vec::new(alloc);
    let mut numbers = Vec::with_capacity(alloc, pieces.len())?;
    for index in 0..pieces.len() {
        let number = piece_number(&mut names, &mut cuts, &numbers, pieces, renames, index)?;
        numbers.push(number)?;
    }
    Ok((cuts, numbers))
}

/// The number of a piece's name, which is that of the piece before it where their names are equal: this spares a search.
fn piece_number<'a>(
    names: &mut IndexSet<Name<'a>>,
    cuts: &mut Vec<Cut<'a>>,
    numbers: &[u32],
    pieces: &[Piece<'a>],
    renames: &Renames<'a>,
    index: usize,
) -> Result<u32, Memory>
    requires few { length pieces.now < 2 ^ 32 }
    requires within { index < length pieces.now }
    requires so_far { NamesPieces pieces.now index names.old.keys numbers.now }
    requires cuts { cuts.old.items ≡ map (name_cut (led_by (keys renames.now.targets) renames.now.ends.items)) names.old.keys }
    ensures named { IfOk result (λ number. NamesPieces pieces.now (index + 1) names.new.keys (numbers.now ++ number ∷ [])) }
    ensures cut { OnOk result (cuts.new.items ≡ map (name_cut (led_by (keys renames.now.targets) renames.now.ends.items)) names.new.keys) }
{
    let name = &pieces[index].name;
    if index > 0 && *name == pieces[index - 1].name {
        return Ok(numbers[index - 1]);
    }
    let number = name_number(names, cuts, renames, name)?;
    Ok(number as u32)
}

/// The number of a name, which gets a cut where it is new.
fn name_number<'a>(
    names: &mut IndexSet<Name<'a>>,
    cuts: &mut Vec<Cut<'a>>,
    renames: &Renames<'a>,
    name: &Name<'a>,
) -> Result<usize, Memory>
    requires { cuts.old.items ≡ map (name_cut (led_by (keys renames.now.targets) renames.now.ends.items)) names.old.keys }
    ensures named { IfOk result (λ number. slice_get names.new.keys number ≡ Some name.now) }
    ensures cut { OnOk result (cuts.new.items ≡ map (name_cut (led_by (keys renames.now.targets) renames.now.ends.items)) names.new.keys) }
    ensures kept { OnOk result (KeepsNames names.old.keys names.new.keys) }
    ensures distinct { OnOk result (IsDistinct same_name names.old.keys → IsDistinct same_name names.new.keys) }
    ensures few { OnOk result (length names.new.keys ≤ length names.old.keys + 1) }
    ensures within { IfOk result (λ number. number < length names.new.keys) }
{
    let (number, is_new) = names.insert_full(name.again())?;
    if is_new {
        cuts.push(cut_name(name, renames))?;
        return Ok(number);
    }
    Ok(number)
}

/// A name, cut.
fn cut_name<'a>(name: &Name<'a>, renames: &Renames<'a>) -> Cut<'a>
    ensures { result ≡ name_cut (led_by (keys renames.now.targets) renames.now.ends.items) name.now }
{
    let (base, suffix) = name.base_and_suffix();
    let section = renames.lead(&base);
    let merged = base != section;
    let follows_owner = merged || section == Name::of(b".pdata");
    Cut {
        base,
        suffix,
        section,
        merged,
        follows_owner,
    }
}
