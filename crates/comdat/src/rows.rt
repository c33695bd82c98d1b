//! What is said of the sections of a module, by what each is chosen.

ghost use Rattle.std.specs.Prelude.{◌≡◌, ◌≤◌, ◌<◌, ◌^◌, ◌∷◌, ◌++◌, ℕ, Bool, List, None, length, map, filter, IfOk, IfSome};
ghost use Rattle.link_base.specs.Bytes.{first_below};
ghost use Rattle.coff_aux.specs.Comdats.{parents_of};
ghost use Rattle.coff_aux.specs.Parents.{comes_back};
ghost use Rattle.comdat.specs.Chains.{chain_end};
ghost use Rattle.comdat.specs.ChosenBy.{chosen_by, is_group, parent_by, by_choices};
ghost use Rattle.comdat.specs.Selection.{named_sections, sections_of, own_flag};

use crate::chosen_by::ChosenBy;
use link_base::Memory;
use module_view::ComdatChoice;
use std::alloc::Global;

/// For each section whether it is chosen, and what the list says of the sections of later modules, in one walk: what is
/// said of a parent that stands before is said of the section. None where a parent stands elsewhere. The list has an entry
/// for each section that goes by a name.
pub(crate) fn flags_in_order<'w>(
    alloc: Global,
    choices: &[Option<ComdatChoice>],
    selected: &'w [bool],
) -> Result<Option<(Vec<bool>, &'w [bool])>, Memory>
    requires { length (filter is_group (by_choices choices.now)) ≤ length selected.now }
    ensures { IfOk result (λ found. IfSome found (λ r. (bytes : List ℕ) (chosen : ℕ → Bool) (later : List Bool)
        → by_choices choices.now ≡ map (chosen_by bytes) (sections_of bytes)
        → first_below (length (parents_of bytes)) (comes_back (parents_of bytes)) ≡ None
        → selected.now ≡ map chosen (named_sections bytes) ++ later
        → (r.0.items ≡ map (λ section. own_flag chosen bytes (chain_end (parents_of bytes) section)) (sections_of bytes))
        × (r.1.now ≡ later))) }
{
    let mut flags = vec![in alloc; false; choices.len()]?;
    let mut rest = selected;
    for (index, choice) in choices.iter().enumerate() {
        match ChosenBy::of(choice) {
            ChosenBy::Itself => flags[index] = true,
            ChosenBy::Group => {
                flags[index] = rest[0];
                rest = &rest[1..];
            }
            ChosenBy::Parent(parent) => {
                let parent = parent as usize;
                if parent == 0 || parent > index {
                    return Ok(None);
                }
                flags[index] = flags[parent - 1];
            }
        }
    }
    Ok(Some((flags, rest)))
}

/// The parents of sections, by their numbers from 0 on, 0 where there is none.
pub(crate) fn parents(alloc: Global, choices: &[Option<ComdatChoice>]) -> Result<Vec<u32>, Memory>
    requires { length choices.now < 2 ^ 32 }
    ensures { IfOk result (λ parents. parents.items ≡ 0 ∷ map (parent_by (length choices.now)) (by_choices choices.now)) }
{
    let count = choices.len() as u32;
    let mut parents = Vec::with_capacity(alloc, choices.len() + 1)?;
    parents.push(0)?;
    for choice in choices {
        let by = ChosenBy::of(choice);
        parents.push(by.parent(count))?;
    }
    Ok(parents)
}

/// For each section whether it is chosen, where that does not go by a parent; and what the list says of the sections of
/// later modules. The list has an entry for each section that goes by a name.
pub(crate) fn own_flags<'w>(
    alloc: Global,
    choices: &[Option<ComdatChoice>],
    selected: &'w [bool],
) -> Result<(Vec<bool>, &'w [bool]), Memory>
    requires { length (filter is_group (by_choices choices.now)) ≤ length selected.now }
    ensures count { IfOk result (λ r. length r.0.items ≡ length choices.now) }
    ensures flags { IfOk result (λ r. (bytes : List ℕ) (chosen : ℕ → Bool) (later : List Bool)
        → by_choices choices.now ≡ map (chosen_by bytes) (sections_of bytes)
        → selected.now ≡ map chosen (named_sections bytes) ++ later
        → (r.0.items ≡ map (own_flag chosen bytes) (sections_of bytes)) × (r.1.now ≡ later)) }
{
    let mut flags = Vec::with_capacity(alloc, choices.len())?;
    let mut rest = selected;
    for choice in choices {
        let by = ChosenBy::of(choice);
        if by.is_group() {
            flags.push(rest[0])?;
            rest = &rest[1..];
        } else {
            flags.push(by.is_itself())?;
        }
    }
    Ok((flags, rest))
}
