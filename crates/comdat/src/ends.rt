//! Where the chains of parents of the sections of a module end.

ghost use Rattle.std.specs.Prelude.{◌≡◌, ◌+◌, ◌≤◌, ◌^◌, length, map, IfOk};
ghost use Rattle.std.specs.List.{range_with_len};
ghost use Rattle.coff_records.specs.ObjectFile.{section_total};
ghost use Rattle.coff_aux.specs.Comdats.{parents_of};
ghost use Rattle.module_view.specs.Opening.{IsOpened};
ghost use Rattle.comdat.specs.ChosenBy.{chosen_by, parent_by};
ghost use Rattle.comdat.specs.Chains.{chain_end};

use crate::chains::chain_ends;
use coff_aux::is_section_number;
use link_base::Memory;
use module_view::Module;
use std::alloc::Global;

/// For each section of a module, by its number, the one at the end of its chain of parents, which is itself where it has no
/// parent. 0 stands in front, for the number of no section.
pub fn section_ends(alloc: Global, module: &Module<'_>) -> Result<Vec<u32>, Memory>
    requires { IsOpened «module».now }
    ensures ends { IfOk result (λ ends. ends.items ≡ map (chain_end (parents_of «module».now.bytes)) (range_with_len 0 (section_total «module».now.bytes + 1))) }
    ensures few { IfOk result (λ ends. length ends.items ≤ 2 ^ 32) }
{
    let parents = section_parents(alloc, module)?;
    chain_ends(alloc, &parents)
}

/// The parents of the sections of a module, by their numbers from 0 on, 0 where there is none.
fn section_parents(alloc: Global, module: &Module<'_>) -> Result<Vec<u32>, Memory>
    ensures parents { IfOk result (λ parents. parents.items ≡ parents_of «module».now.bytes) }
    ensures few { IfOk result (λ parents. length parents.items ≤ 2 ^ 32) }
{
    let mut parents = Vec::new(alloc);
    parents.push(0)?;
    let Some(object) = module.object() else {
        return Ok(parents);
    };
    let count = object.section_count();
    for index in 0..count {
        let parent = section_parent(module, count, index + 1);
        parents.push(parent)?;
    }
    Ok(parents)
}

/// The parent of a section among this many, 0 where it has none.
fn section_parent(module: &Module<'_>, count: u32, section: u32) -> u32
    ensures { result ≡ parent_by count (chosen_by «module».now.bytes section) }
{
    let Some(choice) = module.comdat_choice(section) else {
        return 0;
    };
    match choice.parent {
        Some(parent) if is_section_number(count, parent) => parent,
        _ => 0,
    }
}
