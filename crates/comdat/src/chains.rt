//! Sections that are chosen with others.

ghost use Rattle.std.specs.Prelude.{◌≡◌, ◌<◌, ◌≤◌, ◌^◌, ◌+◌, ◌-◌, ◌∷◌, ℕ, None, false, length, map, slice_index, IfOk};
ghost use Rattle.std.specs.List.{range_with_len};
ghost use Rattle.link_base.specs.Bytes.{first_below};
ghost use Rattle.coff_aux.specs.Parents.{AreParents, comes_back};
ghost use Rattle.comdat.specs.Chains.{chain_end, at_chain_end, AreEnds};

use link_base::Memory;
use std::alloc::Global;

/// For each section, from number 1 on, what a list says of the section at the end of its chain of parents. The parents
/// have an entry for each number from 0 on, the list one for each section.
pub(crate) fn follow_chains(
    alloc: Global,
    parents: &[u32],
    own: &[bool],
) -> Result<Vec<bool>, Memory>
    requires parents { AreParents parents.now }
    requires ends { first_below (length parents.now) (comes_back parents.now) ≡ None }
    requires few { length parents.now ≤ 2 ^ 32 }
    requires own { length own.now + 1 ≡ length parents.now }
    ensures { IfOk result (λ flags. flags.items ≡ map (at_chain_end parents.now (false ∷ own.now)) (range_with_len 1 (length parents.now - 1))) }
{
    let ends = chain_ends(alloc, parents)?;
    let mut flags = Vec::with_capacity(alloc, parents.len())?;
    for section in 1..parents.len() {
        let end = ends[section] as usize;
        flags.push(own[end - 1])?;
    }
    Ok(flags)
}

/// For each number from 0 on the section at the end of its chain of parents, which is itself where it has no parent, and 0
/// for 0. No part of a chain is followed twice.
pub(crate) fn chain_ends(alloc: Global, parents: &[u32]) -> Result<Vec<u32>, Memory>
    requires parents { AreParents parents.now }
    requires ends { first_below (length parents.now) (comes_back parents.now) ≡ None }
    requires few { length parents.now ≤ 2 ^ 32 }
    requires some { 0 < length parents.now }
    ensures { IfOk result (λ ends. ends.items ≡ map (chain_end parents.now) (range_with_len 0 (length parents.now))) }
{
    let mut ends = vec![in alloc; 0; parents.len()]?;
    for section in 1..parents.len() {
        let end = end_of(parents, &ends, section);
        note_end(parents, &mut ends, section, end);
    }
    Ok(ends)
}

/// The end of a section's chain, which is followed as far as no end is known.
fn end_of(parents: &[u32], known: &[u32], section: usize) -> u32
    requires parents { AreParents parents.now }
    requires ends { first_below (length parents.now) (comes_back parents.now) ≡ None }
    requires few { length parents.now ≤ 2 ^ 32 }
    requires known { AreEnds parents.now known.now }
    requires first { 0 < section }
    requires within { section < length parents.now }
    ensures { result ≡ chain_end parents.now section }
{
    let mut at = section;
    for _ in 0..parents.len() {
        let end = known[at];
        if end != 0 {
            return end;
        }
        let parent = parents[at] as usize;
        if parent == 0 {
            return at as u32;
        }
        at = parent;
    }
    unreachable!()
}

/// Notes the end that was found for a section and for all of its chain of which none is known.
fn note_end(parents: &[u32], known: &mut [u32], section: usize, end: u32)
    requires parents { AreParents parents.now }
    requires ends { first_below (length parents.now) (comes_back parents.now) ≡ None }
    requires known { AreEnds parents.now known.old }
    requires end { end ≡ chain_end parents.now section }
    requires first { 0 < section }
    requires within { section < length parents.now }
    ensures known { AreEnds parents.now known.new }
    ensures noted { slice_index known.new section ≡ end }
    ensures kept { (other : ℕ) → 0 < slice_index known.old other → slice_index known.new other ≡ slice_index known.old other }
{
    let mut at = section;
    for _ in 0..parents.len() {
        if at == 0 || known[at] != 0 {
            return;
        }
        known[at] = end;
        at = parents[at] as usize;
    }
}
