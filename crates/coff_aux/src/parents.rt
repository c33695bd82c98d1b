//! Chains of the parents of sections: whether each of them ends.

ghost use Rattle.std.specs.Prelude.{◌≡◌, ◌<◌, ◌^◌, ℕ, length, slice_index_or, false, IfOk};
ghost use Rattle.link_base.specs.Bytes.{first_below};
ghost use Rattle.coff_aux.specs.Parents.{comes_back, is_met, is_marked, AreParents};

use link_base::Memory;
use std::alloc::Global;

/// The first section whose chain of parents comes to a section twice, by its number. The sections of a chain that ends are
/// marked, and no walk goes on from a marked one, so that all walks together take at most twice as many steps as there are
/// numbers.
pub(crate) fn first_circle(alloc: Global, parents: &[u32]) -> Result<Option<u32>, Memory>
    requires parents { AreParents parents.now }
    requires few { length parents.now < 2 ^ 32 }
    ensures { IfOk result (λ circle. circle ≡ first_below (length parents.now) (comes_back parents.now)) }
{
    let mut ended = vec![in alloc; false; parents.len()]?;
    for section in 0..parents.len() {
        match walk(parents, &ended, section) {
            Some(steps) => mark(parents, &mut ended, section, steps),
            None => return Ok(Some(section as u32)),
        }
    }
    Ok(None)
}

/// How many steps it is along the chain of a section to its end, or to a section that is marked. There is no answer where
/// neither is met in fewer steps than there are numbers.
fn walk(parents: &[u32], ended: &[bool], section: usize) -> Option<usize>
    requires parents { AreParents parents.now }
    requires count { length ended.now ≡ length parents.now }
    requires within { section < length parents.now }
    ensures { result ≡ first_below (length parents.now) (is_met parents.now ended.now section) }
{
    let mut at = section;
    for steps in 0..parents.len() {
        if at == 0 || ended[at] {
            return Some(steps);
        }
        at = parents[at] as usize;
    }
    None
}

/// Marks a section and those along its chain, as many as `steps` in all.
fn mark(parents: &[u32], ended: &mut [bool], section: usize, steps: usize)
    requires parents { AreParents parents.now }
    requires count { length ended.old ≡ length parents.now }
    requires within { section < length parents.now }
    ensures { (other : ℕ) → slice_index_or ended.new other false ≡ is_marked parents.now ended.old section steps other }
{
    let mut at = section;
    for _step in 0..steps {
        ended[at] = true;
        at = parents[at] as usize;
    }
}
