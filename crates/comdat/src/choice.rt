//! The choice of one section of a group.

ghost use Rattle.std.specs.Prelude.{◌≡◌, ◌<◌, None, Some, length, IfOk, OnOk, IfErr};
ghost use Rattle.comdat.specs.Choice.{chosen_place, conflict_place};

use crate::candidate::Candidate;

/// Two sections of a group that cannot be one.
#[derive(Clone, Copy, Debug, PartialEq, Eq)]
pub struct Conflict {
    /// The least place in the group whose list up to and with it conflicts.
    pub second: usize,
}

/// The place of the section that a group chooses, in the order of modules and then section numbers. One alone is
/// chosen; of several ANY the first; of several SAME_SIZE or EXACT_MATCH the first, where their sizes or their contents
/// are equal; of LARGEST, with ANY or without, the first of those of the greatest size. Every other group is a conflict.
/// Contents are data alone: a section without data in the file has none, whatever its size. (PE Format, "COMDAT Sections
/// (Object Only)".)
pub fn choose(list: &[Candidate<'_>]) -> Result<usize, Conflict>
    requires { 0 < length list.now }
    ensures chosen { IfOk result (λ place. chosen_place list.now ≡ Some place) }
    ensures accepted { OnOk result (conflict_place list.now ≡ None) }
    ensures conflict { IfErr result (λ conflict. conflict_place list.now ≡ Some conflict.second) }
{
    let first = &list[0];
    let mut by_size = first.is_largest();
    let mut greatest = 0;
    for place in 1..list.len() {
        let candidate = &list[place];
        if !first.agrees(candidate) {
            return Err(Conflict { second: place });
        }
        if candidate.size > list[greatest].size {
            greatest = place;
        }
        by_size = by_size || candidate.is_largest();
    }
    Ok(if by_size { greatest } else { 0 })
}
