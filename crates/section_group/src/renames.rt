//! Where base names lead: the chains of merges, followed to their ends.

ghost use Rattle.std.specs.Prelude.{◌≡◌, IfOk, IfSome, length, map, option_map};
ghost use Rattle.indexmap.specs.IndexMap.{get, keys};
ghost use Rattle.section_group.specs.Chains.{led_by, Follows};
ghost use Rattle.section_group.specs.Merging.{same_name};
ghost use Rattle.section_group.specs.Places.{target_at};

use crate::places::last_places;
use crate::targets::read_targets;
use indexmap::IndexMap;
use link_base::{Memory, Name};
use std::alloc::Global;

/// How many merges there are besides the given ones.
const PRESETS: u128 = 5;

/// The target of each name that is merged, and beside it the name that it leads to.
#[derive(Drop)]
pub(crate) struct Renames<'a> {
    pub targets: IndexMap<Name<'a>, Name<'a>>,
    pub ends: Vec<Name<'a>>,
    ghost same_length: { length ends.items ≡ length targets.entries },
}

impl<'a> Renames<'a> {
    /// Each name led to the target of the last merge on its way.
    fn new(
        alloc: Global,
        targets: IndexMap<Name<'a>, Name<'a>>,
        lasts: &[usize],
    ) -> Result<Renames<'a>, Memory>
        requires { length lasts.now ≡ length targets.entries }
        ensures targets { IfOk result (λ r. r.targets.entries ≡ targets.entry.entries) }
        ensures ends { IfOk result (λ r. r.ends.items ≡ map (target_at targets.entry.entries) lasts.now) }
    {
        let mut ends = Vec::with_capacity(alloc, lasts.len())?;
        for last in lasts {
            ends.push(target_at(&targets, *last))?;
        }
        Ok(Renames { targets, ends })
    }

    /// The name that a name leads to.
    pub(crate) fn lead(&self, name: &Name<'a>) -> Name<'a>
        ensures { result ≡ led_by (keys self.now.targets) self.now.ends.items name.now }
    {
        match self.targets.get_index_of(name) {
            Some(at) => self.ends[at].again(),
            None => name.again(),
        }
    }

    /// The target of a name that is merged, and the name that it leads to.
    pub(crate) fn target_and_end(&self, name: &Name<'a>) -> Option<(&Name<'a>, &Name<'a>)>
        ensures target { option_map (λ two. two.0.now) result ≡ get same_name self.now.targets name.now }
        ensures end { IfSome result (λ two. two.1.now ≡ led_by (keys self.now.targets) self.now.ends.items name.now) }
    {
        let (at, _, target) = self.targets.get_full(name)?;
        Some((target, &self.ends[at]))
    }
}

/// The target of the merge at a place, or an empty name.
fn target_at<'a>(targets: &IndexMap<Name<'a>, Name<'a>>, place: usize) -> Name<'a>
    ensures { result ≡ target_at targets.now.entries place }
{
    match targets.get_index(place) {
        Some((_, target)) => target.again(),
        None => Name::of(b""),
    }
}

/// Each name led to the end of its chain.
pub(crate) fn follow<'a>(
    alloc: Global,
    merges: &[(Name<'a>, Name<'a>)],
) -> Result<Renames<'a>, Memory>
    ensures { IfOk result (λ r. Follows merges.now r.targets.entries r.ends.items) }
{
    let targets = read_targets(alloc, merges)?;
    let lasts = last_places(alloc, &targets, merges.len() as u128 + PRESETS)?;
    Renames::new(alloc, targets, &lasts)
}
