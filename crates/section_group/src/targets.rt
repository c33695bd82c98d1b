//! What each name is merged into.

ghost use Rattle.std.specs.Prelude.{◌≡◌, ◌∷◌, [], ℕ, List, IfOk, OnOk, nat_eq, unwrap_or, length};
ghost use Rattle.indexmap.specs.IndexMap.{get};
ghost use Rattle.section_group.specs.Merging.{target, preset_merges, final_name};
ghost use Rattle.section_group.specs.Merging.{same_name};
ghost use Rattle.section_group.specs.Chains.{target_among, AreTargets};
ghost use Rattle.std.specs.Option.{option_or};

use indexmap::IndexMap;
use link_base::{Memory, Name};
use std::alloc::Global;

/// What is merged where nothing else is said.
#[tactic(auto, unfolding(crate::specs::Merging::preset_merges))]
fn presets<'a>() -> [(Name<'a>, Name<'a>); 5]
    ensures { result ≡ preset_merges }
{
    [
        (Name::of(b".idata"), Name::of(b".rdata")),
        (Name::of(b".edata"), Name::of(b".rdata")),
        (Name::of(b".xdata"), Name::of(b".rdata")),
        (Name::of(b".00cfg"), Name::of(b".rdata")),
        (Name::of(b".bss"), Name::of(b".data")),
    ]
}

/// The target of each name that is merged.
pub(crate) fn read_targets<'a>(
    alloc: Global,
    merges: &[(Name<'a>, Name<'a>)],
) -> Result<IndexMap<Name<'a>, Name<'a>>, Memory>
    ensures { IfOk result (λ m. AreTargets merges.now m.entries) }
{
    let mut targets = IndexMap::new(alloc);
    add_targets(&mut targets, merges)?;
    add_targets(&mut targets, &presets())?;
    Ok(targets)
}

/// Adds the targets of names that have none yet.
fn add_targets<'a>(
    targets: &mut IndexMap<Name<'a>, Name<'a>>,
    merges: &[(Name<'a>, Name<'a>)],
) -> Result<(), Memory>
    ensures { OnOk result ((q : List ℕ) → get same_name targets.new q ≡ option_or (get same_name targets.old q) (target_among merges.now q)) }
{
    for (left, right) in merges {
        add_target(targets, left, right)?;
    }
    Ok(())
}

/// Adds the target of a name, unless it has one. The name is looked up once, or twice where it has another target.
fn add_target<'a>(
    targets: &mut IndexMap<Name<'a>, Name<'a>>,
    left: &Name<'a>,
    right: &Name<'a>,
) -> Result<(), Memory>
    ensures { OnOk result ((q : List ℕ) → get same_name targets.new q ≡ option_or (get same_name targets.old q) (target_among ((left.now, right.now) ∷ []) q)) }
{
    let Some(before) = targets.insert(left.again(), right.again())? else {
        return Ok(());
    };
    if before != *right {
        targets.insert(left.again(), before)?;
    }
    Ok(())
}
