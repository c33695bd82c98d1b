//! Resources in order, gathered by type and by name.

ghost use Rattle.std.specs.Prelude.{◌≡◌, ◌≤◌, IfOk, length, map};
ghost use Rattle.res_merge.specs.Entries.{entry_of};
ghost use Rattle.res_merge.specs.Runs.{runs, heads};
ghost use Rattle.res_merge.specs.Levels.{same_at, run_of};

use crate::order::compare_names;
use crate::resource::Resource;
use link_base::Memory;
use std::alloc::Global;

/// A level of the tree whose tables lead to tables.
#[derive(Clone, Copy)]
pub(crate) enum Level {
    Types,
    Names,
}

/// The first of some resources that follow one another, and how many there are.
#[derive(Clone, Copy)]
pub(crate) struct Run<'a> {
    pub(crate) head: Resource<'a>,
    pub(crate) count: usize,
}

/// Whether two resources have one type, or one type and one name.
fn is_same(level: Level, left: &Resource<'_>, right: &Resource<'_>) -> bool
    ensures { result ≡ same_at level (entry_of left.now) (entry_of right.now) }
{
    let kinds = compare_names(left.kind, right.kind).is_eq();
    match level {
        Level::Types => kinds,
        Level::Names => kinds && compare_names(left.name, right.name).is_eq(),
    }
}

/// The resources that follow one another and are the same at a level.
pub(crate) fn runs<'a>(
    alloc: Global,
    level: Level,
    list: &[Resource<'a>],
) -> Result<Vec<Run<'a>>, Memory>
    ensures { IfOk result (λ found. map run_of found.items ≡ runs (same_at level) (map entry_of list.now)) }
{
    let mut found = Vec::new(alloc);
    if list.is_empty() {
        return Ok(found);
    }
    let mut head = list[0];
    let mut count = 1;
    for k in 1..list.len() {
        let next = list[k];
        if is_same(level, &head, &next) {
            count += 1;
            continue;
        }
        found.push(Run { head, count })?;
        head = next;
        count = 1;
    }
    found.push(Run { head, count })?;
    Ok(found)
}

/// The first resource of each run.
pub(crate) fn heads<'a>(alloc: Global, found: &[Run<'a>]) -> Result<Vec<Resource<'a>>, Memory>
    ensures { IfOk result (λ list. map entry_of list.items ≡ heads (map run_of found.now)) }
{
    let mut list = Vec::with_capacity(alloc, found.len())?;
    for run in found {
        list.push(run.head)?;
    }
    Ok(list)
}
