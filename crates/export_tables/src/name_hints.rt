//! The hints of rows: the places of their names among those that the table lists.

ghost use Rattle.std.specs.Prelude.{◌≡◌, ◌≤◌, length, IfOk};
ghost use Rattle.std.specs.Ordering.{nat_cmp};
ghost use Rattle.std.specs.Cmp.Lexicographic.{slice_cmp};
ghost use Rattle.std.specs.Prelude.{IsSorted};
ghost use Rattle.export_tables.specs.Hints.{listed_names, hint_in, hints_of};

use crate::ordinals::{count_before, sort};
use directives::Export;
use link_base::{Memory, Name};
use std::alloc::Global;

/// The hints of some exports, in their order: the places of their names among those that the table lists, from 0 on. Of an
/// export that the table does not list by its name it is the place that the name would have (PE Format, "Hint/Name Table").
pub fn hints(alloc: Global, rows: &[Export<'_>]) -> Result<Vec<u16>, Memory>
    requires { length rows.now ≤ 65535 }
    ensures { IfOk result (λ hints. hints.items ≡ hints_of rows.now) }
{
    let mut names = listed_names(alloc, rows)?;
    sort(&mut names);
    let mut hints = Vec::with_capacity(alloc, rows.len())?;
    for row in rows {
        hints.push(hint_in(&names, row) as u16)?;
    }
    Ok(hints)
}

/// The names that the table lists.
fn listed_names<'a>(alloc: Global, rows: &[Export<'a>]) -> Result<Vec<Name<'a>>, Memory>
    ensures { IfOk result (λ names. names.items ≡ listed_names rows.now) }
{
    let mut names = Vec::new(alloc);
    for row in rows {
        if !row.noname {
            names.push(row.name.again())?;
        }
    }
    Ok(names)
}

/// The place of a row's name among some names in order.
#[tactic(auto, unfolding(crate::specs::Hints::hint_in))]
fn hint_in(names: &[Name<'_>], row: &Export<'_>) -> usize
    requires { IsSorted (slice_cmp nat_cmp) names.now }
    ensures hint { result ≡ hint_in names.now row.now }
    ensures most { result ≤ length names.now }
{
    count_before(&row.name, names)
}
