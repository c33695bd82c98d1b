//! Resources in the order of a tree: by type, by name and by language, each text before each number.

ghost use Rattle.std.specs.Prelude.{◌≡◌, IfOk, map};
ghost use Rattle.std.specs.Ordering.{nat_cmp};
ghost use Rattle.std.specs.Cmp.Lexicographic.{slice_cmp};
ghost use Rattle.res_merge.specs.Entries.{key_of, entry_of};
ghost use Rattle.res_merge.specs.Order.{high_first, key_cmp, entry_cmp, in_order, AreMergeable};

use crate::resource::Resource;
use link_base::{Memory, ResName};
use std::alloc::Global;
use std::cmp::Ordering;

/// Which of two texts comes first, by their units, which have the lower byte first.
fn compare_texts(left: &[u8], right: &[u8]) -> Ordering
    ensures { result ≡ slice_cmp nat_cmp (high_first left.now) (high_first right.now) }
{
    let count = (left.len() / 2).min(right.len() / 2);
    for k in 0..count {
        let high = left[2 * k + 1].cmp(&right[2 * k + 1]);
        let order = high.then(left[2 * k].cmp(&right[2 * k]));
        if order != Ordering::Equal {
            return order;
        }
    }
    (left.len() / 2).cmp(&(right.len() / 2))
}

/// Which type or name comes first.
pub(crate) fn compare_names(left: ResName<'_>, right: ResName<'_>) -> Ordering
    ensures { result ≡ key_cmp (key_of left.entry) (key_of right.entry) }
{
    match left {
        ResName::Text(left_text) => match right {
            ResName::Text(right_text) => compare_texts(left_text, right_text),
            ResName::Number(_) => Ordering::Less,
        },
        ResName::Number(left_number) => match right {
            ResName::Text(_) => Ordering::Greater,
            ResName::Number(right_number) => left_number.cmp(&right_number),
        },
    }
}

fn compare_resources(left: &Resource<'_>, right: &Resource<'_>) -> Ordering
    ensures { result ≡ entry_cmp (entry_of left.now) (entry_of right.now) }
{
    let kinds = compare_names(left.kind, right.kind);
    let names = compare_names(left.name, right.name);
    kinds.then(names.then(left.language.cmp(&right.language)))
}

/// Resources in order.
pub(crate) fn in_order<'a>(
    alloc: Global,
    list: &[Resource<'a>],
) -> Result<Vec<Resource<'a>>, Memory>
    requires { AreMergeable (map entry_of list.now) }
    ensures { IfOk result (λ ordered. map entry_of ordered.items ≡ in_order (map entry_of list.now)) }
{
    let mut ordered = Vec::from_slice(alloc, list)?;
    ordered.sort_by(|left, right| compare_resources(left, right))?;
    Ok(ordered)
}
