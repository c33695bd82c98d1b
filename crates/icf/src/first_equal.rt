//! The first of equal keys.

ghost use Rattle.std.specs.Prelude.{◌≡◌, ◌<◌, ◌≤◌, ◌^◌, length, IfOk};
ghost use Rattle.indexmap.specs.IndexMap.{get};
ghost use Rattle.icf.specs.FirstEqual.{AreFirstEqual, Enters};

use indexmap::IndexMap;
use link_base::Memory;
use std::alloc::Global;
use std::hash::Hash;

/// For each key, the number of the first key that equals it, in one pass that looks each up by its hash.
pub(crate) fn first_equal<K: Eq + Hash + Drop>(
    alloc: Global,
    keys: Vec<K>,
) -> Result<Vec<u32>, Memory>
    requires { length keys.items ≤ 2 ^ 32 }
    ensures { IfOk result (λ numbers. AreFirstEqual K.eq keys.items numbers.items) }
{
    let mut firsts = IndexMap::new(alloc);
    let mut numbers = Vec::with_capacity(alloc, keys.len())?;
    for key in keys {
        let number = numbers.len() as u32;
        let first = enter(&mut firsts, key, number)?;
        numbers.push(first)?;
    }
    Ok(numbers)
}

/// The number of a key, which is entered under this number where it has none.
fn enter<K: Eq + Hash + Drop>(
    firsts: &mut IndexMap<K, u32>,
    key: K,
    number: u32,
) -> Result<u32, Memory>
    ensures { IfOk result (λ first. Enters K.eq (get K.eq firsts.old) (get K.eq firsts.new) key number first) }
{
    if let Some(first) = firsts.get(&key) {
        return Ok(*first);
    }
    firsts.insert(key, number)?;
    Ok(number)
}
