//! The leaves of a tree, its texts and its data (PE Format, "Resource Data Entry" and "Resource Directory String").

ghost use Rattle.std.specs.Prelude.{◌≡◌, ◌≤◌, ◌<◌, ◌+◌, ◌^◌, ◌++◌, OnOk, length, map, sum_by, replicate};
ghost use Rattle.std.specs.List.{All};
ghost use Rattle.res_merge.specs.Entries.{entry_of, key_of};
ghost use Rattle.res_merge.specs.Order.{IsShort, entry_size};
ghost use Rattle.res_merge.specs.Levels.{key_at, run_of};
ghost use Rattle.res_merge.specs.Tree as tree;

use crate::entry::aligned;
use crate::resource::Resource;
use crate::rows::key_at;
use crate::runs::{Level, Run};
use link_base::{LeNumber, Memory, ResName, push_fields};

/// Zeros up to a multiple of four, of which at most three are needed.
const ZEROS: &[u8] = &[0, 0, 0, 0];

/// Appends fewer than four zeros.
fn push_zeros(out: &mut Vec<u8>, count: usize) -> Result<(), Memory>
    requires { count ≤ 4 }
    ensures { OnOk result (out.new.items ≡ out.old.items ++ replicate count 0) }
{
    let (zeros, _) = ZEROS.split_at(count);
    out.extend_from_slice(zeros)?;
    Ok(())
}

/// How many zeros stand behind so many bytes, up to a multiple of four.
fn padding(size: usize) -> usize
    requires { size < 2 ^ 63 }
    ensures is { result ≡ tree.padding size }
    ensures few { result ≤ 4 }
{
    aligned(size) - size
}

/// Appends the leaves of resources, whose data stand from an RVA on.
#[tactic(auto, unfolding(crate::specs::Tree::leaves))]
pub(crate) fn push_leaves(
    out: &mut Vec<u8>,
    rva: usize,
    resources: &[Resource<'_>],
) -> Result<(), Memory>
    requires small { rva < 2 ^ 32 }
    requires fits { rva + length (tree.data_from 0 (map entry_of resources.now)) < 2 ^ 32 }
    ensures { OnOk result (out.new.items ≡ out.old.items ++ tree.leaves rva (map entry_of resources.now)) }
{
    let mut place = rva;
    for resource in resources {
        let size = resource.body.len();
        push_fields(
            out,
            &[
                LeNumber::U32(place as u32),
                LeNumber::U32(size as u32),
                LeNumber::U32(0),
                LeNumber::U32(0),
            ],
        )?;
        place += aligned(size);
    }
    Ok(())
}

/// Appends a text: its count of units, its units, and zeros up to a multiple of four. A number has none.
fn push_text(out: &mut Vec<u8>, key: ResName<'_>) -> Result<(), Memory>
    requires { IsShort (key_of key) }
    ensures { OnOk result (out.new.items ≡ out.old.items ++ tree.text_bytes (key_of key.entry)) }
{
    match key {
        ResName::Number(_) => Ok(()),
        ResName::Text(units) => {
            push_fields(out, &[LeNumber::U16((units.len() / 2) as u16)])?;
            out.extend_from_slice(units)?;
            push_zeros(out, padding(2 + units.len()))
        }
    }
}

/// Appends the texts of types, or those of names.
#[tactic(auto, unfolding(crate::specs::Tree::texts))]
pub(crate) fn push_texts(out: &mut Vec<u8>, level: Level, runs: &[Run<'_>]) -> Result<(), Memory>
    requires { All (λ run. IsShort (key_at level (run_of run))) runs.now }
    ensures { OnOk result (out.new.items ≡ out.old.items ++ tree.texts (key_at level) (map run_of runs.now)) }
{
    for run in runs {
        push_text(out, key_at(level, run))?;
    }
    Ok(())
}

/// Appends the data of resources, each from a multiple of four on.
pub(crate) fn push_data(out: &mut Vec<u8>, resources: &[Resource<'_>]) -> Result<(), Memory>
    ensures { OnOk result (out.new.items ≡ out.old.items ++ tree.data_from 0 (map entry_of resources.now)) }
{
    let mut zeros = 0;
    for resource in resources {
        push_zeros(out, zeros)?;
        out.extend_from_slice(resource.body)?;
        zeros = padding(resource.body.len());
    }
    Ok(())
}
