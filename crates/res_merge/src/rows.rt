//! The entries of tables (PE Format, "Resource Directory Entries").

ghost use Rattle.std.specs.Prelude.{◌≡◌, ◌≤◌, ◌<◌, ◌+◌, ◌^◌, ◌*◌, IfOk, length, map};
ghost use Rattle.res_merge.specs.Entries.{entry_of, key_of};
ghost use Rattle.res_merge.specs.Runs.{runs, heads};
ghost use Rattle.res_merge.specs.Levels.{key_at, run_of};
ghost use Rattle.res_merge.specs.Tree as tree;

use crate::entry::aligned;
use crate::resource::Resource;
use crate::runs::{Level, Run};
use link_base::{Memory, ResName};
use std::alloc::Global;

/// What is added to the offset of a text, and to that of a table.
pub(crate) const HIGH_BIT: u32 = 0x8000_0000;

const TABLE_SIZE: usize = 16;

const ROW_SIZE: usize = 8;

pub(crate) const LEAF_SIZE: usize = 16;

/// An entry of a table: a number, or a text by its offset; and where it leads, to a table or to a leaf.
#[derive(Clone, Copy, Debug, PartialEq, Eq)]
pub(crate) struct Row {
    pub(crate) id: u32,
    pub(crate) target: u32,
}

/// The size of a table of so many entries.
pub(crate) fn table_size(count: usize) -> usize
    requires { count < 2 ^ 31 }
    ensures { result ≡ tree.table_size count }
{
    TABLE_SIZE + ROW_SIZE * count
}

/// The type or the name of a run.
pub(crate) fn key_at<'a>(level: Level, run: &Run<'a>) -> ResName<'a>
    ensures { key_of result ≡ key_at level (run_of run.now) }
{
    match level {
        Level::Types => run.head.kind,
        Level::Names => run.head.name,
    }
}

/// The size of a text in the tree; a number has none.
pub(crate) fn text_size(key: ResName<'_>) -> usize
    ensures { result ≡ tree.text_size (key_of key.entry) }
{
    match key {
        ResName::Number(_) => 0,
        ResName::Text(units) => aligned(2 + units.len()),
    }
}

/// The number of an entry, or its text by where it stands.
fn row_id(text: usize, key: ResName<'_>) -> u32
    requires { text < 2 ^ 31 }
    ensures { result ≡ tree.row_id text (key_of key.entry) }
{
    match key {
        ResName::Number(number) => u32::from(number),
        ResName::Text(_) => HIGH_BIT + text as u32,
    }
}

/// Entries that lead to tables: their texts stand one after the other from an offset on, and so do their tables.
pub(crate) fn rows(
    alloc: Global,
    level: Level,
    text: usize,
    table: usize,
    runs: &[Run<'_>],
) -> Result<Vec<Row>, Memory>
    requires texts { text + tree.texts_size (key_at level) (map run_of runs.now) < 2 ^ 31 }
    requires tables { table + tree.tables_size (map run_of runs.now) < 2 ^ 31 }
    ensures { IfOk result (λ found. found.items ≡ tree.rows (key_at level) text table (map run_of runs.now)) }
{
    let mut found = Vec::with_capacity(alloc, runs.len())?;
    let mut text = text;
    let mut table = table;
    for run in runs {
        let key = key_at(level, run);
        found.push(Row {
            id: row_id(text, key),
            target: HIGH_BIT + table as u32,
        })?;
        text += text_size(key);
        table += table_size(run.count);
    }
    Ok(found)
}

/// Entries that lead to leaves, which stand one after the other from an offset on.
pub(crate) fn language_rows(
    alloc: Global,
    leaf: usize,
    resources: &[Resource<'_>],
) -> Result<Vec<Row>, Memory>
    requires { leaf + 16 * length resources.now < 2 ^ 31 }
    ensures { IfOk result (λ found. found.items ≡ tree.language_rows leaf (map entry_of resources.now)) }
{
    let mut found = Vec::with_capacity(alloc, resources.len())?;
    let mut leaf = leaf;
    for resource in resources {
        found.push(Row {
            id: u32::from(resource.language),
            target: leaf as u32,
        })?;
        leaf += LEAF_SIZE;
    }
    Ok(found)
}
