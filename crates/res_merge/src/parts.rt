//! What a tree is made of, and where its parts stand.

ghost use Rattle.std.specs.Prelude.{◌≡◌, ◌<◌, ◌^◌, IfOk, length, map};
ghost use Rattle.res_merge.specs.Entries.{entry_of};
ghost use Rattle.res_merge.specs.Order.{in_order, AreMergeable};
ghost use Rattle.res_merge.specs.Levels.{key_at, run_of};
ghost use Rattle.res_merge.specs.Parts.{AreParts, body_place, ArePlaces};
ghost use Rattle.res_merge.specs.Tree as tree;

use crate::entry::aligned;
use crate::order::in_order;
use crate::resource::Resource;
use crate::rows::{LEAF_SIZE, key_at, table_size, text_size};
use crate::runs::{Level, Run, heads, runs};
use link_base::Memory;
use std::alloc::Global;

/// The resources of a tree in order, their names, each with how many languages it has, and their types, each with how
/// many names it has.
#[derive(Drop)]
pub(crate) struct Parts<'a> {
    pub(crate) resources: Vec<Resource<'a>>,
    pub(crate) names: Vec<Run<'a>>,
    pub(crate) types: Vec<Run<'a>>,
}

/// Where the parts of a tree stand, as offsets: the tables of names, those of languages, the leaves, the texts of types,
/// those of names, and the data.
#[derive(Clone, Copy)]
pub(crate) struct Places {
    pub(crate) names: usize,
    pub(crate) languages: usize,
    pub(crate) leaves: usize,
    pub(crate) texts: usize,
    pub(crate) name_texts: usize,
    pub(crate) body: usize,
}

/// What the tree of some resources is made of.
pub(crate) fn parts_of<'a>(alloc: Global, list: &[Resource<'a>]) -> Result<Parts<'a>, Memory>
    requires { AreMergeable (map entry_of list.now) }
    ensures ordered { IfOk result (λ parts. map entry_of parts.resources.items ≡ in_order (map entry_of list.now)) }
    ensures parts { IfOk result (λ parts. AreParts (map entry_of parts.resources.items) (map run_of parts.names.items) (map run_of parts.types.items)) }
{
    let resources = in_order(alloc, list)?;
    let names = runs(alloc, Level::Names, &resources)?;
    let types = runs(alloc, Level::Types, &heads(alloc, &names)?)?;
    Ok(Parts {
        resources,
        names,
        types,
    })
}

/// The size of tables that stand one after the other.
fn tables_size(runs: &[Run<'_>]) -> usize
    requires { tree.tables_size (map run_of runs.now) < 2 ^ 31 }
    ensures { result ≡ tree.tables_size (map run_of runs.now) }
{
    let mut size = 0;
    for run in runs {
        size += table_size(run.count);
    }
    size
}

/// The size of texts that stand one after the other.
fn texts_size(level: Level, runs: &[Run<'_>]) -> usize
    requires { tree.texts_size (key_at level) (map run_of runs.now) < 2 ^ 31 }
    ensures { result ≡ tree.texts_size (key_at level) (map run_of runs.now) }
{
    let mut size = 0;
    for run in runs {
        size += text_size(key_at(level, run));
    }
    size
}

/// Where the parts of a tree of these types and names, and of so many resources, stand.
pub(crate) fn places_of(types: &[Run<'_>], names: &[Run<'_>], count: usize) -> Places
    requires { body_place (map run_of types.now) (map run_of names.now) count < 2 ^ 31 }
    ensures { ArePlaces (map run_of types.now) (map run_of names.now) count result }
{
    let name_tables = table_size(types.len());
    let languages = name_tables + tables_size(types);
    let leaves = languages + tables_size(names);
    let texts = leaves + LEAF_SIZE * count;
    let name_texts = texts + texts_size(Level::Types, types);
    let body = name_texts + texts_size(Level::Names, names);
    Places {
        names: name_tables,
        languages,
        leaves,
        texts,
        name_texts,
        body,
    }
}

/// How long the data of resources are, each from a multiple of four on.
pub(crate) fn data_len(resources: &[Resource<'_>]) -> usize
    requires { length (tree.data_from 0 (map entry_of resources.now)) < 2 ^ 31 }
    ensures { result ≡ length (tree.data_from 0 (map entry_of resources.now)) }
{
    let mut end = 0;
    let mut next = 0;
    for resource in resources {
        end = next + resource.body.len();
        next = next + aligned(resource.body.len());
    }
    end
}
