//! The resource tree of an image.

ghost use Rattle.std.specs.Prelude.{◌≡◌, ◌<◌, ◌+◌, ◌++◌, ◌^◌, IfOk, OnOk, length, map};
ghost use Rattle.res_merge.specs.Entries.{entry_of};
ghost use Rattle.res_merge.specs.Order.{in_order, AreMergeable};
ghost use Rattle.res_merge.specs.Levels.{run_of};
ghost use Rattle.res_merge.specs.Parts.{AreParts, ArePlaces};
ghost use Rattle.res_merge.specs.Tree as layout;

use crate::leaves::{push_data, push_leaves, push_texts};
use crate::parts::{Places, data_len, parts_of, places_of};
use crate::resource::Resource;
use crate::rows::{language_rows, rows};
use crate::runs::{Level, Run};
use crate::tables::{push_table, push_tables};
use link_base::Memory;
use std::alloc::Global;

/// The length of the tree of some resources, in bytes.
pub fn tree_length(alloc: Global, list: &[Resource<'_>]) -> Result<u32, Memory>
    requires { AreMergeable (map entry_of list.now) }
    ensures { IfOk result (λ len. len ≡ layout.tree_size (in_order (map entry_of list.now))) }
{
    let parts = parts_of(alloc, list)?;
    Ok(length_of(&parts.resources, &parts.names, &parts.types) as u32)
}

/// The length of the tree of resources in order, and of their names and types.

fn length_of(resources: &[Resource<'_>], names: &[Run<'_>], types: &[Run<'_>]) -> usize
    requires { AreParts (map entry_of resources.now) (map run_of names.now) (map run_of types.now) }
    ensures size { result ≡ layout.tree_size (map entry_of resources.now) }
    ensures small { result < 2 ^ 31 }
{
    let places = places_of(types, names, resources.len());
    places.body + data_len(resources)
}

/// The resource tree of some resources, for a place at an RVA. The parts stand in this order: the table of types, those of
/// names by type, those of languages by type and name, the leaves in that order, the texts of the types and then of the
/// names, and the data in the order of the leaves. Offsets count from the tree's start (PE Format, "The .rsrc Section").
pub fn tree(alloc: Global, list: &[Resource<'_>], time: u32, rva: u32) -> Result<Vec<u8>, Memory>
    requires mergeable { AreMergeable (map entry_of list.now) }
    requires fits { rva + layout.tree_size (in_order (map entry_of list.now)) < 2 ^ 32 }
    ensures { IfOk result (λ out. out.items ≡ layout.tree_of time rva (in_order (map entry_of list.now))) }
{
    let parts = parts_of(alloc, list)?;
    written(
        alloc,
        &parts.resources,
        &parts.names,
        &parts.types,
        time,
        rva,
    )
}

/// The tree of resources in order, and of their names and types.
fn written(
    alloc: Global,
    resources: &[Resource<'_>],
    names: &[Run<'_>],
    types: &[Run<'_>],
    time: u32,
    rva: u32,
) -> Result<Vec<u8>, Memory>
    requires parts { AreParts (map entry_of resources.now) (map run_of names.now) (map run_of types.now) }
    requires fits { rva + layout.tree_size (map entry_of resources.now) < 2 ^ 32 }
    ensures { IfOk result (λ out. out.items ≡ layout.tree_of time rva (map entry_of resources.now)) }
{
    let places = places_of(types, names, resources.len());
    let mut out = Vec::with_capacity(alloc, places.body + data_len(resources))?;
    push_all_tables(alloc, &mut out, resources, names, types, time, places)?;
    push_leaves(&mut out, rva as usize + places.body, resources)?;
    push_texts(&mut out, Level::Types, types)?;
    push_texts(&mut out, Level::Names, names)?;
    push_data(&mut out, resources)?;
    Ok(out)
}

/// Appends the table of types, those of names and those of languages.
fn push_all_tables(
    alloc: Global,
    out: &mut Vec<u8>,
    resources: &[Resource<'_>],
    names: &[Run<'_>],
    types: &[Run<'_>],
    time: u32,
    places: Places,
) -> Result<(), Memory>
    requires parts { AreParts (map entry_of resources.now) (map run_of names.now) (map run_of types.now) }
    requires places { ArePlaces (map run_of types.now) (map run_of names.now) (length resources.now) places }
    ensures { OnOk result (out.new.items ≡ out.old.items ++ layout.all_tables time (map entry_of resources.now)) }
{
    let type_rows = rows(alloc, Level::Types, places.texts, places.names, types)?;
    let name_rows = rows(
        alloc,
        Level::Names,
        places.name_texts,
        places.languages,
        names,
    )?;
    let language_rows = language_rows(alloc, places.leaves, resources)?;
    push_table(out, time, &type_rows)?;
    push_tables(out, time, types, &name_rows)?;
    push_tables(out, time, names, &language_rows)?;
    Ok(())
}
