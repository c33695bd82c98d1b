//! The greatest common of each name.

ghost use Rattle.std.specs.Prelude.{◌≡◌, ◌<◌, ◌++◌, ◌∷◌, [], ◌^◌, List, length, map, IfOk};
ghost use Rattle.std.specs.List.{All, IsDistinct, list_any};
ghost use Rattle.link_base.specs.NameText.{same_name};
ghost use Rattle.module_view.specs.declared.definition.Common.{Common};
ghost use Rattle.symbol_names.specs.Lists.{Offered, offered, offered_by, all_commons};
ghost use Rattle.symbol_names.specs.Interning.{NotesCommon, NotesModule};
ghost use Rattle.symbol_names.specs.Kept.{noted_view};
ghost use Rattle.symbol_table.specs.Passes.{is_greater, has_commons, TellsGreatest, AreGreatest};

use indexmap::IndexSet;
use link_base::{Memory, Name};
use std::alloc::Global;
use symbol_names::{ModuleNames, NotedCommon};

/// The greatest common of a name, the first of equals.
#[derive(Clone, Copy)]
pub(crate) struct GreatestCommon {
    pub(crate) module: u32,
    pub(crate) symbol: u32,
    pub(crate) size: u32,
}

/// The greatest common of each name, by its number: no list where no module shares a name.
pub(crate) fn greatest_commons<'a>(
    alloc: Global,
    names: &IndexSet<Name<'a>>,
    modules: &[ModuleNames<'a>],
) -> Result<Vec<Option<GreatestCommon>>, Memory>
    requires few { length modules.now < 2 ^ 32 }
    requires noted { All (NotesModule names.now.keys) modules.now }
    ensures { IfOk result (λ commons. TellsGreatest names.now.keys (all_commons (map noted_view modules.now)) commons.items) }
{
    if !share_names(modules) {
        return Ok(Vec::new(alloc));
    }
    let mut commons = vec![in alloc; None; names.len()]?;
    for position in 0..modules.len() {
        note_commons(&mut commons, names, position as u32, &modules[position]);
    }
    Ok(commons)
}

/// Whether a module shares a name.
fn share_names(modules: &[ModuleNames<'_>]) -> bool
    ensures { result ≡ list_any has_commons modules.now }
{
    modules.iter().any(|module| !module.commons.is_empty())
}

/// Notes the commons of the module at a position.
fn note_commons<'a>(
    commons: &mut Vec<Option<GreatestCommon>>,
    names: &IndexSet<Name<'a>>,
    position: u32,
    module: &ModuleNames<'a>,
)
    requires distinct { IsDistinct same_name names.now.keys }
    requires long { length commons.old.items ≡ length names.now.keys }
    requires noted { NotesModule names.now.keys «module».now }
    ensures long { length commons.new.items ≡ length names.now.keys }
    ensures noted { (earlier : List Offered) → AreGreatest names.now.keys earlier commons.old.items
        → AreGreatest names.now.keys (earlier ++ offered_by position «module».now.bytes.now) commons.new.items }
{
    for common in &module.commons {
        note_common(commons, names, position, common);
    }
}

/// Notes a common, where it is greater than that of its name.
fn note_common<'a>(
    commons: &mut Vec<Option<GreatestCommon>>,
    names: &IndexSet<Name<'a>>,
    position: u32,
    common: &NotedCommon,
)
    requires distinct { IsDistinct same_name names.now.keys }
    requires long { length commons.old.items ≡ length names.now.keys }
    requires within { common.now.name < length names.now.keys }
    ensures long { length commons.new.items ≡ length names.now.keys }
    ensures noted { (earlier : List Offered) (entry : Common) → NotesCommon names.now.keys entry common.now
        → AreGreatest names.now.keys earlier commons.old.items
        → AreGreatest names.now.keys (earlier ++ offered position entry ∷ []) commons.new.items }
{
    if is_greater(common.size, &commons[common.name as usize]) {
        commons[common.name as usize] = Some(GreatestCommon {
            module: position,
            symbol: common.symbol,
            size: common.size,
        });
    }
}

/// Whether a size is greater than that of a common, where there is one.
fn is_greater(size: u32, common: &Option<GreatestCommon>) -> bool
    ensures { result ≡ is_greater size common.now }
{
    match common {
        Some(common) => size > common.size,
        None => true,
    }
}
