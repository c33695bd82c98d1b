//! The first weak external of each name.

ghost use Rattle.std.specs.Prelude.{◌≡◌, ◌<◌, ◌++◌, ◌∷◌, [], ◌^◌, ℕ, List, length, map, IfOk};
ghost use Rattle.std.specs.List.{All, IsDistinct, list_any};
ghost use Rattle.link_base.specs.NameText.{same_name};
ghost use Rattle.module_view.specs.declared.reference.Weak.{Weak};
ghost use Rattle.symbol_names.specs.Lists.{Said, said, said_by, all_weaks};
ghost use Rattle.symbol_names.specs.Interning.{NotesWeak, NotesModule};
ghost use Rattle.symbol_names.specs.Kept.{noted_view};
ghost use Rattle.symbol_table.specs.Passes.{has_weaks, TellsWeaks, AreWeaks};

use indexmap::IndexSet;
use link_base::{Memory, Name};
use std::alloc::Global;
use symbol_names::{ModuleNames, NotedDefault, NotedWeak};

/// The first weak external of a name: its module, and what it means by default.
#[derive(Clone, Copy)]
pub(crate) struct FirstWeak {
    pub(crate) module: u32,
    pub(crate) default: NotedDefault,
}

/// The first weak external of each name, by its number: no list where there are none.
pub(crate) fn first_weaks<'a>(
    alloc: Global,
    names: &IndexSet<Name<'a>>,
    modules: &[ModuleNames<'a>],
) -> Result<Vec<Option<FirstWeak>>, Memory>
    requires few { length modules.now < 2 ^ 32 }
    requires noted { All (NotesModule names.now.keys) modules.now }
    ensures { IfOk result (λ weaks. TellsWeaks names.now.keys (all_weaks (map noted_view modules.now)) weaks.items) }
{
    if !say_weakly(modules) {
        return Ok(Vec::new(alloc));
    }
    let mut weaks = vec![in alloc; None; names.len()]?;
    for position in 0..modules.len() {
        note_weaks(&mut weaks, names, position as u32, &modules[position]);
    }
    Ok(weaks)
}

/// Whether a module has a weak external.
fn say_weakly(modules: &[ModuleNames<'_>]) -> bool
    ensures { result ≡ list_any has_weaks modules.now }
{
    modules.iter().any(|module| !module.weaks.is_empty())
}

/// Notes the weak externals of the module at a position.
fn note_weaks<'a>(
    weaks: &mut Vec<Option<FirstWeak>>,
    names: &IndexSet<Name<'a>>,
    position: u32,
    module: &ModuleNames<'a>,
)
    requires distinct { IsDistinct same_name names.now.keys }
    requires long { length weaks.old.items ≡ length names.now.keys }
    requires noted { NotesModule names.now.keys «module».now }
    ensures long { length weaks.new.items ≡ length names.now.keys }
    ensures noted { (earlier : List Said) → AreWeaks names.now.keys earlier weaks.old.items
        → AreWeaks names.now.keys (earlier ++ said_by position «module».now.bytes.now) weaks.new.items }
{
    for weak in &module.weaks {
        note_weak(weaks, names, position, weak);
    }
}

/// Notes a weak external, where it is the first of its name.
fn note_weak<'a>(
    weaks: &mut Vec<Option<FirstWeak>>,
    names: &IndexSet<Name<'a>>,
    position: u32,
    weak: &NotedWeak,
)
    requires distinct { IsDistinct same_name names.now.keys }
    requires long { length weaks.old.items ≡ length names.now.keys }
    requires within { weak.now.name < length names.now.keys }
    ensures long { length weaks.new.items ≡ length names.now.keys }
    ensures noted { (earlier : List Said) (bytes : List ℕ) (entry : Weak) → NotesWeak names.now.keys bytes entry weak.now
        → AreWeaks names.now.keys earlier weaks.old.items
        → AreWeaks names.now.keys (earlier ++ said position bytes entry ∷ []) weaks.new.items }
{
    if weaks[weak.name as usize].is_none() {
        weaks[weak.name as usize] = Some(FirstWeak {
            module: position,
            default: weak.default,
        });
    }
}
