//! The first alternate of each name.

ghost use Rattle.std.specs.Prelude.{◌≡◌, ◌<◌, ◌++◌, ◌∷◌, [], ℕ, List, length, map, IfOk};
ghost use Rattle.std.specs.List.{All, AllZip, IsDistinct, list_any};
ghost use Rattle.link_base.specs.NameText.{same_name};
ghost use Rattle.symbol_names.specs.Alternates.{alternates_by};
ghost use Rattle.symbol_names.specs.Lists.{of_all};
ghost use Rattle.symbol_names.specs.Interning.{NotesAlternate, NotesModule};
ghost use Rattle.symbol_names.specs.Kept.{noted_view};
ghost use Rattle.symbol_table.specs.Passes.{has_alternates, TellsAlternates, AreAlternates};

use indexmap::IndexSet;
use link_base::{Memory, Name};
use std::alloc::Global;
use symbol_names::{ModuleNames, NotedAlternate};

/// The first alternate of each name, by its number: the number of the name that it stands for, and no list where there are
/// none. Those that the command line gives come before those of the modules.
pub(crate) fn first_alternates<'a>(
    alloc: Global,
    names: &IndexSet<Name<'a>>,
    given: &[NotedAlternate],
    modules: &[ModuleNames<'a>],
) -> Result<Vec<Option<u32>>, Memory>
    requires given { All (λ alternate. alternate.left < length names.now.keys) given.now }
    requires noted { All (NotesModule names.now.keys) modules.now }
    ensures { IfOk result (λ alternates. (pairs : List (List ℕ × List ℕ)) → AllZip (NotesAlternate names.now.keys) pairs given.now
        → TellsAlternates names.now.keys (pairs ++ of_all alternates_by (map noted_view modules.now)) alternates.items) }
{
    if given.is_empty() && !give_alternates(modules) {
        return Ok(Vec::new(alloc));
    }
    let mut alternates = vec![in alloc; None; names.len()]?;
    note_alternates(&mut alternates, names, given);
    for module in modules {
        note_alternates(&mut alternates, names, &module.alternates);
    }
    Ok(alternates)
}

/// Whether a module gives an alternate.
fn give_alternates(modules: &[ModuleNames<'_>]) -> bool
    ensures { result ≡ list_any has_alternates modules.now }
{
    modules.iter().any(|module| !module.alternates.is_empty())
}

/// Notes alternates.
fn note_alternates<'a>(
    alternates: &mut Vec<Option<u32>>,
    names: &IndexSet<Name<'a>>,
    noted: &[NotedAlternate],
)
    requires distinct { IsDistinct same_name names.now.keys }
    requires long { length alternates.old.items ≡ length names.now.keys }
    requires within { All (λ alternate. alternate.left < length names.now.keys) noted.now }
    ensures long { length alternates.new.items ≡ length names.now.keys }
    ensures noted { (earlier entries : List (List ℕ × List ℕ)) → AllZip (NotesAlternate names.now.keys) entries noted.now
        → AreAlternates names.now.keys earlier alternates.old.items
        → AreAlternates names.now.keys (earlier ++ entries) alternates.new.items }
{
    for alternate in noted {
        note_alternate(alternates, names, alternate);
    }
}

/// Notes an alternate, where it is the first of its name.
fn note_alternate<'a>(
    alternates: &mut Vec<Option<u32>>,
    names: &IndexSet<Name<'a>>,
    noted: &NotedAlternate,
)
    requires distinct { IsDistinct same_name names.now.keys }
    requires long { length alternates.old.items ≡ length names.now.keys }
    requires within { noted.now.left < length names.now.keys }
    ensures long { length alternates.new.items ≡ length names.now.keys }
    ensures noted { (earlier : List (List ℕ × List ℕ)) (entry : List ℕ × List ℕ) → NotesAlternate names.now.keys entry noted.now
        → AreAlternates names.now.keys earlier alternates.old.items
        → AreAlternates names.now.keys (earlier ++ entry ∷ []) alternates.new.items }
{
    if alternates[noted.left as usize].is_none() {
        alternates[noted.left as usize] = Some(noted.right);
    }
}
