//! The first live definition of each name, and the first clash of two.

ghost use Rattle.std.specs.Prelude.{◌≡◌, ◌<◌, ◌++◌, ◌∷◌, [], ◌^◌, ℕ, List, length, map, filter, IfOk, option_and_then};
ghost use Rattle.std.specs.List.{All, IsDistinct};
ghost use Rattle.link_base.specs.NameText.{same_name};
ghost use Rattle.module_view.specs.declared.definition.Definition.{Definition};
ghost use Rattle.symbol_names.specs.Lists.{Provided, provided, provided_by, is_live, live_definitions};
ghost use Rattle.symbol_table.specs.Clash.{agree};
ghost use Rattle.symbol_names.specs.Interning.{Numbers, NotesDefinition, NotesModule};
ghost use Rattle.symbol_names.specs.Kept.{rows_of, noted_view};
ghost use Rattle.symbol_table.specs.Passes.{AreLives, clash_with_first};

use crate::meaning::Clash;
use indexmap::IndexSet;
use link_base::{Memory, Name};
use module_view::Place;
use std::alloc::Global;
use symbol_names::{ChosenRow, ModuleNames, NotedDefinition, is_live_at, name_at};

/// The first live definition of a name.
#[derive(Clone, Copy)]
pub(crate) struct FirstLive {
    pub(crate) module: u32,
    pub(crate) place: Place,
}

/// The first live definition of each name, by its number, and the first clash of two.
#[derive(Drop)]
pub(crate) struct Lives<'a> {
    pub(crate) firsts: Vec<Option<FirstLive>>,
    pub(crate) clash: Option<Clash<'a>>,
}

/// The live definitions of modules.
pub(crate) fn live_definitions<'a>(
    alloc: Global,
    names: &IndexSet<Name<'a>>,
    modules: &[ModuleNames<'a>],
    chosen: &[ChosenRow],
) -> Result<Lives<'a>, Memory>
    requires few { length modules.now < 2 ^ 32 }
    requires noted { All (NotesModule names.now.keys) modules.now }
    ensures { IfOk result (λ lives. AreLives names.now.keys
        (live_definitions (map noted_view modules.now) (rows_of chosen.now)) lives.firsts.items lives.clash) }
{
    let mut lives = Lives {
        firsts: vec![in alloc; None; names.len()]?,
        clash: None,
    };
    for position in 0..modules.len() {
        note_lives(
            &mut lives,
            names,
            position as u32,
            &modules[position],
            chosen,
        );
    }
    Ok(lives)
}

/// Notes the live definitions of the module at a position.
fn note_lives<'a>(
    lives: &mut Lives<'a>,
    names: &IndexSet<Name<'a>>,
    position: u32,
    module: &ModuleNames<'a>,
    chosen: &[ChosenRow],
)
    requires distinct { IsDistinct same_name names.now.keys }
    requires long { length lives.old.firsts.items ≡ length names.now.keys }
    requires noted { NotesModule names.now.keys «module».now }
    ensures long { length lives.new.firsts.items ≡ length names.now.keys }
    ensures noted { (earlier : List Provided) → AreLives names.now.keys earlier lives.old.firsts.items lives.old.clash
        → AreLives names.now.keys (earlier ++ filter (is_live (rows_of chosen.now)) (provided_by position (noted_view «module».now)))
        lives.new.firsts.items lives.new.clash }
{
    for definition in &module.definitions {
        if is_live_at(chosen, position, definition.place) {
            note_live(lives, names, position, definition);
        }
    }
}

/// Notes a live definition, where it is the first of its name, and its clash with the first, where there is one and none
/// was noted before.
fn note_live<'a>(
    lives: &mut Lives<'a>,
    names: &IndexSet<Name<'a>>,
    position: u32,
    definition: &NotedDefinition,
)
    requires distinct { IsDistinct same_name names.now.keys }
    requires long { length lives.old.firsts.items ≡ length names.now.keys }
    requires within { definition.now.name < length names.now.keys }
    ensures long { length lives.new.firsts.items ≡ length names.now.keys }
    ensures noted { (earlier : List Provided) (entry : Definition) → NotesDefinition names.now.keys entry definition.now
        → AreLives names.now.keys earlier lives.old.firsts.items lives.old.clash
        → AreLives names.now.keys (earlier ++ provided position entry ∷ []) lives.new.firsts.items lives.new.clash }
{
    match lives.firsts[definition.name as usize] {
        None => {
            lives.firsts[definition.name as usize] = Some(FirstLive {
                module: position,
                place: definition.place,
            });
        }
        Some(first) => {
            if lives.clash.is_none() {
                lives.clash = clash_with(first, names, position, definition);
            }
        }
    }
}

/// The clash of a definition with the first live one of its name, unless they are one number.
fn clash_with<'a>(
    first: FirstLive,
    names: &IndexSet<Name<'a>>,
    position: u32,
    definition: &NotedDefinition,
) -> Option<Clash<'a>>
    requires { definition.now.name < length names.now.keys }
    ensures { (entry : Definition) → NotesDefinition names.now.keys entry definition.now
        → result ≡ clash_with_first (provided position entry) first }
{
    if agree(first.place, definition.place) {
        return None;
    }
    Some(Clash {
        name: name_at(names, definition.name as usize),
        first: first.module,
        second: position,
    })
}

/// Whether two places are one number.
fn agree(place: Place, other: Place) -> bool
    ensures { result ≡ agree place other }
{
    match (place, other) {
        (Place::Absolute(value), Place::Absolute(other)) => other == value,
        _ => false,
    }
}
