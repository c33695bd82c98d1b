//! What COMDAT sections say of themselves, as it is kept of a module, with their leaders by their places among its definitions.

ghost use Rattle.std.specs.Prelude.{◌≡◌, ◌<◌, List, length, map, option_map, IfSome, IfOk};
ghost use Rattle.coff_aux.specs.Comdats.{comdat_of};
ghost use Rattle.coff_aux.specs.Steps.{symbol_noted, symbols_noted, all_section_symbols, StandInOrder};
ghost use Rattle.module_view.specs.Choices.{name_defined, comdat_named, HasLeaderAmong, AscendBySymbol, IsPlaceOf, IsLeaderOf, IsChoice, AreChoicesBy, AreChoices};
ghost use Rattle.module_view.specs.ImportModule.{module_definitions};
ghost use Rattle.module_view.specs.Opening.{IsOpened};
ghost use Rattle.module_view.specs.declared.definition.Definition.{Definition};

use crate::definition::Definition;
use crate::input_module::{Content, Module};
use coff_aux::{
    Comdat, ComdatRecord, NO_SYMBOL, NotedSymbols, comdat_record, is_out_of_order,
    is_section_number, parent_said,
};
use coff_object::Object;
use link_base::{Memory, Name};
use std::alloc::Global;

/// What a COMDAT section says of itself: how one of several is selected (1 to 6, as the PE Format specification numbers
/// selections), the index among the module's definitions of its leader, where that is external, and the section that it is
/// selected with, where its selection is 5.
#[derive(Clone, Copy)]
pub struct ComdatChoice {
    pub selection: u8,
    pub leader: Option<u32>,
    pub parent: Option<u32>,
}

impl<'a> Module<'a> {
    /// What each section says of itself as a COMDAT section, by the numbers of sections less 1; nothing at all where none is
    /// one.
    pub fn comdat_choices(&self) -> &[Option<ComdatChoice>]
        ensures choices { AreChoices self.now.bytes (module_definitions self.now) result.now }
        ensures opened { IsOpened self.now }
    {
        match &self.content {
            Content::Object(parts) => &parts.comdats,
            Content::Import(_) => &[],
        }
    }

    /// As which COMDAT a section goes, by its number: none where there is no such section, or it is no COMDAT.
    pub fn comdat(&self, i: u32) -> Option<Comdat<'a>>
        ensures comdat { result ≡ comdat_of self.now.bytes i }
        ensures opened { IsOpened self.now }
    {
        let choice = self.comdat_choice(i)?;
        Some(Comdat {
            selection: choice.selection,
            leader: leader_name(self.definitions(), choice.leader),
            parent: choice.parent,
        })
    }

    /// The same with its leader by its place among the definitions.
    pub fn comdat_choice(&self, i: u32) -> Option<ComdatChoice>
        ensures comdat { option_map (comdat_named (module_definitions self.now)) result ≡ comdat_of self.now.bytes i }
        ensures leader { IfSome result (HasLeaderAmong (module_definitions self.now)) }
        ensures opened { IsOpened self.now }
    {
        choice_at(&self.object, self.comdat_choices(), i)
    }
}

/// As which COMDAT a section goes, by what is kept of all.
#[tactic(auto, unfolding(coff_aux::specs::Comdats::comdat_of))]
fn choice_at(
    object: &Object<'_>,
    choices: &[Option<ComdatChoice>],
    number: u32,
) -> Option<ComdatChoice>
    ensures comdat { (definitions : List Definition) → AreChoices object.now definitions choices.now
        → option_map (comdat_named definitions) result ≡ comdat_of object.now number }
    ensures leader { (definitions : List Definition) → AreChoices object.now definitions choices.now
        → IfSome result (HasLeaderAmong definitions) }
{
    if !is_section_number(object.section_count(), number) {
        return None;
    }
    match choices.get(number as usize - 1) {
        Some(choice) => *choice,
        None => None,
    }
}

/// The name of a leader, by its place among the definitions.
fn leader_name<'a>(definitions: &[Definition<'a>], leader: Option<u32>) -> Option<Name<'a>>
    requires { IfSome leader (λ place. place < length definitions.now) }
    ensures { result ≡ option_map (name_defined definitions.now) leader }
{
    match leader {
        Some(place) => Some(definitions[place as usize].name.again()),
        None => None,
    }
}

// ---- what is kept

/// What each section of an object says, with the place of its leader among the definitions, which stand in the order of their
/// symbols: no leader where the section has no second symbol, or that is not external. There is no answer where a COMDAT
/// section lacks a symbol or a selection, or does not stand behind its parent.
pub(crate) fn choices_in_order(
    alloc: Global,
    object: &Object<'_>,
    symbols: &[NotedSymbols],
    definitions: &[Definition<'_>],
) -> Result<Option<Vec<Option<ComdatChoice>>>, Memory>
    requires order { AscendBySymbol definitions.now }
    requires noted { map symbols_noted symbols.now ≡ all_section_symbols object.now }
    ensures choices { IfOk result (λ found. IfSome found (λ choices. AreChoicesBy object.now definitions.now choices.items)) }
    ensures order { IfOk result (λ found. IfSome found (λ _. StandInOrder object.now)) }
{
    let mut choices = Vec::with_capacity(alloc, symbols.len())?;
    let mut next = 0;
    for index in 0..object.section_count() {
        let noted = &symbols[index as usize];
        match comdat_record(object, index + 1, noted.first) {
            Some(said) => {
                if is_out_of_order(index, &said) {
                    return Ok(None);
                }
                let choice = choice_of(definitions, &said, noted.second, next);
                next = place_after(choice.leader, next);
                choices.push(Some(choice))?;
            }
            None => choices.push(None)?,
        }
    }
    Ok(Some(choices))
}

/// The same in any order, with an answer for each object.
pub(crate) fn choices_of(
    alloc: Global,
    object: &Object<'_>,
    symbols: &[NotedSymbols],
    definitions: &[Definition<'_>],
) -> Result<Vec<Option<ComdatChoice>>, Memory>
    requires order { AscendBySymbol definitions.now }
    requires noted { map symbols_noted symbols.now ≡ all_section_symbols object.now }
    ensures { IfOk result (λ choices. AreChoicesBy object.now definitions.now choices.items) }
{
    let mut choices = Vec::with_capacity(alloc, symbols.len())?;
    for index in 0..object.section_count() {
        let noted = &symbols[index as usize];
        let choice = match comdat_record(object, index + 1, noted.first) {
            Some(said) => Some(choice_of(definitions, &said, noted.second, 0)),
            None => None,
        };
        choices.push(choice)?;
    }
    Ok(choices)
}

/// What a section says that has this second symbol.
fn choice_of(
    definitions: &[Definition<'_>],
    said: &ComdatRecord,
    second: u32,
    next: usize,
) -> ComdatChoice
    requires { AscendBySymbol definitions.now }
    ensures { IsChoice definitions.now said.now (symbol_noted second) result }
{
    ComdatChoice {
        selection: said.selection,
        leader: leader_place(definitions, second, next),
        parent: parent_said(said),
    }
}

/// The place of a leader among the definitions, where it is one of them. It is looked for at the next place first, where it
/// mostly is.
fn leader_place(definitions: &[Definition<'_>], second: u32, next: usize) -> Option<u32>
    requires { AscendBySymbol definitions.now }
    ensures { IsLeaderOf definitions.now (symbol_noted second) result }
{
    if second == NO_SYMBOL {
        return None;
    }
    if next < definitions.len() && definitions[next].symbol == second {
        return Some(next as u32);
    }
    place_of_symbol(definitions, second)
}

/// The place after that of the leader, or the same one where there is no leader.
fn place_after(leader: Option<u32>, next: usize) -> usize {
    match leader {
        Some(place) => place as usize + 1,
        None => next,
    }
}

/// The place of the definition of a symbol.
fn place_of_symbol(definitions: &[Definition<'_>], symbol: u32) -> Option<u32>
    requires { AscendBySymbol definitions.now }
    ensures { IsPlaceOf definitions.now symbol result }
{
    match definitions.binary_search_by_key(&symbol, |definition| definition.symbol) {
        Ok(place) => Some(place as u32),
        Err(_) => None,
    }
}
