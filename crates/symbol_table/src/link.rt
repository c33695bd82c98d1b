//! Where names lead, by their numbers.

ghost use Rattle.std.specs.Prelude.{◌≡◌, ◌<◌, ℕ, List, Option, None, false, length, slice_index_or, option_map, IfOk};
ghost use Rattle.std.specs.Option.{option_or};
ghost use Rattle.symbol_names.specs.Alternates.{all_alternates};
ghost use Rattle.symbol_names.specs.LinkView.{LinkView};
ghost use Rattle.symbol_table.specs.LinkerNames.{linker_meaning};
ghost use Rattle.symbol_names.specs.Lists.{Said, live_definitions, all_commons, all_weaks};
ghost use Rattle.symbol_table.specs.Resolution.{meaning_at, place_meaning, default_step, slot_step, alternate_step, own_or, weak_step};
ghost use Rattle.symbol_names.specs.Kept.{rows_of};
ghost use Rattle.symbol_table.specs.Passes.{first_meaning, kept_meaning, AreFirst, TellsGreatest, KeepsSaid, KeepsWeak, TellsWeaks, KeepsAlternate, TellsAlternates};
ghost use Rattle.symbol_names.specs.Interning.{Numbers};
ghost use Rattle.symbol_names.specs.Rests.{HasRests};
ghost use Rattle.symbol_table.specs.Links.{IsStep, AreSteps};

use crate::first_weak::FirstWeak;
use crate::greatest::GreatestCommon;
use crate::linker_names::linker_meaning;
use crate::lives::FirstLive;
use crate::meaning::{Meaning, NoMeaning};
use indexmap::IndexSet;
use link_base::{Memory, Name};
use module_view::Place;
use std::alloc::Global;
use symbol_names::{ChosenRow, NotedDefault, is_chosen, name_at};

/// Where a name leads.
#[derive(Drop)]
pub(crate) enum Link<'a> {
    /// To no other: what it means, or why it means nothing.
    Ends(Result<Meaning<'a>, NoMeaning>),
    /// To the name of a number, of which it may be a slot.
    Leads { number: usize, slot: bool },
}

/// Where each name leads, by its number. The lists of commons, weak externals and alternates may end before it.
pub(crate) fn links<'a>(
    alloc: Global,
    names: &IndexSet<Name<'a>>,
    firsts: &[Option<FirstLive>],
    commons: &[Option<GreatestCommon>],
    weaks: &[Option<FirstWeak>],
    alternates: &[Option<u32>],
    chosen: &[ChosenRow],
) -> Result<Vec<Link<'a>>, Memory>
    requires long { length firsts.now ≡ length names.now.keys }
    requires rests { HasRests names.now.keys }
    ensures { IfOk result (λ links. (view : LinkView)
        → AreFirst names.now.keys (live_definitions view.modules (rows_of chosen.now)) firsts.now
        → TellsGreatest names.now.keys (all_commons view.modules) commons.now
        → TellsWeaks names.now.keys (all_weaks view.modules) weaks.now
        → TellsAlternates names.now.keys (all_alternates view) alternates.now
        → AreSteps view (rows_of chosen.now) names.now.keys links.items) }
{
    let mut links = Vec::with_capacity(alloc, names.len())?;
    for number in 0..names.len() {
        let own = own_meaning(names, number, firsts[number], entry_at(commons, number));
        let weak = entry_at(weaks, number);
        let alternate = entry_at(alternates, number);
        let slot = slot_link(names, number);
        links.push(link_of(own, weak, alternate, chosen, slot))?;
    }
    Ok(links)
}

/// What stands at a number, where the list comes so far.
fn entry_at<T: Copy>(list: &[Option<T>], number: usize) -> Option<T>
    ensures { result ≡ slice_index_or list.now number None }
{
    match list.get(number) {
        Some(entry) => *entry,
        None => None,
    }
}

/// Where a name leads, by what it means without its default and its alternate, and by where it leads if it has neither.
fn link_of<'a>(
    own: Option<Meaning<'a>>,
    weak: Option<FirstWeak>,
    alternate: Option<u32>,
    chosen: &[ChosenRow],
    slot: Link<'a>,
) -> Link<'a>
    ensures { (names : List (List ℕ)) (name : List ℕ) (entry : Option Said) (pair : Option (List ℕ × List ℕ))
        → IsStep names (slot_step name) slot.entry → KeepsWeak names entry weak → KeepsAlternate names pair alternate
        → IsStep names (own_or own.entry (weak_step (rows_of chosen.now) entry (alternate_step name pair))) result }
{
    if let Some(meaning) = own {
        return Link::Ends(Ok(meaning));
    }
    match weak {
        Some(weak) => weak_link(weak, chosen),
        None => alternate_link(alternate, slot),
    }
}

/// What the name of a number means without its default and its alternate.
fn own_meaning<'a>(
    names: &IndexSet<Name<'_>>,
    number: usize,
    first: Option<FirstLive>,
    common: Option<GreatestCommon>,
) -> Option<Meaning<'a>>
    requires { number < length names.now.keys }
    ensures { (name : List ℕ) → Numbers names.now.keys number name
        → result ≡ option_or (option_map first_meaning first) (option_or (option_map kept_meaning common) (linker_meaning name)) }
{
    if let Some(first) = first {
        return Some(meaning_at(first.module, first.place));
    }
    if let Some(common) = common {
        return Some(Meaning::Common {
            module: common.module,
            symbol: common.symbol,
        });
    }
    linker_meaning(&name_at(names, number))
}

/// What a definition at a place of a module means.
fn meaning_at<'a>(module: u32, place: Place) -> Meaning<'a>
    ensures { result ≡ meaning_at «module» place }
{
    match place {
        Place::Section { section, value } => Meaning::Section {
            module,
            section,
            value,
        },
        Place::Absolute(value) => Meaning::Absolute(value),
        Place::Slot => Meaning::Slot { module },
        Place::Thunk => Meaning::Thunk { module },
    }
}

/// Where a name leads by its first weak external.
fn weak_link<'a>(weak: FirstWeak, chosen: &[ChosenRow]) -> Link<'a>
    ensures { (names : List (List ℕ)) (entry : Said) → KeepsSaid names entry weak
        → IsStep names (default_step (rows_of chosen.now) entry.«module» entry.default) result }
{
    match weak.default {
        NotedDefault::Name(number) => leads_to(number as usize),
        NotedDefault::Place { section, value } => {
            Link::Ends(place_meaning(weak.module, section, value, chosen))
        }
        NotedDefault::Absolute(value) => Link::Ends(Ok(Meaning::Absolute(value))),
        NotedDefault::Nothing => Link::Ends(Err(NoMeaning::Undefined)),
    }
}

/// Where a name leads by its first alternate, or else by itself.
fn alternate_link<'a>(alternate: Option<u32>, slot: Link<'a>) -> Link<'a>
    ensures { (names : List (List ℕ)) (name : List ℕ) (pair : Option (List ℕ × List ℕ)) → IsStep names (slot_step name) slot.entry
        → KeepsAlternate names pair alternate → IsStep names (alternate_step name pair) result }
{
    match alternate {
        Some(number) => leads_to(number as usize),
        None => slot,
    }
}

/// To the name of a number, of which it is no slot.
fn leads_to<'a>(number: usize) -> Link<'a>
    ensures { result ≡ Link.Leads number false }
{
    Link::Leads {
        number,
        slot: false,
    }
}

/// Where the name of a number leads by itself: a slot to the name after the import prefix, and any other nowhere.
fn slot_link<'a>(names: &IndexSet<Name<'a>>, number: usize) -> Link<'a>
    requires within { number < length names.now.keys }
    requires rests { HasRests names.now.keys }
    ensures { (name : List ℕ) → Numbers names.now.keys number name → IsStep names.now.keys (slot_step name) result }
{
    let name = name_at(names, number);
    if !name.is_import() {
        return Link::Ends(Err(NoMeaning::Undefined));
    }
    match names.get_index_of(&Name::of(name.rest())) {
        Some(number) => Link::Leads { number, slot: true },
        None => unreachable!(),
    }
}

/// What a place in a section of a module means: nothing, where the section is not chosen.
fn place_meaning<'a>(
    module: u32,
    section: u32,
    value: u32,
    chosen: &[ChosenRow],
) -> Result<Meaning<'a>, NoMeaning>
    ensures { result ≡ place_meaning (rows_of chosen.now) «module» section value }
{
    if !is_chosen(chosen, module, section) {
        return Err(NoMeaning::Undefined);
    }
    Ok(Meaning::Section {
        module,
        section,
        value,
    })
}
