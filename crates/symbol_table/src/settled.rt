//! What names mean once sections are chosen, each by its number.

ghost use Rattle.std.specs.Prelude.{◌≡◌, length, map, IfOk};
ghost use Rattle.std.specs.List.{All};
ghost use Rattle.symbol_names.specs.References.{all_asked};
ghost use Rattle.symbol_names.specs.Kept.{rows_of, noted_view};
ghost use Rattle.symbol_names.specs.Lists.{live_definitions};
ghost use Rattle.symbol_names.specs.Rests.{HasRests};
ghost use Rattle.symbol_table.specs.Links.{AreSteps};
ghost use Rattle.symbol_table.specs.Passes.{AreFirst};
ghost use Rattle.symbol_table.specs.TableParts.{link_view, KeepsLink, IsNumbered, KeepsMeanings};

use crate::chains::settle;
use crate::first_alternate::first_alternates;
use crate::first_weak::first_weaks;
use crate::greatest::greatest_commons;
use crate::link::{Link, links};
use crate::lives::{FirstLive, live_definitions};
use crate::meaning::Clash;
use indexmap::IndexSet;
use link_base::{Memory, Name};
use std::alloc::Global;
use symbol_names::{ChosenRow, GivenNames, ModuleNames};

/// What each name means, and the first clash of two definitions.
#[derive(Drop)]
pub(crate) struct SettledLinks<'a> {
    pub(crate) links: Vec<Link<'a>>,
    pub(crate) clash: Option<Clash<'a>>,
}

/// Each name's definitions and its chain are followed once.
pub(crate) fn settled<'a>(
    alloc: Global,
    names: &IndexSet<Name<'a>>,
    given: &GivenNames<'a>,
    modules: &[ModuleNames<'a>],
    chosen: &[ChosenRow],
) -> Result<SettledLinks<'a>, Memory>
    requires rests { HasRests names.now.keys }
    requires kept { KeepsLink names.now.keys given.now modules.now }
    requires asked { All (IsNumbered names.now.keys) (all_asked (link_view given.now modules.now)) }
    ensures { IfOk result (λ settled. KeepsMeanings names.now.keys given.now modules.now (rows_of chosen.now) settled.links.items settled.clash) }
{
    let lives = live_definitions(alloc, names, modules, chosen)?;
    let mut links = links_of(alloc, names, given, modules, chosen, &lives.firsts)?;
    settle(alloc, names, &mut links)?;
    Ok(SettledLinks {
        links,
        clash: lives.clash,
    })
}

/// Where each name leads, by the first live definition of each.
fn links_of<'a>(
    alloc: Global,
    names: &IndexSet<Name<'a>>,
    given: &GivenNames<'a>,
    modules: &[ModuleNames<'a>],
    chosen: &[ChosenRow],
    firsts: &[Option<FirstLive>],
) -> Result<Vec<Link<'a>>, Memory>
    requires rests { HasRests names.now.keys }
    requires kept { KeepsLink names.now.keys given.now modules.now }
    requires long { length firsts.now ≡ length names.now.keys }
    requires first { AreFirst names.now.keys (live_definitions (map noted_view modules.now) (rows_of chosen.now)) firsts.now }
    ensures { IfOk result (λ links. AreSteps (link_view given.now modules.now) (rows_of chosen.now) names.now.keys links.items) }
{
    let commons = greatest_commons(alloc, names, modules)?;
    let weaks = first_weaks(alloc, names, modules)?;
    let alternates = first_alternates(alloc, names, &given.noted, modules)?;
    links(alloc, names, firsts, &commons, &weaks, &alternates, chosen)
}
