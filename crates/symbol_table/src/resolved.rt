//! What names mean.

ghost use Rattle.std.specs.Prelude.{◌≡◌, true, IfSome};
ghost use Rattle.std.specs.Option.{option_copied};
ghost use Rattle.std.specs.Result.{result_ok};
ghost use Rattle.std.specs.List.{All};
ghost use Rattle.coff_records.specs.ObjectFile.{symbol_at, name_in};
ghost use Rattle.module_view.specs.Module.{module_at};
ghost use Rattle.module_view.specs.Opening.{IsOpened};
ghost use Rattle.symbol_names.specs.Lists.{is_chosen_in};
ghost use Rattle.symbol_table.specs.Clash.{clash_of};
ghost use Rattle.symbol_table.specs.Links.{end_of};
ghost use Rattle.symbol_table.specs.Meant.{is_standing, AllStand};
ghost use Rattle.symbol_table.specs.Resolution.{meaning_of};
ghost use Rattle.symbol_table.specs.SymbolMeaning.{MeansSymbol};

use crate::chains::{end_of, slot_of};
use crate::link::Link;
use crate::linker_names::linker_meaning;
use crate::meaning::{Clash, Meaning, NoMeaning};
use coff_object::SymbolRecord;
use indexmap::IndexSet;
use link_base::Name;
use std::marker::Model;
use symbol_names::{Chosen, GivenNames, ModuleNames, is_chosen, noted_number};

/// What names mean by the alternates of the command line and by modules, some of whose sections are chosen.
#[derive(Drop)]
pub struct ResolvedNames<'a> {
    pub(crate) names: IndexSet<Name<'a>>,
    pub(crate) given: GivenNames<'a>,
    pub(crate) modules: Vec<ModuleNames<'a>>,
    pub(crate) chosen: Chosen,
    /// What each name means, by its number: none leads to another.
    pub(crate) links: Vec<Link<'a>>,
    pub(crate) clash: Option<Clash<'a>>,
}

impl<'a> Model for ResolvedNames<'a> {
    ghost use Rattle.symbol_names.specs.Kept.{rows_of};
    ghost use Rattle.symbol_table.specs.TableParts.{link_view, ResolvedView, KeepsMeanings};

    ghost Value = { ResolvedView };

    ghost view = { λ t. record { link = link_view t.given t.modules.items; chosen = rows_of t.chosen.items } };

    ghost invariant = { λ t. KeepsMeanings t.names.keys t.given t.modules.items (rows_of t.chosen.items) t.links.items t.clash };
}

impl<'a> ResolvedNames<'a> {
    /// Whether a section is chosen, by the position of its module and its number.
    pub fn is_chosen(&self, module: u32, section: u32) -> bool
        ensures { result ≡ is_chosen_in self.now.chosen «module» section }
    {
        is_chosen(&self.chosen, module, section)
    }

    /// The first live definition whose name has an earlier one, with the modules of both, unless they are one number.
    pub fn clash(&self) -> Option<Clash<'a>>
        ensures clash { result ≡ clash_of self.now.link.modules self.now.chosen }
        ensures opened { All IsOpened self.now.link.modules }
    {
        match &self.clash {
            Some(clash) => Some(Clash {
                name: clash.name.again(),
                first: clash.first,
                second: clash.second,
            }),
            None => None,
        }
    }

    /// Whether each name that is asked for, and each that a symbol defines, means something that stands already: it is no slot
    /// that has to be made. Where the answer is no, some name of the table does not, which nothing need ask for.
    pub fn all_stand(&self) -> bool
        ensures { result ≡ true → AllStand self.now.link self.now.chosen }
    {
        for link in &self.links {
            if !is_standing(link) {
                return false;
            }
        }
        true
    }

    /// What a name means: its first live definition, its greatest common, what the linker means by it, what its first weak
    /// external does by default, or what the name does that its first alternate stands for. A name that begins with the import
    /// prefix and has none of these is that of a slot that points to what the name after the prefix means.
    pub fn resolve(&self, name: Name<'a>) -> Result<Meaning<'a>, NoMeaning>
        ensures meaning { result ≡ meaning_of self.now.link self.now.chosen name.entry }
        ensures opened { All IsOpened self.now.link.modules }
    {
        if let Some(number) = self.names.get_index_of(&name) {
            return end_of(&self.links[number]);
        }
        if let Some(meaning) = linker_meaning(&name) {
            return Ok(meaning);
        }
        if !name.is_import() {
            return Err(NoMeaning::Undefined);
        }
        let rest = Name::of(name.rest());
        slot_of(rest.again(), self.resolve(rest))
    }

    /// What the name of the symbol at a record means, by the position of its module, where its number is noted: nothing within,
    /// where it means nothing. No name is read.
    pub fn noted_meaning(&self, module: u32, index: u32) -> Option<Option<&Meaning<'a>>>
        ensures { IfSome result (λ meant. MeansSymbol self.now (module_at self.now.link.modules «module»).bytes index meant) }
    {
        let number = noted_number(&self.modules, module, index)?;
        Some(meaning_in(&self.links[number as usize]))
    }

    /// What the name of a symbol means, by the position of its module and its record.
    pub fn resolve_symbol(
        &self,
        module: u32,
        index: u32,
        symbol: &SymbolRecord<'a>,
    ) -> Result<Meaning<'a>, NoMeaning>
        requires { symbol.now ≡ symbol_at (module_at self.now.link.modules «module»).bytes index }
        ensures meaning { result ≡ meaning_of self.now.link self.now.chosen (name_in symbol.now) }
        ensures opened { All IsOpened self.now.link.modules }
    {
        match noted_number(&self.modules, module, index) {
            Some(number) => end_of(&self.links[number as usize]),
            None => self.resolve(symbol.name()),
        }
    }
}

/// The meaning that a link says, where it says one.
fn meaning_in<'l, 'a>(link: &'l Link<'a>) -> Option<&'l Meaning<'a>>
    ensures { option_copied result ≡ result_ok (end_of link.now) }
{
    match link {
        Link::Ends(Ok(meaning)) => Some(meaning),
        Link::Ends(Err(_)) | Link::Leads { .. } => None,
    }
}

/// Whether a link says a meaning, which is no slot that has to be made.
fn is_standing(link: &Link<'_>) -> bool
    ensures { result ≡ is_standing (end_of link.now) }
{
    match link {
        Link::Ends(Ok(meaning)) => !matches!(meaning, Meaning::LocalSlot(_)),
        Link::Ends(Err(_)) | Link::Leads { .. } => false,
    }
}
