//! What has joined, and where is searched.

ghost use Rattle.std.specs.Prelude.{◌≡◌, ◌<◌, [], None, length, IfOk, OnOk, IfErr};
ghost use Rattle.link_base.specs.Limits.{MODULE_LIMIT as most_modules};
ghost use Rattle.link_base.specs.Refusals.{RefusesFor};
ghost use Rattle.symbol_names.specs.References.{all_asked};
ghost use Rattle.symbol_table.specs.OpenNames.{is_open_name, open_from};
ghost use Rattle.lib_search.specs.SearchSteps.{listed_member, member_by_reference, alternate_member, join_fault, member_at, with_member, with_library};
ghost use Rattle.lib_search.specs.SearchParts.{IsPassed, IsFresh};

use crate::library::{Libraries, OpenLibrary};
use indexmap::IndexSet;
use link_base::{Memory, Name, Refusal};
use module_view::Module;
use std::alloc::Global;
use std::marker::Model;
use symbol_table::SymbolTable;

/// The names of what has joined, and the libraries that are searched. A member is known by the place of its library among these
/// and by the offset of its header.
#[derive(Drop)]
pub(crate) struct Searched<'a> {
    table: SymbolTable<'a>,
    libraries: Libraries<'a>,
    /// A resource file was opened.
    merges: bool,
    joined: IndexSet<(usize, u32)>,
}

impl<'a> Model for Searched<'a> {
    ghost use Rattle.lib_search.specs.SearchSteps.{Searched};

    ghost Value = { Searched };

    ghost view = { λ s. record { link = s.table; libraries = s.libraries; merges = s.merges; joined = s.joined.keys } };
}

impl<'a> Searched<'a> {
    /// No member has joined.
    pub(crate) fn new(
        alloc: Global,
        table: SymbolTable<'a>,
        libraries: Vec<OpenLibrary<'a>>,
        merges: bool,
    ) -> Result<Searched<'a>, Memory>
        ensures { IfOk result (λ searched. searched ≡ record { link = table.entry; libraries = libraries.entry.items; merges = merges; joined = [] }) }
    {
        Ok(Searched {
            table,
            libraries: Libraries::of(alloc, libraries)?,
            merges,
            joined: IndexSet::new(alloc),
        })
    }

    /// How many names are asked for.
    pub(crate) fn asked_count(&self) -> usize
        ensures { result ≡ length (all_asked self.now.link) }
    {
        self.table.asked_count()
    }

    /// Whether a name is asked for with a search, and is not provided.
    pub(crate) fn is_open(&self, name: &Name<'a>) -> bool
        ensures { result ≡ is_open_name self.now.link name.now }
    {
        self.table.is_open(name.again())
    }

    /// The first name that is open, of those that are asked for from a number on, and its number.
    pub(crate) fn open_from(&self, number: usize) -> Option<(usize, Name<'a>)>
        ensures { result ≡ open_from self.now.link number }
    {
        self.table.open_from(number)
    }

    /// The member of the first name that is asked for, is open, and is listed, where none below a number is; and the number
    /// that is passed over then.
    pub(crate) fn member_from(&self, from: usize) -> (Option<(usize, u32)>, usize)
        requires { IsPassed self.now from }
        ensures place { result.0 ≡ member_by_reference self.now }
        ensures passed { IsPassed self.now result.1 }
    {
        let count = self.table.asked_count();
        let mut passed = from;
        while let Some((number, name)) = self.table.open_from(passed) {
            if let Some(place) = self.listed_member(&name) {
                return (Some(place), number);
            }
            passed = number + 1;
        }
        (None, count)
    }

    /// The member that is listed for the right name of an alternate, where it stands for an open name and nothing provides the
    /// right one.
    pub(crate) fn alternate_member(&self, left: &Name<'a>, right: &Name<'a>) -> Option<(usize, u32)>
        ensures { result ≡ alternate_member self.now (left.now, right.now) }
    {
        if !self.table.is_open(left.again()) || self.table.provided(right.again()) {
            return None;
        }
        self.listed_member(right)
    }

    /// The member that the first library that lists a name lists for it, where it has not joined.
    fn listed_member(&self, name: &Name<'a>) -> Option<(usize, u32)>
        ensures { result ≡ listed_member self.now name.now }
    {
        let place = self.libraries.first_listing(name)?;
        if self.joined.contains(&place) {
            return None;
        }
        Some(place)
    }

    /// Opens the member at a place as the module at a position. One that does not open is refused.
    pub(crate) fn open_member(
        &self,
        alloc: Global,
        place: (usize, u32),
        modules: &[Module<'a>],
    ) -> Result<Module<'a>, Refusal<'a>>
        requires within { place.0 < length self.now.libraries }
        requires joined { modules.now ≡ self.now.link.modules }
        ensures opened { IfOk result (λ opened. opened ≡ member_at self.now place) }
        ensures accepted { OnOk result (join_fault self.now place ≡ None) }
        ensures few { OnOk result (length self.now.link.modules < most_modules) }
        ensures refused { IfErr result (RefusesFor (join_fault self.now place)) }
    {
        self.libraries
            .open_member(alloc, place, self.merges, modules)
    }

    /// The member at a place joins as this module.
    pub(crate) fn add_member(
        &mut self,
        place: (usize, u32),
        module: &Module<'a>,
    ) -> Result<(), Memory>
        requires few { length self.old.link.modules < most_modules }
        requires fresh { IsFresh self.old place }
        requires member { «module».now ≡ member_at self.old place }
        ensures { OnOk result (self.new ≡ with_member self.old place) }
    {
        self.joined.insert(place)?;
        self.table.add_module(module)?;
        Ok(())
    }

    /// A library is searched after those before it.
    pub(crate) fn with_library(self, library: OpenLibrary<'a>) -> Result<Searched<'a>, Memory>
        ensures { IfOk result (λ searched. searched ≡ with_library self.entry library.entry) }
    {
        let Searched {
            table,
            libraries,
            merges,
            joined,
        } = self;
        Ok(Searched {
            table,
            libraries: libraries.with(library)?,
            merges,
            joined,
        })
    }

    /// The names of what has joined.
    pub(crate) fn into_table(self) -> SymbolTable<'a>
        ensures { result ≡ self.entry.link }
    {
        self.table
    }
}
