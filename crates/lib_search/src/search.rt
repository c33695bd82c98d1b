//! The search of libraries: which member joins next, and how it joins.

ghost use Rattle.std.specs.Prelude.{◌≡◌, ◌≤◌, ◌<◌, ◌∷◌, [], None, length, IfOk, OnOk, IfErr, IfSome};
ghost use Rattle.link_base.specs.Limits.{MODULE_LIMIT as most_modules};
ghost use Rattle.link_base.specs.Refusals.{RefusesFor};
ghost use Rattle.link_words.specs.Outcome.{options_said};
ghost use Rattle.symbol_names.specs.Alternates.{all_alternates};
ghost use Rattle.symbol_names.specs.References.{all_asked};
ghost use Rattle.lib_search.specs.AlternateParts.{KeepsAlternates, KeepsSearch};
ghost use Rattle.lib_search.specs.LinkOf.{link_of};
ghost use Rattle.lib_search.specs.SearchSteps.{member_by_reference, member_by_alternate, next_member, join_fault, member_at, with_member, with_library};
ghost use Rattle.lib_search.specs.SearchParts.{IsFresh};

use crate::alternates::Alternates;
use crate::asked::asked_words;
use crate::library::OpenLibrary;
use crate::open::push_module;
use crate::searched::Searched;
use link_base::{Memory, Refusal};
use link_words::Options;
use module_view::Module;
use std::alloc::Global;
use symbol_table::SymbolTable;

/// What has joined, where is searched, and what is known of who may join next.
#[derive(Drop)]
pub(crate) struct Search<'a> {
    pub(crate) modules: Vec<Module<'a>>,
    pub(crate) searched: Searched<'a>,
    pub(crate) alternates: Alternates<'a>,
    /// No member can join for the references below this number, until a library is added.
    pub(crate) passed: usize,
}

impl<'a> Search<'a> {
    /// The search begins with the modules and the libraries among the inputs, where one of these is a resource file or not.
    pub(crate) fn new(
        alloc: Global,
        options: &Options<'a>,
        modules: Vec<Module<'a>>,
        libraries: Vec<OpenLibrary<'a>>,
        merges: bool,
    ) -> Result<Search<'a>, Memory>
        requires { length modules.items ≤ most_modules }
        ensures kept { IfOk result KeepsSearch }
        ensures searched { IfOk result (λ search. search.searched ≡ record {
          link = link_of (options_said options.now) modules.entry.items;
          libraries = libraries.entry.items;
          merges = merges;
          joined = [];
        }) }
    {
        let table = table_of(alloc, options, &modules)?;
        let searched = Searched::new(alloc, table, libraries, merges)?;
        let alternates = alternates_of(alloc, &searched, options, &modules)?;
        Ok(Search {
            modules,
            searched,
            alternates,
            passed: 0,
        })
    }

    /// The member that joins next: that of the first name that is asked for, is open, and is listed, or else that of the first
    /// alternate that stands for an open name.
    pub(crate) fn next_member(&mut self) -> Option<(usize, u32)>
        requires { KeepsSearch self.old }
        ensures place { result ≡ next_member self.old.searched }
        ensures fresh { IfSome result (IsFresh self.old.searched) }
        ensures same { self.new.searched ≡ self.old.searched }
        ensures kept { KeepsSearch self.new }
    {
        match self.member_by_reference() {
            Some(place) => Some(place),
            None => self.member_by_alternate(),
        }
    }

    /// That of the first name that is asked for, is open, and is listed. The names that lead to none are passed over from then
    /// on.
    fn member_by_reference(&mut self) -> Option<(usize, u32)>
        requires { KeepsSearch self.old }
        ensures place { result ≡ member_by_reference self.old.searched }
        ensures same { self.new.searched ≡ self.old.searched }
        ensures kept { KeepsSearch self.new }
    {
        let (place, passed) = self.searched.member_from(self.passed);
        self.passed = passed;
        place
    }

    /// That of the first alternate that stands for an open name, and whose other name is listed: those of the command line come
    /// before those of the modules.
    fn member_by_alternate(&mut self) -> Option<(usize, u32)>
        requires { KeepsSearch self.old }
        ensures place { result ≡ member_by_alternate self.old.searched }
        ensures same { self.new.searched ≡ self.old.searched }
        ensures kept { KeepsSearch self.new }
    {
        self.alternates.first_member(&self.searched)
    }

    /// Opens the member at a place as the next module. One that does not open is refused.
    pub(crate) fn open_member(
        &self,
        alloc: Global,
        place: (usize, u32),
    ) -> Result<Module<'a>, Refusal<'a>>
        requires kept { KeepsSearch self.now }
        requires within { place.0 < length self.now.searched.libraries }
        ensures opened { IfOk result (λ opened. opened ≡ member_at self.now.searched place) }
        ensures accepted { OnOk result (join_fault self.now.searched place ≡ None) }
        ensures few { OnOk result (length self.now.searched.link.modules < most_modules) }
        ensures refused { IfErr result (RefusesFor (join_fault self.now.searched place)) }
    {
        self.searched.open_member(alloc, place, &self.modules)
    }

    /// The member at a place joins as this module. It may ask for the left names of alternates, and say some.
    pub(crate) fn add_member(
        &mut self,
        place: (usize, u32),
        module: Module<'a>,
    ) -> Result<(), Memory>
        requires kept { KeepsSearch self.old }
        requires few { length self.old.searched.link.modules < most_modules }
        requires fresh { IsFresh self.old.searched place }
        requires member { «module» ≡ member_at self.old.searched place }
        ensures joined { OnOk result (self.new.searched ≡ with_member self.old.searched place) }
        ensures kept { OnOk result (KeepsSearch self.new) }
    {
        let asked = self.searched.asked_count();
        self.searched.add_member(place, &module)?;
        self.alternates.wake_from(&self.searched, asked)?;
        self.alternates.add_module(&self.searched, &module)?;
        push_module(&mut self.modules, module)?;
        Ok(())
    }

    /// A library is searched after those before it. No name is passed over any more, and each alternate may lead to a member.
    pub(crate) fn with_library(self, library: OpenLibrary<'a>) -> Result<Search<'a>, Memory>
        requires { KeepsSearch self }
        ensures added { IfOk result (λ search. search.searched ≡ with_library self.entry.searched library.entry) }
        ensures kept { IfOk result KeepsSearch }
    {
        let Search {
            modules,
            searched,
            alternates,
            ..
        } = self;
        let searched = searched.with_library(library)?;
        let alternates = alternates.begun_again(&searched)?;
        let passed = 0;
        Ok(Search {
            modules,
            searched,
            alternates,
            passed,
        })
    }

    /// The modules that joined, and their names.
    pub(crate) fn finish(self) -> (Vec<Module<'a>>, SymbolTable<'a>)
        requires { KeepsSearch self }
        ensures modules { result.0.items ≡ self.entry.searched.link.modules }
        ensures names { result.1 ≡ self.entry.searched.link }
    {
        (self.modules, self.searched.into_table())
    }
}

/// The alternates of the options and of the modules.
fn alternates_of<'a>(
    alloc: Global,
    searched: &Searched<'a>,
    options: &Options<'a>,
    modules: &[Module<'a>],
) -> Result<Alternates<'a>, Memory>
    ensures kept { IfOk result (KeepsAlternates searched.now (length (all_asked searched.now.link))) }
    ensures pairs { IfOk result (λ alternates. alternates.pairs.items ≡ all_alternates (link_of (options_said options.now) modules.now)) }
{
    let mut alternates = Alternates::new(alloc, searched, &options.alternates)?;
    for module in modules {
        alternates.add_module(searched, module)?;
    }
    Ok(alternates)
}

/// The table of what the options ask for and the modules.
fn table_of<'a>(
    alloc: Global,
    options: &Options<'a>,
    modules: &[Module<'a>],
) -> Result<SymbolTable<'a>, Memory>
    requires { length modules.now ≤ most_modules }
    ensures { IfOk result (λ table. table ≡ link_of (options_said options.now) modules.now) }
{
    let words = asked_words(alloc, options)?;
    let mut table = SymbolTable::new(alloc, &words, &options.alternates)?;
    table.reserve(modules.len())?;
    for module in modules {
        table.add_module(module)?;
    }
    Ok(table)
}
