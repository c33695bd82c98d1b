//! The table of names.

ghost use Rattle.std.specs.Prelude.{◌≡◌, ◌<◌, ◌++◌, ◌∷◌, [], length, map, IfOk, OnOk, OnErr};
ghost use Rattle.std.specs.List.{All, IsDistinct};
ghost use Rattle.link_base.specs.Limits as limit;
ghost use Rattle.link_base.specs.NameText.{same_name};
ghost use Rattle.symbol_names.specs.Interning.{NotesModule};
ghost use Rattle.symbol_names.specs.Kept.{noted_view, rows_of};
ghost use Rattle.symbol_names.specs.References.{all_asked};
ghost use Rattle.symbol_table.specs.OpenNames.{is_provided, is_open_name, open_from};
ghost use Rattle.symbol_table.specs.TableParts.{ResolvedView};

use crate::asked::{AskedNames, add_lists, asked_by_words, is_open, is_sought, is_there};
use crate::linker_names::linker_meaning;
use crate::resolved::ResolvedNames;
use crate::settled::settled;
use indexmap::IndexSet;
use link_base::{Memory, Name};
use module_view::Module;
use std::alloc::Global;
use std::marker::Model;
use std::mem;
use symbol_names::{
    Chosen, GivenNames, ModuleNames, NotedAsked, NotedLists, given_names, name_at, note_lists,
    note_rests,
};

/// The names that the command line asks for, the alternates that it gives, and the names of the modules that were added, in
/// order.
#[derive(Drop)]
pub struct SymbolTable<'a> {
    alloc: Global,
    names: IndexSet<Name<'a>>,
    given: GivenNames<'a>,
    modules: Vec<ModuleNames<'a>>,
    asked: AskedNames,
    /// What the last module asks for: the next one's list takes its memory.
    last_asked: Vec<NotedAsked>,
}

impl<'a> Model for SymbolTable<'a> {
    ghost use Rattle.symbol_names.specs.LinkView.{LinkView};
    ghost use Rattle.symbol_table.specs.TableParts.{link_view, KeepsTable};

    ghost Value = { LinkView };

    ghost view = { λ t. link_view t.given t.modules.items };

    ghost invariant = { λ t. KeepsTable t.names.keys t.given t.modules.items t.asked };
}

impl<'a> SymbolTable<'a> {
    /// A table of no modules, with the names that the command line asks for and the alternates that it gives: each by its left
    /// name and its right one.
    pub fn new(
        alloc: Global,
        words: &[Name<'a>],
        alternates: &[(Name<'a>, Name<'a>)],
    ) -> Result<SymbolTable<'a>, Memory>
        ensures { IfOk result (λ table. table ≡ record { words = words.now; alternates = alternates.now; modules = [] }) }
    {
        let mut names = IndexSet::new(alloc);
        let given = given_names(alloc, &mut names, words, alternates)?;
        let asked = asked_by_words(alloc, &mut names, words)?;
        Ok(SymbolTable {
            alloc,
            names,
            given,
            modules: Vec::new(alloc),
            asked,
            last_asked: Vec::new(alloc),
        })
    }

    /// Room for so many more modules, each with a name.
    pub fn reserve(&mut self, count: usize) -> Result<(), Memory>
        ensures { self.new ≡ self.old }
    {
        self.modules.reserve(count)?;
        self.names.reserve(count)?;
        Ok(())
    }

    /// Adds a module after those that were added, and gives its position. Where memory is wanting, the table stays as it
    /// was.
    pub fn add_module(&mut self, module: &Module<'a>) -> Result<u32, Memory>
        requires { length self.old.modules < limit.MODULE_LIMIT }
        ensures position { IfOk result (λ position. position ≡ length self.old.modules) }
        ensures added { OnOk result (self.new ≡ record self.old { modules = self.old.modules ++ «module».now ∷ [] }) }
        ensures unchanged { OnErr result (self.new ≡ self.old) }
    {
        let last = mem::replace(&mut self.last_asked, Vec::new(self.alloc));
        let noted = note_lists(self.alloc, &mut self.names, module, last);
        let count = self.names.len();
        let lists = noted?;
        self.modules.reserve(1)?;
        add_lists(&mut self.asked, count, &lists)?;
        let NotedLists {
            definitions,
            commons,
            weaks,
            alternates,
            records,
            asked,
        } = lists;
        self.last_asked = asked;
        let position = self.modules.len() as u32;
        self.modules.push(ModuleNames {
            origin: module.origin(),
            imported: module.import_again(),
            bytes: module.bytes(),
            definitions,
            commons,
            weaks,
            alternates,
            records,
        })?;
        Ok(position)
    }

    /// Whether a module that was added defines or shares a name, or the linker gives it a meaning.
    pub fn provided(&self, name: Name<'a>) -> bool
        ensures { result ≡ is_provided self.now.modules name.entry }
    {
        match self.names.get_index_of(&name) {
            Some(number) => is_there(&self.asked, number, &name),
            None => linker_meaning(&name).is_some(),
        }
    }

    /// Whether a name is asked for with a search, and is not provided.
    pub fn is_open(&self, name: Name<'a>) -> bool
        ensures { result ≡ is_open_name self.now name.entry }
    {
        match self.names.get_index_of(&name) {
            Some(number) => is_sought(&self.asked, number, &name),
            None => false,
        }
    }

    /// The first name that is open, of those that are asked for from a number on, and its number: the names that the command
    /// line asks for come first, then those of each module.
    pub fn open_from(&self, number: usize) -> Option<(usize, Name<'a>)>
        ensures { result ≡ open_from self.now number }
    {
        for at in number..self.asked.list.len() {
            let asked = self.asked.list[at];
            if is_open(&self.asked, &self.names, asked) {
                return Some((at, name_at(&self.names, asked.name as usize)));
            }
        }
        None
    }

    /// How many names are asked for.
    pub fn asked_count(&self) -> usize
        ensures { result ≡ length (all_asked self.now) }
    {
        self.asked.list.len()
    }

    /// The names by their numbers, and what each module that was added notes of its own by these.
    pub fn numbered(&self) -> (&IndexSet<Name<'a>>, &[ModuleNames<'a>])
        ensures distinct { IsDistinct same_name result.0.now.keys }
        ensures noted { All (NotesModule result.0.now.keys) result.1.now }
        ensures modules { map noted_view result.1.now ≡ self.now.modules }
    {
        (&self.names, &self.modules)
    }

    /// What the names mean where these sections are chosen. Each name's definitions and its chain are followed once.
    pub fn resolved(self, alloc: Global, chosen: Chosen) -> Result<ResolvedNames<'a>, Memory>
        ensures { IfOk result (λ names. names ≡ record { link = self.entry; chosen = rows_of chosen.items }) }
    {
        let SymbolTable {
            mut names,
            given,
            modules,
            ..
        } = self;
        note_rests(&mut names)?;
        let settled = settled(alloc, &names, &given, &modules, &chosen)?;
        Ok(ResolvedNames {
            names,
            given,
            modules,
            chosen,
            links: settled.links,
            clash: settled.clash,
        })
    }
}
