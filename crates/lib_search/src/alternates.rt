//! The alternates of a link: which of them may lead to a member.

ghost use Rattle.std.specs.Prelude.{◌≡◌, ◌≤◌, ◌∷◌, ◌++◌, ◌||◌, [], ℕ, List, false, length, if◌then◌else◌, filter_map, IfSome, IfNone, OnOk, IfOk};
ghost use Rattle.link_base.specs.NameText.{same_name};
ghost use Rattle.directives.specs.Said.{said};
ghost use Rattle.module_view.specs.ModuleDirectives.{module_directives};
ghost use Rattle.symbol_names.specs.Alternates.{alternate_said, all_alternates};
ghost use Rattle.symbol_names.specs.References.{all_asked};
ghost use Rattle.lib_search.specs.AlternateParts.{is_waiting, IsLeast, is_among, noted_under, Wakes, KeepsAlternates};
ghost use Rattle.lib_search.specs.SearchSteps.{Searched as SearchedView, member_by_alternate};

use crate::searched::Searched;
use directives::Directive;
use indexmap::IndexMap;
use link_base::{Memory, Name};
use module_view::Module;
use std::alloc::Global;
use std::collections::BTreeSet;

/// The alternates of a link, each known by its number: those of the command line come first, then those of each module. One
/// that is neither waiting nor asleep leads to no member until a library is added.
#[derive(Drop)]
pub(crate) struct Alternates<'a> {
    alloc: Global,
    pairs: Vec<(Name<'a>, Name<'a>)>,
    /// Their left names are asked for, so they may lead to a member.
    waiting: BTreeSet<usize>,
    /// By left names that are not open.
    asleep: IndexMap<Name<'a>, Vec<usize>>,
}

impl<'a> Alternates<'a> {
    /// These alternates.
    pub(crate) fn new(
        alloc: Global,
        searched: &Searched<'a>,
        pairs: &[(Name<'a>, Name<'a>)],
    ) -> Result<Alternates<'a>, Memory>
        ensures kept { IfOk result (KeepsAlternates searched.now (length (all_asked searched.now.link))) }
        ensures pairs { IfOk result (λ alternates. alternates.pairs.items ≡ pairs.now) }
    {
        let mut alternates = Alternates::none_yet(alloc);
        for (left, right) in pairs {
            alternates.add(searched, left, right)?;
        }
        Ok(alternates)
    }

    /// No alternate.
    fn none_yet(alloc: Global) -> Alternates<'a>
        ensures kept { (searched : SearchedView) → KeepsAlternates searched (length (all_asked searched.link)) result }
        ensures pairs { result.pairs.items ≡ [] }
    {
        Alternates {
            alloc,
            pairs: Vec::new(alloc),
            waiting: BTreeSet::new(alloc),
            asleep: IndexMap::new(alloc),
        }
    }

    /// The same, where a library was added: each may lead to a member again.
    pub(crate) fn begun_again(self, searched: &Searched<'a>) -> Result<Alternates<'a>, Memory>
        ensures kept { IfOk result (KeepsAlternates searched.now (length (all_asked searched.now.link))) }
        ensures pairs { IfOk result (λ alternates. alternates.pairs.items ≡ self.entry.pairs.items) }
    {
        Alternates::new(self.alloc, searched, &self.pairs)
    }

    /// Adds those that the directives of a module say.
    pub(crate) fn add_module(
        &mut self,
        searched: &Searched<'a>,
        module: &Module<'a>,
    ) -> Result<(), Memory>
        requires { KeepsAlternates searched.now (length (all_asked searched.now.link)) self.old }
        ensures kept { OnOk result (KeepsAlternates searched.now (length (all_asked searched.now.link)) self.new) }
        ensures pairs { OnOk result (self.new.pairs.items ≡ self.old.pairs.items ++ filter_map alternate_said (module_directives «module».now.bytes)) }
    {
        for directive in module.directives() {
            self.add_directive(searched, directive)?;
        }
        Ok(())
    }

    /// Adds the one that a directive says, where it says one.
    fn add_directive(
        &mut self,
        searched: &Searched<'a>,
        directive: &Directive<'a>,
    ) -> Result<(), Memory>
        requires { KeepsAlternates searched.now (length (all_asked searched.now.link)) self.old }
        ensures kept { OnOk result (KeepsAlternates searched.now (length (all_asked searched.now.link)) self.new) }
        ensures pairs { OnOk result (self.new.pairs.items ≡ self.old.pairs.items ++ filter_map alternate_said (said directive.now ∷ [])) }
    {
        match directive {
            Directive::AlternateName { left, right } => self.add(searched, left, right),
            Directive::AlignComm { .. }
            | Directive::DefaultLib(_)
            | Directive::Export(_)
            | Directive::FailIfMismatch { .. }
            | Directive::Include(_)
            | Directive::Merge { .. } => Ok(()),
        }
    }

    /// Adds one after the others.
    fn add(
        &mut self,
        searched: &Searched<'a>,
        left: &Name<'a>,
        right: &Name<'a>,
    ) -> Result<(), Memory>
        requires { KeepsAlternates searched.now (length (all_asked searched.now.link)) self.old }
        ensures kept { OnOk result (KeepsAlternates searched.now (length (all_asked searched.now.link)) self.new) }
        ensures pairs { OnOk result (self.new.pairs.items ≡ self.old.pairs.items ++ (left.now, right.now) ∷ []) }
    {
        let number = self.pairs.len();
        self.pairs.push((left.again(), right.again()))?;
        if searched.is_open(left) {
            self.waiting.insert(number)?;
        } else {
            note_under(self.alloc, &mut self.asleep, left.again(), number)?;
        }
        Ok(())
    }

    /// Wakes those whose left names are open among what is asked for from a number on.
    pub(crate) fn wake_from(&mut self, searched: &Searched<'a>, from: usize) -> Result<(), Memory>
        requires within { from ≤ length (all_asked searched.now.link) }
        requires kept { KeepsAlternates searched.now from self.old }
        ensures kept { OnOk result (KeepsAlternates searched.now (length (all_asked searched.now.link)) self.new) }
        ensures pairs { OnOk result (self.new.pairs.items ≡ self.old.pairs.items) }
    {
        if self.asleep.is_empty() {
            return Ok(());
        }
        let count = searched.asked_count();
        let mut seen = from;
        while seen < count {
            let Some((number, name)) = searched.open_from(seen) else {
                return Ok(());
            };
            self.wake(&name)?;
            seen = number + 1;
        }
        Ok(())
    }

    /// Wakes those that are asleep under a name.
    fn wake(&mut self, name: &Name<'a>) -> Result<(), Memory>
        ensures { OnOk result (Wakes name.now self.old self.new) }
    {
        match self.asleep.swap_remove(name) {
            Some(numbers) => insert_all(&mut self.waiting, &numbers),
            None => Ok(()),
        }
    }

    /// The member that the first alternate leads to. Those before it lead to none, and do not wait any more.
    pub(crate) fn first_member(&mut self, searched: &Searched<'a>) -> Option<(usize, u32)>
        requires kept { KeepsAlternates searched.now (length (all_asked searched.now.link)) self.old }
        requires all { self.old.pairs.items ≡ all_alternates searched.now.link }
        ensures place { result ≡ member_by_alternate searched.now }
        ensures kept { KeepsAlternates searched.now (length (all_asked searched.now.link)) self.new }
        ensures pairs { self.new.pairs.items ≡ self.old.pairs.items }
    {
        while let Some(number) = least(&self.waiting) {
            let (left, right) = &self.pairs[number];
            if let Some(place) = searched.alternate_member(left, right) {
                return Some(place);
            }
            self.waiting.remove(&number);
        }
        None
    }
}

/// The least number.
fn least(numbers: &BTreeSet<usize>) -> Option<usize>
    ensures some { IfSome result (IsLeast numbers.now) }
    ensures none { IfNone result ((number : ℕ) → is_waiting numbers.now number ≡ false) }
{
    match numbers.first() {
        Some(number) => Some(*number),
        None => None,
    }
}

/// Inserts all of some numbers.
fn insert_all(numbers: &mut BTreeSet<usize>, more: &[usize]) -> Result<(), Memory>
    ensures { OnOk result ((number : ℕ) → is_waiting numbers.new number ≡ (is_waiting numbers.old number || is_among more.now number)) }
{
    for number in more {
        numbers.insert(*number)?;
    }
    Ok(())
}

/// Notes a number under a name, after those that were noted under it.
fn note_under<'a>(
    alloc: Global,
    noted: &mut IndexMap<Name<'a>, Vec<usize>>,
    name: Name<'a>,
    number: usize,
) -> Result<(), Memory>
    ensures { OnOk result ((other : List ℕ) → noted_under noted.new other
        ≡ (if same_name name.entry other then noted_under noted.old other ++ number ∷ [] else noted_under noted.old other)) }
{
    let mut numbers = match noted.swap_remove(&name) {
        Some(numbers) => numbers,
        None => Vec::new(alloc),
    };
    numbers.push(number)?;
    noted.insert(name, numbers)?;
    Ok(())
}
