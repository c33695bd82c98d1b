//! What the command line and modules ask for, by the numbers of names.

ghost use Rattle.std.specs.Prelude.{◌≡◌, ◌++◌, ◌∷◌, [], ℕ, List, map, filter_map, IfOk, OnOk};
ghost use Rattle.std.specs.List.{All, AllZip};
ghost use Rattle.directives.specs.Said.{said};
ghost use Rattle.symbol_names.specs.References.{Asked, asked_by_name, asked_by_symbol, name_said, asked_by};
ghost use Rattle.symbol_names.specs.Interning.{KeepsNumbers, AreRecords, IsNamedSo, NotesAsked};

use crate::exports::internal_name;
use crate::interning::{number_again, number_of, number_symbol};
use crate::noted::NotedAsked;
use directives::Directive;
use indexmap::IndexSet;
use link_base::{Memory, Name};
use module_view::{Module, Reference};
use std::alloc::Global;

/// Words, by the numbers of their names.
pub fn note_words<'a>(
    alloc: Global,
    names: &mut IndexSet<Name<'a>>,
    words: &[Name<'a>],
) -> Result<Vec<NotedAsked>, Memory>
    ensures kept { KeepsNumbers names.old.keys names.new.keys }
    ensures noted { IfOk result (λ noted. AllZip (NotesAsked names.new.keys) (map asked_by_name words.now) noted.items) }
{
    let mut noted = Vec::with_capacity(alloc, words.len())?;
    for word in words {
        let name = number_of(names, word)?;
        noted.push(NotedAsked { name, search: true })?;
    }
    Ok(noted)
}

/// What a module asks for, by its symbols, then by its directives, in the memory of another list.
pub(crate) fn note_asked<'a>(
    names: &mut IndexSet<Name<'a>>,
    records: &mut Vec<u32>,
    module: &Module<'a>,
    other: Vec<NotedAsked>,
) -> Result<Vec<NotedAsked>, Memory>
    ensures kept { KeepsNumbers names.old.keys names.new.keys }
    ensures noted { IfOk result (λ noted. AllZip (NotesAsked names.new.keys) (asked_by 0 «module».now.bytes) noted.items) }
    ensures records { OnOk result (AreRecords names.old.keys «module».now.bytes records.old.items
        → AreRecords names.new.keys «module».now.bytes records.new.items) }
{
    let references = module.references();
    let mut noted = other;
    noted.clear();
    noted.reserve(references.len())?;
    note_references(names, records, &mut noted, references)?;
    note_names(names, &mut noted, module.directives())?;
    Ok(noted)
}

/// References, by the numbers of their names, after what was noted.
fn note_references<'a>(
    names: &mut IndexSet<Name<'a>>,
    records: &mut Vec<u32>,
    noted: &mut Vec<NotedAsked>,
    references: &[Reference<'a>],
) -> Result<(), Memory>
    ensures kept { KeepsNumbers names.old.keys names.new.keys }
    ensures noted { OnOk result ((earlier : List Asked) → AllZip (NotesAsked names.old.keys) earlier noted.old.items
        → AllZip (NotesAsked names.new.keys) (earlier ++ map asked_by_symbol references.now) noted.new.items) }
    ensures records { OnOk result ((bytes : List ℕ) → All (λ reference. IsNamedSo bytes reference.symbol reference.name) references.now
        → AreRecords names.old.keys bytes records.old.items → AreRecords names.new.keys bytes records.new.items) }
{
    for reference in references {
        let name = number_symbol(names, records, reference.symbol, &reference.name)?;
        noted.push(NotedAsked {
            name,
            search: reference.search,
        })?;
    }
    Ok(())
}

/// The names that directives ask for, by their numbers, after what was noted.
fn note_names<'a>(
    names: &mut IndexSet<Name<'a>>,
    noted: &mut Vec<NotedAsked>,
    directives: &[Directive<'a>],
) -> Result<(), Memory>
    ensures kept { KeepsNumbers names.old.keys names.new.keys }
    ensures noted { OnOk result ((earlier : List Asked) → AllZip (NotesAsked names.old.keys) earlier noted.old.items
        → AllZip (NotesAsked names.new.keys) (earlier ++ map asked_by_name (filter_map name_said (map said directives.now))) noted.new.items) }
{
    for directive in directives {
        note_name(names, noted, directive)?;
    }
    Ok(())
}

/// The name that a directive asks for, where it asks for one.
fn note_name<'a>(
    names: &mut IndexSet<Name<'a>>,
    noted: &mut Vec<NotedAsked>,
    directive: &Directive<'a>,
) -> Result<(), Memory>
    ensures kept { KeepsNumbers names.old.keys names.new.keys }
    ensures noted { OnOk result ((earlier : List Asked) → AllZip (NotesAsked names.old.keys) earlier noted.old.items
        → AllZip (NotesAsked names.new.keys) (earlier ++ map asked_by_name (filter_map name_said (said directive.now ∷ []))) noted.new.items) }
{
    match asked_name(directive) {
        Some(name) => note_one(names, noted, &name),
        None => Ok(()),
    }
}

/// A name that is asked for, by its number, after what was noted.
fn note_one<'a>(
    names: &mut IndexSet<Name<'a>>,
    noted: &mut Vec<NotedAsked>,
    name: &Name<'a>,
) -> Result<(), Memory>
    ensures kept { KeepsNumbers names.old.keys names.new.keys }
    ensures noted { OnOk result ((earlier : List Asked) → AllZip (NotesAsked names.old.keys) earlier noted.old.items
        → AllZip (NotesAsked names.new.keys) (earlier ++ asked_by_name name.now ∷ []) noted.new.items) }
{
    let name = number_again(names, last_name(noted), name)?;
    noted.push(NotedAsked { name, search: true })?;
    Ok(())
}

/// The name that was noted last, by its number.
fn last_name(noted: &[NotedAsked]) -> Option<u32> {
    match noted.last() {
        Some(last) => Some(last.name),
        None => None,
    }
}

/// The name that a directive asks for: one that it includes, or that stands behind an export.
pub fn asked_name<'a>(directive: &Directive<'a>) -> Option<Name<'a>>
    ensures { result ≡ name_said (said directive.now) }
{
    match directive {
        Directive::Include(name) => Some(name.again()),
        Directive::Export(export) => internal_name(export),
        Directive::AlignComm { .. }
        | Directive::AlternateName { .. }
        | Directive::DefaultLib(_)
        | Directive::FailIfMismatch { .. }
        | Directive::Merge { .. } => None,
    }
}
