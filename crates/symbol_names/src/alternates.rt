//! Alternates: names that mean what other ones mean, where nothing else says what they mean.

ghost use Rattle.std.specs.Prelude.{◌≡◌, map, filter_map, IfOk};
ghost use Rattle.std.specs.List.{AllZip};
ghost use Rattle.directives.specs.Said.{said};
ghost use Rattle.symbol_names.specs.Alternates.{alternate_said};
ghost use Rattle.symbol_names.specs.Interning.{KeepsNumbers, NotesAlternate};

use crate::interning::number_again;
use crate::noted::NotedAlternate;
use directives::Directive;
use indexmap::IndexSet;
use link_base::{Memory, Name};
use std::alloc::Global;

/// The alternates among directives, by the numbers of their names.
pub(crate) fn note_directives<'a>(
    alloc: Global,
    names: &mut IndexSet<Name<'a>>,
    directives: &[Directive<'a>],
) -> Result<Vec<NotedAlternate>, Memory>
    ensures kept { KeepsNumbers names.old.keys names.new.keys }
    ensures noted { IfOk result (λ noted.
        AllZip (NotesAlternate names.new.keys) (filter_map alternate_said (map said directives.now)) noted.items) }
{
    let pairs = alternates_among(alloc, directives)?;
    note_alternates(alloc, names, &pairs)
}

/// The alternates among directives, each by its left name and its right one.
fn alternates_among<'a>(
    alloc: Global,
    directives: &[Directive<'a>],
) -> Result<Vec<(Name<'a>, Name<'a>)>, Memory>
    ensures { IfOk result (λ pairs. pairs.items ≡ filter_map (λ directive. alternate_said (said directive)) directives.now) }
{
    let pairs = directives
        .iter()
        .filter_map(|directive| alternate_said(directive))
        .collect(alloc)?;
    Ok(pairs)
}

/// The left name and the right one of a directive, where it is an alternate.
fn alternate_said<'a>(directive: &Directive<'a>) -> Option<(Name<'a>, Name<'a>)>
    ensures { result ≡ alternate_said (said directive.now) }
{
    match directive {
        Directive::AlternateName { left, right } => Some((left.again(), right.again())),
        Directive::AlignComm { .. }
        | Directive::DefaultLib(_)
        | Directive::Export(_)
        | Directive::FailIfMismatch { .. }
        | Directive::Include(_)
        | Directive::Merge { .. } => None,
    }
}

/// Alternates, by the numbers of their names.
pub(crate) fn note_alternates<'a>(
    alloc: Global,
    names: &mut IndexSet<Name<'a>>,
    pairs: &[(Name<'a>, Name<'a>)],
) -> Result<Vec<NotedAlternate>, Memory>
    ensures kept { KeepsNumbers names.old.keys names.new.keys }
    ensures noted { IfOk result (λ noted. AllZip (NotesAlternate names.new.keys) pairs.now noted.items) }
{
    let mut noted = Vec::with_capacity(alloc, pairs.len())?;
    let mut last = None;
    for pair in pairs {
        let one = note_pair(names, last, pair)?;
        noted.push(one)?;
        last = Some(one);
    }
    Ok(noted)
}

/// An alternate, by the numbers of its names, which may be those of the one before.
fn note_pair<'a>(
    names: &mut IndexSet<Name<'a>>,
    last: Option<NotedAlternate>,
    pair: &(Name<'a>, Name<'a>),
) -> Result<NotedAlternate, Memory>
    ensures kept { KeepsNumbers names.old.keys names.new.keys }
    ensures noted { IfOk result (λ noted. NotesAlternate names.new.keys pair.now noted) }
{
    let left = number_again(names, last.map(|noted| noted.left), &pair.0)?;
    let right = number_again(names, last.map(|noted| noted.right), &pair.1)?;
    Ok(NotedAlternate { left, right })
}
