//! The names that the command line asks for.

ghost use Rattle.std.specs.Prelude.{◌≡◌, ◌++◌, [], IfOk, OnOk};
ghost use Rattle.std.specs.List.{cons_option};
ghost use Rattle.link_words.specs.Outcome.{options_said};
ghost use Rattle.symbol_names.specs.Exports.{internal_name, internal_names};
ghost use Rattle.lib_search.specs.LinkOf.{asked_names, asked_words};

use directives::Export;
use link_base::{Memory, Name};
use link_words::Options;
use std::alloc::Global;
use symbol_names::internal_name;

/// The names that the command line asks for: the entry, where there is one, and the others.
pub(crate) fn asked_words<'a>(alloc: Global, options: &Options<'a>) -> Result<Vec<Name<'a>>, Memory>
    ensures { IfOk result (λ words. words.items ≡ asked_words (options_said options.now)) }
{
    let mut words = entry_word(alloc, &options.entry)?;
    push_names(&mut words, &options.includes)?;
    push_internal(&mut words, &options.exports)?;
    Ok(words)
}

/// The names that the command line asks for besides the entry: those that it includes, and those that stand behind its exports.
pub fn asked_names<'a>(alloc: Global, options: &Options<'a>) -> Result<Vec<Name<'a>>, Memory>
    ensures { IfOk result (λ names. names.items ≡ asked_names (options_said options.now)) }
{
    let mut names = Vec::new(alloc);
    push_names(&mut names, &options.includes)?;
    push_internal(&mut names, &options.exports)?;
    Ok(names)
}

/// The name of the entry, where there is one.
fn entry_word<'a>(alloc: Global, entry: &Option<Name<'a>>) -> Result<Vec<Name<'a>>, Memory>
    ensures { IfOk result (λ words. words.items ≡ cons_option entry.now []) }
{
    let mut words = Vec::new(alloc);
    match entry {
        Some(name) => {
            words.push(name.again())?;
            Ok(words)
        }
        None => Ok(words),
    }
}

/// Appends these names.
fn push_names<'a>(words: &mut Vec<Name<'a>>, names: &[Name<'a>]) -> Result<(), Memory>
    ensures { OnOk result (words.new.items ≡ words.old.items ++ names.now) }
{
    words.reserve(names.len())?;
    for name in names {
        words.push(name.again())?;
    }
    Ok(())
}

/// Appends the names that stand behind exports. A forwarder has none.
fn push_internal<'a>(words: &mut Vec<Name<'a>>, exports: &[Export<'a>]) -> Result<(), Memory>
    ensures { OnOk result (words.new.items ≡ words.old.items ++ internal_names exports.now) }
{
    for export in exports {
        push_one(words, export)?;
    }
    Ok(())
}

/// Appends the name that stands behind an export, where there is one.
fn push_one<'a>(words: &mut Vec<Name<'a>>, export: &Export<'a>) -> Result<(), Memory>
    ensures { OnOk result (words.new.items ≡ words.old.items ++ cons_option (internal_name export.now) []) }
{
    let Some(name) = internal_name(export) else {
        return Ok(());
    };
    words.push(name)?;
    Ok(())
}
