//! What the command line gives: the names that it asks for, and alternates.

ghost use Rattle.std.specs.Prelude.{◌≡◌, IfOk};
ghost use Rattle.std.specs.List.{AllZip};
ghost use Rattle.symbol_names.specs.Interning.{NotesAlternate};

use crate::alternates::note_alternates;
use crate::noted::NotedAlternate;
use indexmap::IndexSet;
use link_base::{Memory, Name};
use std::alloc::Global;

/// The names that the command line asks for, the alternates that it gives, and what is noted of each of these.
#[derive(Drop)]
pub struct GivenNames<'a> {
    pub words: Vec<Name<'a>>,
    pub pairs: Vec<(Name<'a>, Name<'a>)>,
    pub noted: Vec<NotedAlternate>,
}

/// The names that the command line asks for, and the alternates that it gives, with the numbers of their names.
pub fn given_names<'a>(
    alloc: Global,
    names: &mut IndexSet<Name<'a>>,
    words: &[Name<'a>],
    pairs: &[(Name<'a>, Name<'a>)],
) -> Result<GivenNames<'a>, Memory>
    ensures words { IfOk result (λ given. given.words.items ≡ words.now) }
    ensures pairs { IfOk result (λ given. given.pairs.items ≡ pairs.now) }
    ensures noted { IfOk result (λ given. AllZip (NotesAlternate names.new.keys) given.pairs.items given.noted.items) }
{
    let noted = note_alternates(alloc, names, pairs)?;
    let pairs = pairs_again(alloc, pairs)?;
    let words = words_again(alloc, words)?;
    Ok(GivenNames {
        words,
        pairs,
        noted,
    })
}

/// The same alternates.
fn pairs_again<'a>(
    alloc: Global,
    pairs: &[(Name<'a>, Name<'a>)],
) -> Result<Vec<(Name<'a>, Name<'a>)>, Memory>
    ensures { IfOk result (λ same. same.items ≡ pairs.now) }
{
    let same = pairs
        .iter()
        .map(|pair| (pair.0.again(), pair.1.again()))
        .collect(alloc)?;
    Ok(same)
}

/// The same names.
fn words_again<'a>(alloc: Global, words: &[Name<'a>]) -> Result<Vec<Name<'a>>, Memory>
    ensures { IfOk result (λ same. same.items ≡ words.now) }
{
    let same = words.iter().map(|word| word.again()).collect(alloc)?;
    Ok(same)
}
