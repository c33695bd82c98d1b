//! Merges of sections.

ghost use Rattle.std.specs.Prelude.{◌≡◌, ◌++◌, ◌∷◌, [], IfOk, OnOk, filter_map, map};
ghost use Rattle.directives.specs.Said.{said};
ghost use Rattle.link_directives.specs.LinkDirectives.{merge_said, link_merges};

use directives::Directive;
use link_base::{Memory, Name};
use module_view::Module;
use std::alloc::Global;

/// The merges that are given, and after them those of the directives of all modules.
pub fn link_merges<'a>(
    alloc: Global,
    given: &[(Name<'a>, Name<'a>)],
    modules: &[Module<'a>],
) -> Result<Vec<(Name<'a>, Name<'a>)>, Memory>
    ensures { IfOk result (λ merges. merges.items ≡ link_merges given.now modules.now) }
{
    let mut merges = given_again(alloc, given)?;
    for module in modules {
        append_merges(&mut merges, module.directives())?;
    }
    Ok(merges)
}

/// The merges that are given.
fn given_again<'a>(
    alloc: Global,
    given: &[(Name<'a>, Name<'a>)],
) -> Result<Vec<(Name<'a>, Name<'a>)>, Memory>
    ensures { IfOk result (λ merges. merges.items ≡ given.now) }
{
    let mut merges = Vec::with_capacity(alloc, given.len())?;
    for (from, to) in given {
        merges.push((from.again(), to.again()))?;
    }
    Ok(merges)
}

/// Appends the merges among directives.
fn append_merges<'a>(
    merges: &mut Vec<(Name<'a>, Name<'a>)>,
    directives: &[Directive<'a>],
) -> Result<(), Memory>
    ensures { OnOk result (merges.new.items ≡ merges.old.items ++ filter_map merge_said (map said directives.now)) }
{
    for directive in directives {
        append_merge(merges, directive)?;
    }
    Ok(())
}

/// Appends the merge that a directive asks for, where it does.
fn append_merge<'a>(
    merges: &mut Vec<(Name<'a>, Name<'a>)>,
    directive: &Directive<'a>,
) -> Result<(), Memory>
    ensures { OnOk result (merges.new.items ≡ merges.old.items ++ filter_map merge_said (said directive.now ∷ [])) }
{
    match directive {
        Directive::Merge { left, right } => {
            merges.push((left.again(), right.again()))?;
            Ok(())
        }
        Directive::AlignComm { .. }
        | Directive::AlternateName { .. }
        | Directive::DefaultLib(_)
        | Directive::Export(_)
        | Directive::FailIfMismatch { .. }
        | Directive::Include(_) => Ok(()),
    }
}
