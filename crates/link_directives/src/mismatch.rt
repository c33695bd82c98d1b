//! Keys to which directives give different values.

ghost use Rattle.std.specs.Prelude.{◌≡◌, ◌++◌, ◌∷◌, [], ℕ, List, None, Some, if◌then◌else◌, IfOk, filter_map, map};
ghost use Rattle.directives.specs.Said.{said};
ghost use Rattle.indexmap.specs.IndexMap.{get};
ghost use Rattle.link_base.specs.NameText.{same_name};
ghost use Rattle.link_directives.specs.LinkDirectives.{key_said, mismatch_of, mismatch_with};
ghost use Rattle.link_directives.specs.Passes.{KeepsFirsts};

use directives::Directive;
use indexmap::IndexMap;
use link_base::{Memory, Name};
use module_view::Module;
use std::alloc::Global;

/// A key with the value that an earlier directive gives it, and that of the first directive that gives it another.
#[derive(Drop)]
pub struct Mismatch<'a> {
    pub key: Name<'a>,
    pub first: Name<'a>,
    pub second: Name<'a>,
}

/// The first directive whose key stands earlier with another value. Keys are looked up by hash.
pub fn first_mismatch<'a>(
    alloc: Global,
    modules: &[Module<'a>],
) -> Result<Option<Mismatch<'a>>, Memory>
    ensures { IfOk result (λ mismatch. mismatch ≡ mismatch_of modules.now) }
{
    let mut values = IndexMap::new(alloc);
    for module in modules {
        if let Some(mismatch) = note_values(&mut values, module.directives())? {
            return Ok(Some(mismatch));
        }
    }
    Ok(None)
}

/// Notes the values of keys, up to the first that differs from an earlier one.
fn note_values<'a>(
    values: &mut IndexMap<Name<'a>, Name<'a>>,
    directives: &[Directive<'a>],
) -> Result<Option<Mismatch<'a>>, Memory>
    ensures { IfOk result (λ told. (earlier : List (List ℕ × List ℕ)) → KeepsFirsts earlier (get same_name values.old) None
        → KeepsFirsts (earlier ++ filter_map key_said (map said directives.now)) (get same_name values.new) told) }
{
    for directive in directives {
        if let Some(mismatch) = note_directive(values, directive)? {
            return Ok(Some(mismatch));
        }
    }
    Ok(None)
}

/// Notes the value of a key, where the directive gives one.
fn note_directive<'a>(
    values: &mut IndexMap<Name<'a>, Name<'a>>,
    directive: &Directive<'a>,
) -> Result<Option<Mismatch<'a>>, Memory>
    ensures { IfOk result (λ told. (earlier : List (List ℕ × List ℕ)) → KeepsFirsts earlier (get same_name values.old) None
        → KeepsFirsts (earlier ++ filter_map key_said (said directive.now ∷ [])) (get same_name values.new) told) }
{
    match directive {
        Directive::FailIfMismatch { key, value } => note_value(values, key, value),
        Directive::AlignComm { .. }
        | Directive::AlternateName { .. }
        | Directive::DefaultLib(_)
        | Directive::Export(_)
        | Directive::Include(_)
        | Directive::Merge { .. } => Ok(None),
    }
}

/// Notes the value of a key. One that differs from the value before is told. The key is hashed once.
fn note_value<'a>(
    values: &mut IndexMap<Name<'a>, Name<'a>>,
    key: &Name<'a>,
    value: &Name<'a>,
) -> Result<Option<Mismatch<'a>>, Memory>
    ensures { IfOk result (λ told. (earlier : List (List ℕ × List ℕ)) → KeepsFirsts earlier (get same_name values.old) None
        → KeepsFirsts (earlier ++ (key.now, value.now) ∷ []) (get same_name values.new) told) }
{
    match values.insert(key.again(), value.again())? {
        None => Ok(None),
        Some(first) => Ok(differing(key, &first, value)),
    }
}

/// The mismatch of two values of a key, unless they are one.
fn differing<'a>(key: &Name<'a>, first: &Name<'a>, second: &Name<'a>) -> Option<Mismatch<'a>>
    ensures { result ≡ mismatch_with (key.now, second.now) (key.now, first.now) }
{
    if first == second {
        return None;
    }
    Some(Mismatch {
        key: key.again(),
        first: first.again(),
        second: second.again(),
    })
}
