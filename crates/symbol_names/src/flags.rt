//! Flags of names, by their numbers.

ghost use Rattle.std.specs.Prelude.{◌≡◌, ◌≤◌, ◌<◌, ◌||◌, ℕ, false, length, slice_index_or, nat_eq, OnOk};
ghost use Rattle.std.specs.List.{All, list_any};
ghost use Rattle.symbol_names.specs.Flags.{names_definition, names_common, seeks, SameFlags};

use crate::noted::{NotedAsked, NotedCommon, NotedDefinition};
use link_base::Memory;

/// Room for the flags of so many names: those that come are not set.
pub fn grow(flags: &mut Vec<bool>, count: usize) -> Result<(), Memory>
    ensures long { OnOk result (count ≤ length flags.new.items) }
    ensures same { SameFlags flags.old.items flags.new.items }
{
    if flags.len() < count {
        flags.resize(count, false)?;
    }
    Ok(())
}

/// Sets the flags of the names that are defined.
pub fn mark_definitions(flags: &mut Vec<bool>, definitions: &[NotedDefinition])
    requires { All (λ definition. definition.name < length flags.old.items) definitions.now }
    ensures len { length flags.new.items ≡ length flags.old.items }
    ensures marked { (number : ℕ) → slice_index_or flags.new.items number false
        ≡ (slice_index_or flags.old.items number false || list_any (names_definition number) definitions.now) }
{
    for definition in definitions {
        mark(flags, definition.name);
    }
}

/// Sets the flags of the names that are shared.
pub fn mark_commons(flags: &mut Vec<bool>, commons: &[NotedCommon])
    requires { All (λ common. common.name < length flags.old.items) commons.now }
    ensures len { length flags.new.items ≡ length flags.old.items }
    ensures marked { (number : ℕ) → slice_index_or flags.new.items number false
        ≡ (slice_index_or flags.old.items number false || list_any (names_common number) commons.now) }
{
    for common in commons {
        mark(flags, common.name);
    }
}

/// Sets the flags of the names that are asked for with a search.
pub fn mark_sought(flags: &mut Vec<bool>, asked: &[NotedAsked])
    requires { All (λ asked. asked.name < length flags.old.items) asked.now }
    ensures len { length flags.new.items ≡ length flags.old.items }
    ensures marked { (number : ℕ) → slice_index_or flags.new.items number false
        ≡ (slice_index_or flags.old.items number false || list_any (seeks number) asked.now) }
{
    for one in asked {
        if one.search {
            mark(flags, one.name);
        }
    }
}

/// Sets the flag of a name.
fn mark(flags: &mut Vec<bool>, name: u32)
    requires { name < length flags.old.items }
    ensures len { length flags.new.items ≡ length flags.old.items }
    ensures marked { (number : ℕ) → slice_index_or flags.new.items number false
        ≡ (slice_index_or flags.old.items number false || nat_eq name number) }
{
    flags[name as usize] = true;
}

/// The flag of a name.
pub fn flag_at(flags: &[bool], name: usize) -> bool
    ensures { result ≡ slice_index_or flags.now name false }
{
    match flags.get(name) {
        Some(flag) => *flag,
        None => false,
    }
}
