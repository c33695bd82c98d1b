//! The names that are left of others behind the import prefix.

ghost use Rattle.std.specs.Prelude.{◌≡◌, ◌<◌, ◌≤◌, ◌+◌, ℕ, false, List, length, IfOk, OnOk};
ghost use Rattle.symbol_names.specs.Interning.{Numbers, KeepsNumbers};
ghost use Rattle.symbol_names.specs.Rests.{HasRests, HasRestsBut};

use crate::interning::name_at;
use indexmap::IndexSet;
use link_base::{Memory, Name};

/// Numbers what is left of each name that begins with the import prefix, and what is left of that.
pub fn note_rests<'a>(names: &mut IndexSet<Name<'a>>) -> Result<(), Memory>
    ensures kept { KeepsNumbers names.old.keys names.new.keys }
    ensures rests { OnOk result (HasRests names.new.keys) }
{
    for number in 0..names.len() {
        note_rests_of(names, number)?;
    }
    Ok(())
}

/// Numbers what is left of the name of a number, and what is left of that, up to one that has a number already: what is left of
/// it has one too, or gets it in its own turn. So no name is numbered twice, however many others end in it.
fn note_rests_of<'a>(names: &mut IndexSet<Name<'a>>, number: usize) -> Result<(), Memory>
    requires { number < length names.old.keys }
    ensures kept { KeepsNumbers names.old.keys names.new.keys }
    ensures long { length names.old.keys ≤ length names.new.keys }
    ensures rests { OnOk result ((count : ℕ) → count ≤ length names.old.keys
        → HasRestsBut names.old.keys number count → HasRestsBut names.new.keys (number + 1) count) }
{
    let mut rest = name_at(names, number);
    while rest.is_import() {
        rest = Name::of(rest.rest());
        let (_, is_new) = numbered(names, &rest)?;
        if !is_new {
            return Ok(());
        }
    }
    Ok(())
}

/// The number of a name, its own or the next one, and whether it is the next one.
fn numbered<'a>(names: &mut IndexSet<Name<'a>>, name: &Name<'a>) -> Result<(usize, bool), Memory>
    ensures kept { KeepsNumbers names.old.keys names.new.keys }
    ensures long { length names.old.keys ≤ length names.new.keys }
    ensures numbered { IfOk result (λ it. Numbers names.new.keys it.0 name.now) }
    ensures old { IfOk result (λ it. it.1 ≡ false → length names.new.keys ≡ length names.old.keys) }
    ensures alone { OnOk result ((number : ℕ) (other : List ℕ) → Numbers names.new.keys number other
        → length names.old.keys ≤ number → other ≡ name.now) }
{
    Ok(names.insert_full(name.again())?)
}
