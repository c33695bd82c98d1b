//! What the entry of an image means.

ghost use Rattle.std.specs.Prelude.{◌≡◌, ℕ, List, [], Option, None, Some, IfOk, OnOk, IfErr};
ghost use Rattle.std.specs.List.{cons_option};
ghost use Rattle.link_pieces.specs.LinkParts.{LinkParts};
ghost use Rattle.link_pieces.specs.LocalSlots.{with_meant};
ghost use Rattle.link_fields.specs.Entry.{entry_meant};
ghost use Rattle.link_plan.specs.References.{entry_meaning_fault};

use crate::references::name_fault;
use link_base::{Fault, Memory, Name};
use link_pieces::{LinkNames, note_slot};
use std::collections::BTreeSet;
use symbol_table::Meaning;

/// What the entry means, where there is one.
pub(crate) fn entry_meaning<'a>(
    names: &LinkNames<'a>,
    entry: &Option<Name<'a>>,
) -> Result<Option<Meaning<'a>>, Fault<'a>>
    ensures meant { IfOk result (λ meaning. meaning ≡ entry_meant names.now entry.now) }
    ensures accepted { OnOk result (entry_meaning_fault names.now entry.now ≡ None) }
    ensures refused { IfErr result (λ fault. entry_meaning_fault names.now entry.now ≡ Some fault) }
{
    let Some(name) = entry else { return Ok(None) };
    match names.resolve(name.again()) {
        Ok(meaning) => Ok(Some(meaning)),
        Err(none) => Err(name_fault(name, None, none)),
    }
}

/// Notes the name whose slot the entry means, where it means one.
pub(crate) fn note_entry_slot<'a>(
    slots: &mut BTreeSet<Name<'a>>,
    meaning: &Option<Meaning<'a>>,
) -> Result<(), Memory>
    ensures { OnOk result ((link : LinkParts) (entry : Option (List ℕ)) → meaning.now ≡ entry_meant link entry
        → slots.new.keys ≡ with_meant link slots.old.keys (cons_option entry [])) }
{
    match meaning {
        Some(meaning) => note_slot(slots, meaning),
        None => Ok(()),
    }
}
