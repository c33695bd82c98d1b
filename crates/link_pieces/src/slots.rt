//! The local slots of a link.

ghost use Rattle.std.specs.Prelude.{◌≡◌, ◌≤◌, [], length, slice_index_or, Ok, OnOk, IfOk};
ghost use Rattle.std.specs.List.{cons_option};
ghost use Rattle.link_pieces.specs.Commons.{FIRST_COMMON};
ghost use Rattle.link_pieces.specs.LinkerPieces.{numbers_below};
ghost use Rattle.link_pieces.specs.LocalSlots.{slot_in, with_slots, slot_number};

use crate::commons::FIRST_COMMON;
use indexmap::IndexSet;
use link_base::{Memory, Name};
use std::alloc::Global;
use std::collections::BTreeSet;
use std::marker::Model;
use symbol_table::Meaning;
use synthetic_sections::FIRST_LOCAL_SLOT;

/// There are at most so many: their numbers as pieces stay below those of commons.
const SLOT_LIMIT: usize = (FIRST_COMMON - FIRST_LOCAL_SLOT) as usize;

/// Notes the name whose slot a meaning is, where it is one.
pub fn note_slot<'a>(slots: &mut BTreeSet<Name<'a>>, meaning: &Meaning<'a>) -> Result<(), Memory>
    ensures { OnOk result (slots.new.keys ≡ with_slots slots.old.keys (cons_option (slot_in (Ok meaning.now)) [])) }
{
    if let Meaning::LocalSlot(name) = meaning {
        slots.insert(name.again())?;
    }
    Ok(())
}

/// The names whose slots a link refers to, in the order of their bytes.
#[derive(Drop)]
pub struct LocalSlots<'a> {
    names: IndexSet<Name<'a>>,
}

impl<'a> Model for LocalSlots<'a> {
    ghost use Rattle.std.specs.Prelude.{List, ℕ};

    ghost Value = { List (List ℕ) };

    ghost view = { λ slots. slots.names.keys };

    ghost use Rattle.std.specs.Prelude.{length, ◌≤◌};
    ghost use Rattle.link_pieces.specs.Commons.{FIRST_COMMON};
    ghost use Rattle.link_pieces.specs.LinkerPieces.{numbers_below};

    ghost invariant = { λ slots. numbers_below (length slots.names.keys) ≤ FIRST_COMMON };
}

impl<'a> LocalSlots<'a> {
    /// These names. Their numbers as pieces stay below those of commons: more of them are want of memory.
    pub fn of(alloc: Global, names: &BTreeSet<Name<'a>>) -> Result<LocalSlots<'a>, Memory>
        ensures { IfOk result (λ slots. slots ≡ names.now.keys) }
    {
        let mut found = IndexSet::new(alloc);
        for name in names {
            found.insert(name.again())?;
        }
        if found.len() > SLOT_LIMIT {
            return Err(Memory);
        }
        Ok(LocalSlots { names: found })
    }

    /// How many there are.
    pub fn len(&self) -> usize
        ensures len { result ≡ length self.now }
        ensures few { numbers_below result ≤ FIRST_COMMON }
    {
        self.names.len()
    }

    /// The number of the slot of a name, where there is one.
    pub(crate) fn number(&self, name: &Name<'a>) -> Option<u32>
        ensures { result ≡ slot_number self.now name.now }
    {
        match self.names.get_index_of(name) {
            Some(number) => Some(number as u32),
            None => None,
        }
    }

    /// The name of a slot by its number; one that is not there has none.
    pub(crate) fn name(&self, number: u32) -> Name<'a>
        ensures { result ≡ slice_index_or self.now number [] }
    {
        match self.names.get_index(number as usize) {
            Some(name) => name.again(),
            None => Name::of(b""),
        }
    }
}
