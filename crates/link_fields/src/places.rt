//! What is named before all modules: the entry, the exports, the local slots, and what the loader of a program looks for.

ghost use Rattle.std.specs.Prelude.{◌≡◌, ◌≤◌, None, length, IfOk, OnOk, IfErr};
ghost use Rattle.link_base.specs.Refusals.{RefusesFor};
ghost use Rattle.link_pieces.specs.Commons.{FIRST_COMMON};
ghost use Rattle.link_pieces.specs.LinkerPieces.{numbers_below};
ghost use Rattle.link_pieces.specs.LocalSlots.{slot_names};
ghost use Rattle.link_pieces.specs.PieceIndex.{IsPieceIndex};
ghost use Rattle.link_fields.specs.Entry.{meant_place};
ghost use Rattle.link_fields.specs.ExportTargets.{export_targets};
ghost use Rattle.link_fields.specs.LoaderPlaces.{loader_place, TLS_NAME, LOAD_CONFIG_NAME};
ghost use Rattle.link_fields.specs.Places.{places_fault};

use crate::entry::{EntryPlace, entry_place};
use crate::export_targets::export_targets;
use crate::loader_places::{LoaderPlaces, loader_places};
use crate::slots::check_slots;
use link_base::Refusal;
use link_pieces::{LinkNames, PieceIndex};
use relocate::Target;
use std::alloc::Global;
use symbol_table::Meaning;

/// Where the entry stands, what the exports stand for, and where the names stand that the loader looks for.
#[derive(Drop)]
pub struct NamedPlaces {
    pub entry: Option<EntryPlace>,
    pub exported: Vec<Option<Target>>,
    pub loader: LoaderPlaces,
}

/// Where the entry stands, by what it means, what the exports stand for, and where the names stand that the loader looks for.
/// The first of the entry, the exports and the local slots, of which there are so many, that has no place in the image is refused.
pub fn named_places<'a>(
    alloc: Global,
    names: &LinkNames<'a>,
    index: &PieceIndex<'a>,
    start: &Option<Meaning<'a>>,
    slots: usize,
) -> Result<NamedPlaces, Refusal<'a>>
    requires indexed { IsPieceIndex names.now index.now }
    requires slots { slots ≡ length (slot_names names.now) }
    requires few { numbers_below slots ≤ FIRST_COMMON }
    ensures entry { IfOk result (λ places. places.entry ≡ meant_place names.now start.now) }
    ensures exported { IfOk result (λ places. places.exported.items ≡ export_targets names.now) }
    ensures tls { IfOk result (λ places. places.loader.tls ≡ loader_place names.now TLS_NAME) }
    ensures load_config { IfOk result (λ places. places.loader.load_config ≡ loader_place names.now LOAD_CONFIG_NAME) }
    ensures accepted { OnOk result (places_fault names.now start.now ≡ None) }
    ensures refused { IfErr result (RefusesFor (places_fault names.now start.now)) }
{
    let entry = entry_place(index, start)?;
    let exported = export_targets(alloc, names, index)?;
    check_slots(names, index, slots)?;
    Ok(NamedPlaces {
        entry,
        exported,
        loader: loader_places(names, index),
    })
}
