//! Where the names stand that the loader of a program looks for in it.

ghost use Rattle.std.specs.Prelude.{◌≡◌};
ghost use Rattle.link_pieces.specs.LinkParts.{LinkParts};
ghost use Rattle.link_pieces.specs.PieceIndex.{IsPieceIndex};
ghost use Rattle.link_fields.specs.Entry.{place_in};
ghost use Rattle.link_fields.specs.LoaderPlaces.{own_place, loader_place, TLS_NAME, LOAD_CONFIG_NAME};

use crate::entry::EntryPlace;
use link_base::Name;
use link_pieces::{LinkNames, PieceIndex};
use symbol_table::{Meaning, NoMeaning};

/// Where the names stand that the loader looks for, each where it stands in a section or is a common.
#[derive(Clone, Copy, Debug, PartialEq, Eq)]
pub struct LoaderPlaces {
    /// The directory of thread-local storage, `_tls_used`.
    pub tls: Option<EntryPlace>,
    /// The load configuration, `_load_config_used`.
    pub load_config: Option<EntryPlace>,
}

/// Where the names stand that the loader looks for.
pub(crate) fn loader_places<'a>(names: &LinkNames<'a>, index: &PieceIndex<'a>) -> LoaderPlaces
    requires { IsPieceIndex names.now index.now }
    ensures tls { result.tls ≡ loader_place names.now TLS_NAME }
    ensures load_config { result.load_config ≡ loader_place names.now LOAD_CONFIG_NAME }
{
    LoaderPlaces {
        tls: own_place(index, names.resolve(Name::of(b"_tls_used"))),
        load_config: own_place(index, names.resolve(Name::of(b"_load_config_used"))),
    }
}

/// The place of a meaning, where it is one in a section or a common.
fn own_place<'a>(
    index: &PieceIndex<'a>,
    meaning: Result<Meaning<'a>, NoMeaning>,
) -> Option<EntryPlace>
    ensures { (link : LinkParts) → IsPieceIndex link index.now → result ≡ own_place link meaning.entry }
{
    match meaning {
        Ok(
            Meaning::Section {
                module,
                section,
                value,
            },
        ) => place_in(value, index.of(module, section)),
        Ok(Meaning::Common { module, symbol }) => place_in(0, index.of_common(module, symbol)),
        _ => None,
    }
}

/// An offset in a piece, where there is the piece.
fn place_in(value: u32, piece: Option<u32>) -> Option<EntryPlace>
    ensures { result ≡ place_in value piece }
{
    match piece {
        Some(piece) => Some(EntryPlace { piece, value }),
        None => None,
    }
}
