//! The public symbols of what is kept of a link.

ghost use Rattle.std.specs.Prelude.{◌≡◌, ◌++◌, [], filter_map, IfOk, OnOk};
ghost use Rattle.std.specs.List.{cons_option};
ghost use Rattle.debug_rows.specs.KeptPublics.{at_target, kept_public};

use crate::link_publics::PublicPlace;
use link_base::Memory;
use relocate::{Target, place_of, redirected};
use std::alloc::Global;

/// Of the public symbols of a link those of what is kept. `kept` says it of each piece, and behind the pieces of each import;
/// `places` gives the piece at whose place each stands, its own behind the end of the list. The slot of an import has its place
/// in the piece `table`, at the offset of the import's number from `first` on.
pub fn kept_publics<'a>(
    alloc: Global,
    publics: &[PublicPlace<'a>],
    kept: &[bool],
    places: &[u32],
    first: u32,
    table: u32,
    offsets: &[u32],
) -> Result<Vec<PublicPlace<'a>>, Memory>
    ensures { IfOk result (λ list. list.items ≡ filter_map (kept_public kept.now places.now first table offsets.now) publics.now) }
{
    let mut list = Vec::with_capacity(alloc, publics.len())?;
    for public in publics {
        push_kept(&mut list, public, kept, places, first, table, offsets)?;
    }
    Ok(list)
}

/// Appends a public symbol, where it is one of what is kept.
fn push_kept<'a>(
    list: &mut Vec<PublicPlace<'a>>,
    public: &PublicPlace<'a>,
    kept: &[bool],
    places: &[u32],
    first: u32,
    table: u32,
    offsets: &[u32],
) -> Result<(), Memory>
    ensures { OnOk result (list.new.items ≡ list.old.items ++ cons_option (kept_public kept.now places.now first table offsets.now public.now) []) }
{
    let stands = place_of(places, public.piece);
    if kept.get(stands as usize) != Some(&true) {
        return Ok(());
    }
    let place = Target::Piece {
        piece: public.piece,
        value: public.value,
    };
    push_at(
        list,
        public,
        redirected(place, places, first, table, offsets),
    )
}

/// Appends a public symbol with this place, where that is in a piece.
fn push_at<'a>(
    list: &mut Vec<PublicPlace<'a>>,
    public: &PublicPlace<'a>,
    place: Target,
) -> Result<(), Memory>
    ensures { OnOk result (list.new.items ≡ list.old.items ++ cons_option (at_target public.now place) []) }
{
    if let Target::Piece { piece, value } = place {
        list.push(PublicPlace {
            name: public.name.again(),
            module: public.module,
            function: public.function,
            piece,
            value,
        })?;
    }
    Ok(())
}
