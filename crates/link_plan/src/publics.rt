//! The public symbols of a link, where a file for debuggers lists them.

ghost use Rattle.std.specs.Prelude.{◌≡◌, ◌≤◌, ◌<◌, ◌^◌, true, length, map, IfOk};
ghost use Rattle.link_base.specs.Limits.{MODULE_LIMIT};
ghost use Rattle.section_group.specs.BarePieces.{bare};
ghost use Rattle.link_words.specs.Outcome.{options_said};
ghost use Rattle.link_pieces.specs.Pieces.{link_pieces};
ghost use Rattle.link_pieces.specs.PieceIndex.{IsPieceIndex};
ghost use Rattle.debug_rows.specs.Publics.{publics_of};
ghost use Rattle.link_plan.specs.LinkPublics.{lists_publics};

use debug_rows::{PublicPlace, public_places};
use link_base::Memory;
use link_pieces::{LinkNames, PieceIndex};
use link_words::Options;
use module_view::Module;
use section_group::Piece;
use std::alloc::Global;

/// The public symbols of these modules, or none where nothing lists them.
pub(crate) fn listed_publics<'a>(
    alloc: Global,
    names: &LinkNames<'a>,
    index: &PieceIndex<'a>,
    modules: &[Module<'a>],
    pieces: &[Piece<'a>],
    options: &Options<'a>,
) -> Result<Vec<PublicPlace<'a>>, Memory>
    requires same { names.now.modules ≡ modules.now }
    requires few_modules { length modules.now ≤ MODULE_LIMIT }
    requires indexed { IsPieceIndex names.now index.now }
    requires pieces { map bare pieces.now ≡ link_pieces names.now }
    requires few { length pieces.now < 2 ^ 31 }
    ensures { IfOk result (λ publics. lists_publics (options_said options.now) ≡ true → publics.items ≡ publics_of names.now) }
{
    if options.map.is_none() && !options.debug {
        return Ok(Vec::new(alloc));
    }
    public_places(alloc, names, index, modules, pieces)
}
