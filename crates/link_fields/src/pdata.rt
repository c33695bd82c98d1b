//! The pieces of the exception table.

ghost use Rattle.std.specs.Prelude.{◌≡◌};
ghost use Rattle.link_fields.specs.Pdata.{is_pdata};

use section_group::Piece;
use section_rules::has_base_name;

/// Whether a piece is one of the exception table, by its base name.
#[tactic(auto, unfolding(crate::specs::Pdata::is_pdata))]
pub fn is_pdata(piece: &Piece<'_>) -> bool
    ensures { result ≡ is_pdata piece.now }
{
    has_base_name(&piece.name, b".pdata")
}
