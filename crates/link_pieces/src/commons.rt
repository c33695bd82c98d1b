//! The commons that names mean, as pieces.

ghost use Rattle.std.specs.Prelude.{◌≡◌, ◌<◌, ◌^◌, [], List};
ghost use Rattle.section_group.specs.BarePieces.{bare};
ghost use Rattle.section_group.specs.PieceContents.{piece_contents};
ghost use Rattle.module_view.specs.Module.{ModuleView};
ghost use Rattle.link_directives.specs.Alignments.{AreAsked};
ghost use Rattle.link_pieces.specs.Commons.{is_meant_common, common_alignment, common_piece};

use crate::names::LinkNames;
use link_base::Name;
use link_directives::CommonAlignments;
use module_view::Common;
use section_group::Piece;
use symbol_table::Meaning;

/// The numbers of commons begin above those of sections: no file that is read has so many section headers.
pub const FIRST_COMMON: u32 = 1 << 24;

/// IMAGE_SCN_CNT_UNINITIALIZED_DATA, IMAGE_SCN_MEM_READ and IMAGE_SCN_MEM_WRITE (PE Format, "Section Flags").
const COMMON_FLAGS: u32 = 0xc000_0080;

/// Whether some name means a common of the module at a position: then its own name does.
pub(crate) fn is_meant<'a>(names: &LinkNames<'a>, position: u32, common: &Common<'a>) -> bool
    ensures { result ≡ is_meant_common names.now position common.now }
{
    match names.resolve(common.name.again()) {
        Ok(Meaning::Common { module, symbol }) => module == position && symbol == common.symbol,
        _ => false,
    }
}

/// The piece that a common of the module at a position is, as it is aligned by its size and by directives.
pub(crate) fn common_piece<'a>(
    alignments: &CommonAlignments<'a>,
    position: u32,
    common: &Common<'a>,
) -> Piece<'a>
    requires { common.now.symbol < 2 ^ 31 }
    ensures piece { (modules : List ModuleView) → AreAsked modules alignments.now → bare result ≡ common_piece modules position common.now }
    ensures contents { piece_contents result ≡ [] }
{
    Piece {
        module: position,
        number: FIRST_COMMON + common.symbol,
        name: Name::of(b".bss"),
        flags: COMMON_FLAGS,
        size: common.size,
        align: alignments.raised(&common.name, common_alignment(common.size)),
        body: None,
        init: false,
        named: true,
    }
}

/// The least power of two that is not below a size, and at most 32.
#[tactic(auto, unfolding(crate::specs::Commons::common_alignment))]
fn common_alignment(size: u32) -> u32
    ensures { result ≡ common_alignment size }
{
    match size {
        0..=1 => 1,
        2 => 2,
        3..=4 => 4,
        5..=8 => 8,
        9..=16 => 16,
        _ => 32,
    }
}
