//! Other bytes in the place of pieces.

ghost use Rattle.std.specs.Prelude.{◌≡◌, ◌≤◌, ◌<◌, ◌+◌, length, slice_index};
ghost use Rattle.std.specs.List.{All, sum_by};
ghost use Rattle.address_layout.specs.Layout.{placed_at};
ghost use Rattle.image_writer.specs.PieceInFile.{piece_place, patched};
ghost use Rattle.piece_bytes.specs.PieceBytes.{LiesIn, size_at, written};

use crate::place::place_in_section;
use address_layout::Layout;
use section_group::Piece;

/// Puts a table into pieces of a section, one after another.
pub fn write_pieces(
    file: &mut Vec<u8>,
    table: &[u8],
    layout: &Layout,
    pieces: &[Piece<'_>],
    section: usize,
    members: &[u32],
)
    requires section { section < length layout.now.sections.items }
    requires lie { All (LiesIn layout.now pieces.now section (length file.old.items)) members.now }
    requires whole { length table.now ≡ sum_by (size_at pieces.now) members.now }
    ensures { file.new.items ≡ written layout.now pieces.now section members.now table.now file.old.items }
{
    let mut rest = table;
    for member in members {
        let k = *member as usize;
        let (part, later) = rest.split_at(pieces[k].size as usize);
        put_part(file, layout, section, k, part);
        rest = later;
    }
}

/// Puts bytes into a piece of a section.
fn put_part(file: &mut Vec<u8>, layout: &Layout, section: usize, k: usize, part: &[u8])
    requires section { section < length layout.now.sections.items }
    requires piece { k < length layout.now.pieces.items }
    requires above { 0 < length part.now → (placed_at layout.now.sections.items section).rva ≤ slice_index layout.now.pieces.items k }
    requires inside { 0 < length part.now → piece_place layout.now section k + length part.now ≤ length file.old.items }
    ensures len { length file.new.items ≡ length file.old.items }
    ensures put { file.new.items ≡ patched (piece_place layout.now section k) part.now file.old.items }
{
    if part.is_empty() {
        return;
    }
    let place = place_in_section(layout, section, k);
    file[place..place + part.len()].copy_from_slice(part);
}
