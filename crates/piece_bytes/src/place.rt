//! Where a piece stands in a file.

ghost use Rattle.std.specs.Prelude.{◌≡◌, ◌≤◌, ◌<◌, length, slice_index};
ghost use Rattle.address_layout.specs.Layout.{placed_at};
ghost use Rattle.image_writer.specs.PieceInFile.{piece_place};

use address_layout::Layout;

/// Where the first byte of a piece of a section stands in the file.
pub fn place_in_section(layout: &Layout, section: usize, k: usize) -> usize
    requires piece { k < length layout.now.pieces.items }
    requires section { section < length layout.now.sections.items }
    requires above { (placed_at layout.now.sections.items section).rva ≤ slice_index layout.now.pieces.items k }
    ensures { result ≡ piece_place layout.now section k }
{
    let placed = &layout.sections[section];
    placed.file as usize + (layout.pieces[k] - placed.rva) as usize
}
