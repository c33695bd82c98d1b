//! What pieces hold in a file.

ghost use Rattle.std.specs.Prelude.{◌≡◌, ◌≤◌, ◌<◌, ◌+◌, ◌++◌, length, slice_index, IfOk, OnOk};
ghost use Rattle.std.specs.List.{All, flat_map};
ghost use Rattle.link_base.specs.Bytes.{bytes_at};
ghost use Rattle.address_layout.specs.Layout.{placed_at};
ghost use Rattle.image_writer.specs.PieceInFile.{piece_place};
ghost use Rattle.piece_bytes.specs.PieceBytes.{LiesIn, bytes_of_piece};

use crate::place::place_in_section;
use address_layout::Layout;
use link_base::Memory;
use section_group::Piece;
use std::alloc::Global;

/// What pieces of a section hold in a file, one after another.
pub fn read_pieces(
    alloc: Global,
    file: &[u8],
    layout: &Layout,
    pieces: &[Piece<'_>],
    section: usize,
    members: &[u32],
) -> Result<Vec<u8>, Memory>
    requires section { section < length layout.now.sections.items }
    requires lie { All (LiesIn layout.now pieces.now section (length file.now)) members.now }
    ensures { IfOk result (λ table. table.items ≡ flat_map (bytes_of_piece layout.now pieces.now section file.now) members.now) }
{
    let mut table = Vec::new(alloc);
    for member in members {
        let k = *member as usize;
        push_part(
            &mut table,
            file,
            layout,
            section,
            k,
            pieces[k].size as usize,
        )?;
    }
    Ok(table)
}

/// Appends what a piece of a section holds in a file.
fn push_part(
    table: &mut Vec<u8>,
    file: &[u8],
    layout: &Layout,
    section: usize,
    k: usize,
    size: usize,
) -> Result<(), Memory>
    requires section { section < length layout.now.sections.items }
    requires piece { k < length layout.now.pieces.items }
    requires above { 0 < size → (placed_at layout.now.sections.items section).rva ≤ slice_index layout.now.pieces.items k }
    requires inside { 0 < size → piece_place layout.now section k + size ≤ length file.now }
    ensures { OnOk result (table.new.items ≡ table.old.items ++ bytes_at file.now (piece_place layout.now section k) size) }
{
    if size == 0 {
        return Ok(());
    }
    let place = place_in_section(layout, section, k);
    table.extend_from_slice(&file[place..place + size])?;
    Ok(())
}
