//! The raw data of sections: the contents of their pieces, each at its place, and zeros between and after them.

ghost use Rattle.std.specs.Prelude.{◌≡◌, ◌<◌, ◌≤◌, ◌+◌, ◌^◌, ◌++◌, length, map, replicate, slice_index, IfOk, OnOk};
ghost use Rattle.std.specs.List.{All};
ghost use Rattle.section_group.specs.Uniqueness.{rows_of};
ghost use Rattle.section_group.specs.PieceContents.{piece_contents};
ghost use Rattle.image_writer.specs.WrittenImage.{IsLaidOut, HasContents};
ghost use Rattle.image_writer.specs.RawData.{section_bytes, gap, next_place, laid, laid_all, Ascend};

use crate::bytes_out::push_zeros;
use address_layout::{Layout, Placed};
use link_base::Memory;
use section_group::{OutSection, Piece};

/// Appends the raw data of all sections, one after the other.
pub(crate) fn push_sections(
    out: &mut Vec<u8>,
    layout: &Layout,
    sections: &[OutSection<'_>],
    pieces: &[Piece<'_>],
) -> Result<(), Memory>
    requires laid_out { IsLaidOut pieces.now sections.now layout.now }
    requires contents { HasContents pieces.now sections.now }
    ensures { OnOk result (out.new.items ≡ out.old.items
        ++ laid_all layout.now.pieces.items (map piece_contents pieces.now) (rows_of sections.now) layout.now.sections.items) }
{
    for (i, section) in sections.iter().enumerate() {
        push_section(out, &layout.sections[i], section, &layout.pieces, pieces)?;
    }
    Ok(())
}

/// Appends the raw data of a section. `rvas` has the RVA of each piece by its index.
fn push_section(
    out: &mut Vec<u8>,
    placed: &Placed,
    section: &OutSection<'_>,
    rvas: &[u32],
    pieces: &[Piece<'_>],
) -> Result<(), Memory>
    requires within { All (λ k. k < length pieces.now) section.now.pieces.items }
    requires room { length rvas.now ≡ length pieces.now }
    requires ascending { Ascend (section_bytes rvas.now (map piece_contents pieces.now) section.now.pieces.items)
        (placed.now.rva + placed.now.raw) placed.now.rva }
    ensures { OnOk result (out.new.items ≡ out.old.items
        ++ laid (section_bytes rvas.now (map piece_contents pieces.now) section.now.pieces.items)
        (placed.now.rva + placed.now.raw) placed.now.rva) }
{
    let mut place = placed.rva as usize;
    for index in &section.pieces {
        let index = *index as usize;
        place = push_piece(out, place, rvas[index] as usize, contents(&pieces[index]))?;
    }
    let end = placed.rva as usize + placed.raw as usize;
    push_zeros(out, end - place)?;
    Ok(())
}

/// Appends zeros up to the place of the bytes, and the bytes, and gives the place after them. Where there are no bytes,
/// it appends nothing.
fn push_piece(out: &mut Vec<u8>, place: usize, rva: usize, bytes: &[u8]) -> Result<usize, Memory>
    requires small { rva < 2 ^ 32 }
    requires ascending { 0 < length bytes.now → place ≤ rva }
    ensures written { OnOk result (out.new.items ≡ out.old.items ++ (replicate (gap bytes.now rva place) 0 ++ bytes.now)) }
    ensures next { IfOk result (λ next. next ≡ next_place bytes.now rva place) }
{
    if bytes.is_empty() {
        return Ok(place);
    }
    if rva > place {
        push_zeros(out, rva - place)?;
    }
    out.extend_from_slice(bytes)?;
    Ok(rva + bytes.len())
}

/// The bytes that a piece has in the file.
fn contents<'a>(piece: &Piece<'a>) -> &'a [u8]
    ensures { result.now ≡ piece_contents piece.now }
{
    match piece.body {
        Some(body) if piece.init => body,
        _ => b"",
    }
}
