//! The places of all sections.

ghost use Rattle.std.specs.Prelude.{◌≡◌, ◌+◌, ◌*◌, ◌^◌, ◌<◌, ◌≤◌, ◌-◌, ◌==◌, if◌then◌else◌, length, slice_index, IfOk, IfErr, ℕ};
ghost use Rattle.std.specs.List.{All, Contains, IsDistinct};
ghost use Rattle.link_base.specs.PeFormat.{PAGE_SIZE, FILE_ALIGNMENT, SECTION_HEADERS_OFFSET, SIZEOF_SECTION_HEADER};
ghost use Rattle.link_base.specs.Limits.{SECTION_LIMIT, IMAGE_LIMIT};
ghost use Rattle.section_group.specs.SectionOrder.{no_piece};
ghost use Rattle.address_layout.specs.Places.{section_count, section_row};
ghost use Rattle.address_layout.specs.Layout.{IsAlignment, StandOnce, IsLayout, IsPlaceRefusal};
ghost use Rattle.address_layout.specs.Growth.{CanGrow};
ghost use Rattle.address_layout.specs.Rounded.{rounded, saturated, place_of, size_from, raw_from, placed_from, saturated_placed, ArePlacedAll};

use crate::extent::{Extent, place_pieces};
use crate::layout::{
    HEADERS_OFFSET, Layout, LayoutError, MAX_IMAGE, Placed, RAW_ALIGNMENT, SECTION_ALIGNMENT,
};
use crate::round::{round_up, saturating_u32};
use link_base::pe_format::SIZEOF_SECTION_HEADER;
use link_base::{Memory, SECTION_LIMIT};
use section_group::{OutSection, Piece};
use std::alloc::Global;

/// A section that is placed, and what is after it.
#[derive(Drop)]
struct Spot {
    placed: Placed,
    /// The end of the section in the image.
    end: u64,
    /// The length of its raw data.
    raw: u64,
}

/// Gives each section the least page at or above the end of the one before it, and each piece the least RVA of its alignment
/// at or above the end of the piece before it.
///
/// `reloc` says that the section of base relocations will follow: the headers have room for it.
///
/// # Errors
///
/// `TooManySections` with their number above 96, and then `ImageTooLarge` with the size in memory above 512 MiB.
pub fn place(
    alloc: Global,
    pieces: &[Piece<'_>],
    sections: &[OutSection<'_>],
    reloc: bool,
) -> Result<Layout, LayoutError>
    requires few { length pieces.now < 2 ^ 31 }
    requires aligned { All (λ piece. IsAlignment piece.align) pieces.now }
    requires standing { StandOnce pieces.now sections.now }

    ensures layout { IfOk result (IsLayout pieces.now sections.now reloc) }
    ensures few_sections { IfOk result (λ _. section_count sections.now reloc ≤ SECTION_LIMIT) }
    ensures within { IfOk result (λ layout. layout.image ≤ IMAGE_LIMIT) }
    ensures growth { IfOk result CanGrow }

    ensures refused { IfErr result (IsPlaceRefusal pieces.now sections.now reloc) }
{
    let count = sections.len() + usize::from(reloc);
    if count > SECTION_LIMIT {
        return Err(LayoutError::TooManySections(count as u32));
    }
    let headers = headers_len(count);
    let mut rvas = vec![in alloc; 0u32; pieces.len()]?;
    let (placed, end) = place_all(alloc, pieces, sections, headers, &mut rvas)?;
    let image = round_up(end, SECTION_ALIGNMENT);
    if image > MAX_IMAGE {
        return Err(LayoutError::ImageTooLarge(image));
    }
    Ok(Layout {
        headers: headers as u32,
        sections: placed,
        pieces: rvas,
        image: image as u32,
    })
}

/// Places all sections, one after the other, and gives the end of the last.
fn place_all(
    alloc: Global,
    pieces: &[Piece<'_>],
    sections: &[OutSection<'_>],
    headers: u64,
    rvas: &mut [u32],
) -> Result<(Vec<Placed>, u64), Memory>
    requires few { length pieces.now < 2 ^ 31 }
    requires aligned { All (λ piece. IsAlignment piece.align) pieces.now }
    requires standing { StandOnce pieces.now sections.now }
    requires small { headers ≤ 4680 }
    requires some_sections { length sections.now ≤ SECTION_LIMIT }
    requires room { length rvas.old ≡ length pieces.now }
    requires zero { (k : ℕ) → slice_index rvas.old k ≡ 0 }
    ensures { IfOk result (λ r. ArePlacedAll pieces.now sections.now headers r.1 r.0.items rvas.new) }
{
    let mut placed = Vec::with_capacity(alloc, sections.len())?;
    let mut end = headers;
    let mut file = headers;
    for section in sections {
        let spot = place_section(pieces, section, end, file, rvas);
        end = spot.end;
        file += spot.raw;
        placed.push(spot.placed)?;
    }
    Ok((placed, end))
}

/// The length of the headers with room for that many sections.
fn headers_len(count: usize) -> u64
    requires { count ≤ SECTION_LIMIT }
    ensures value { result ≡ rounded FILE_ALIGNMENT (SECTION_HEADERS_OFFSET + SIZEOF_SECTION_HEADER * count) }
    ensures small { result ≤ 4680 }
{
    let len = HEADERS_OFFSET + SIZEOF_SECTION_HEADER * count;
    round_up(len as u64, RAW_ALIGNMENT)
}

/// Places a section behind the end of what is before it in the image and in the file.
fn place_section(
    pieces: &[Piece<'_>],
    section: &OutSection<'_>,
    floor: u64,
    file: u64,
    rvas: &mut [u32],
) -> Spot
    requires few { floor + 4096 + length section.now.pieces.items * 4294975488 < 2 ^ 63 + 2 ^ 62 }
    requires within { All (λ k. k < length pieces.now) section.now.pieces.items }
    requires aligned { All (λ piece. IsAlignment piece.align) pieces.now }
    requires room { length rvas.old ≡ length pieces.now }
    requires once { IsDistinct (λ j k. j == k) section.now.pieces.items }

    ensures placed { result.placed ≡ saturated_placed (placed_from pieces.now (section_row section.now) (rounded PAGE_SIZE floor) file) }
    ensures end { result.end ≡ rounded PAGE_SIZE floor + size_from pieces.now (section_row section.now) (rounded PAGE_SIZE floor) }
    ensures raw { result.raw ≡ raw_from pieces.now (section_row section.now) (rounded PAGE_SIZE floor) }

    ensures end_bound { result.end ≤ floor + 4096 + length section.now.pieces.items * 4294975488 }
    ensures raw_bound { result.raw ≤ 511 + length section.now.pieces.items * 4294975488 }

    ensures room { length rvas.new ≡ length pieces.now }
    ensures written { (j : ℕ) → j < length section.now.pieces.items
        → slice_index rvas.new (slice_index section.now.pieces.items j) ≡ saturated (place_of pieces.now (section_row section.now) (rounded PAGE_SIZE floor) j) }
    ensures others { (k : ℕ) → ¬ Contains section.now.pieces.items k → slice_index rvas.new k ≡ slice_index rvas.old k }
{
    let start = round_up(floor, SECTION_ALIGNMENT);
    let extent = place_pieces(pieces, section, start, rvas);
    spot_at(start, extent, file)
}

/// A section that starts at an RVA and reaches as far as its pieces do, with its raw data at or after a file offset.
fn spot_at(start: u64, extent: Extent, file: u64) -> Spot
    requires low { start ≤ extent.initialised_end }
    requires high { extent.initialised_end ≤ extent.end }
    requires fits { extent.end < 2 ^ 63 + 2 ^ 62 }
    ensures end { result.end ≡ start + (if extent.has_bytes then extent.end - start else 1) }
    ensures raw { result.raw ≡ rounded FILE_ALIGNMENT (extent.initialised_end - start) }
    ensures rva { result.placed.rva ≡ saturated start }
    ensures size { result.placed.size ≡ saturated (if extent.has_bytes then extent.end - start else 1) }
    ensures raw_size { result.placed.raw ≡ saturated (rounded FILE_ALIGNMENT (extent.initialised_end - start)) }
    ensures file { result.placed.file ≡ saturated (if rounded FILE_ALIGNMENT (extent.initialised_end - start) == 0 then 0 else file) }
{
    let size = if extent.has_bytes {
        extent.end - start
    } else {
        1
    };
    let raw = round_up(extent.initialised_end - start, RAW_ALIGNMENT);
    Spot {
        placed: Placed {
            rva: saturating_u32(start),
            size: saturating_u32(size),
            raw: saturating_u32(raw),
            file: if raw == 0 { 0 } else { saturating_u32(file) },
        },
        end: start + size,
        raw,
    }
}
