//! The places of the pieces of one section.

ghost use Rattle.std.specs.Prelude.{◌≡◌, ◌+◌, ◌*◌, ◌^◌, ◌<◌, ◌≤◌, ◌||◌, ◌==◌, ℕ, nat_lt, length, slice_index, if◌then◌else◌};
ghost use Rattle.std.specs.List.{All, Contains, IsDistinct};
ghost use Rattle.address_layout.specs.Places.{section_row, alignment_in};
ghost use Rattle.address_layout.specs.Layout.{IsAlignment};
ghost use Rattle.address_layout.specs.Rounded.{rounded, saturated, end_after, place_of, raw_end_after, bytes_before};

use crate::round::{round_up, saturating_u32};
use link_base::Name;
use section_group::{OutSection, Piece};

/// How far some pieces of a section reach.
#[derive(Clone, Copy)]
pub(crate) struct Extent {
    /// The end of the last of them.
    pub end: u64,
    /// The end of the last initialised one, or the section's start.
    pub initialised_end: u64,
    /// Whether one has bytes.
    pub has_bytes: bool,
}

/// Writes the RVAs of the pieces of a section that starts at an RVA, and says how far they reach.
pub(crate) fn place_pieces(
    pieces: &[Piece<'_>],
    section: &OutSection<'_>,
    start: u64,
    rvas: &mut [u32],
) -> Extent
    requires few { start + length section.now.pieces.items * 4294975488 < 2 ^ 63 + 2 ^ 62 }
    requires within { All (λ k. k < length pieces.now) section.now.pieces.items }
    requires aligned { All (λ piece. IsAlignment piece.align) pieces.now }
    requires room { length rvas.old ≡ length pieces.now }
    requires once { IsDistinct (λ j k. j == k) section.now.pieces.items }

    ensures end { result.end ≡ end_after pieces.now (section_row section.now) start (length section.now.pieces.items) }
    ensures initialised_end { result.initialised_end ≡ raw_end_after pieces.now (section_row section.now) start (length section.now.pieces.items) }
    ensures has_bytes { result.has_bytes ≡ bytes_before pieces.now (section_row section.now) (length section.now.pieces.items) }

    ensures bound { result.end ≤ start + length section.now.pieces.items * 4294975488 }
    ensures low { start ≤ result.initialised_end }
    ensures high { result.initialised_end ≤ result.end }
    ensures room { length rvas.new ≡ length pieces.now }

    ensures written { (j : ℕ) → j < length section.now.pieces.items
        → slice_index rvas.new (slice_index section.now.pieces.items j) ≡ saturated (place_of pieces.now (section_row section.now) start j) }
    ensures others { (k : ℕ) → ¬ Contains section.now.pieces.items k → slice_index rvas.new k ≡ slice_index rvas.old k }
{
    let is_pdata = section.name == Name::of(b".pdata");
    let mut extent = Extent {
        end: start,
        initialised_end: start,
        has_bytes: false,
    };
    for index in &section.pieces {
        let piece = &pieces[*index as usize];
        let rva = round_up(extent.end, alignment_of(piece, is_pdata));
        rvas[*index as usize] = saturating_u32(rva);
        let end = rva + size_of(piece);
        extent = extent_with(extent, piece, end);
    }
    extent
}

/// The alignment of a piece. The rows of the exception table stand one after the other.
fn alignment_of(piece: &Piece<'_>, is_pdata: bool) -> u64
    ensures { result ≡ (if is_pdata then 4 else piece.now.align) }
{
    if is_pdata { 4 } else { u64::from(piece.align) }
}

fn size_of(piece: &Piece<'_>) -> u64
    ensures value { result ≡ piece.now.size }
    ensures small { result < 2 ^ 32 }
{
    u64::from(piece.size)
}

/// How far pieces reach with one more that ends at an RVA.
fn extent_with(extent: Extent, piece: &Piece<'_>, end: u64) -> Extent
    ensures end { result.end ≡ end }
    ensures initialised_end { result.initialised_end ≡ (if piece.now.init then end else extent.initialised_end) }
    ensures has_bytes { result.has_bytes ≡ (extent.has_bytes || nat_lt 0 piece.now.size) }
{
    Extent {
        end,
        initialised_end: if piece.init {
            end
        } else {
            extent.initialised_end
        },
        has_bytes: extent.has_bytes || piece.size > 0,
    }
}
