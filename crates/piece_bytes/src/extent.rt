//! The RVAs and the sizes of pieces that may not be there.

ghost use Rattle.std.specs.Prelude.{◌≡◌, ◌<◌, ◌+◌, ◌^◌, length, IfSome};
ghost use Rattle.piece_bytes.specs.Extents.{rva_of, extent_of};

use section_group::Piece;

/// The RVA of a piece, or 0 where there is none.
pub fn rva_of(rvas: &[u32], place: Option<usize>) -> u32
    requires { IfSome place (λ k. k < length rvas.now) }
    ensures { result ≡ rva_of rvas.now place }
{
    match place {
        None => 0,
        Some(k) => rvas[k],
    }
}

/// The RVA and the size of a piece, or zeros where there is none.
pub fn extent_of(pieces: &[Piece<'_>], rvas: &[u32], place: Option<usize>) -> (u32, u32)
    requires rva { IfSome place (λ k. k < length rvas.now) }
    requires piece { IfSome place (λ k. k < length pieces.now) }
    ensures { result ≡ extent_of pieces.now rvas.now place }
{
    match place {
        None => (0, 0),
        Some(k) => (rvas[k], pieces[k].size),
    }
}

/// The RVA of an offset in a piece, whose RVA is given.
pub fn rva_in(rva: u32, offset: u32) -> u32
    requires { rva < 2 ^ 32 → rva + offset < 2 ^ 32 }
    ensures { result ≡ rva + offset }
{
    rva + offset
}
