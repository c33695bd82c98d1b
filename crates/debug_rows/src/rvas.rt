//! The RVAs of pieces.

ghost use Rattle.std.specs.Prelude.{◌≡◌, slice_index};

/// The RVA of the piece of an index, or 0 where there is none.
pub(crate) fn rva_at(rvas: &[u32], index: u32) -> u32
    ensures { result ≡ slice_index rvas.now index }
{
    match rvas.get(index as usize) {
        Some(rva) => *rva,
        None => 0,
    }
}
