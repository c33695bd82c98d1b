//! What an image shows from where a public symbol stands.

ghost use Rattle.std.specs.Prelude.{◌≡◌, Ok, IfOk, IfErr};
ghost use Rattle.image_show.specs.ShownBytes.{RefusesAs, shown_symbol};

use crate::line::memory_line;
use crate::loading::load;
use crate::place::symbol_rva;
use link_base::{Name, Refusal};
use std::alloc::Global;

/// The line that shows `length` bytes of the memory of an image at a base, from where the program database has the public
/// symbol of a name: at its offset in the section of its number, by the section headers of the image. The line is that of
/// `shown_at`.
///
/// # Errors
///
/// In this order: `BadImage` with what is wrong with the image; `BasePermit` where it may not stand at the base; `BadPdb`
/// with what is wrong with the program database, as far as the search for the name shows; `NoSymbol` where it has no public
/// symbol of the name, or one in a section that the image has not; `LengthRange` where the bytes leave the memory, with
/// the RVA behind them, which may be above 32 bits. `Memory` comes at any time.
pub fn shown_symbol<'a>(
    alloc: Global,
    image: &[u8],
    pdb: &[u8],
    base: u64,
    symbol: Name<'a>,
    length: u32,
) -> Result<Vec<u8>, Refusal<'a>>
    ensures shown { IfOk result (λ line. shown_symbol image.now pdb.now base symbol.entry length ≡ Ok line.items) }
    ensures refused { IfErr result (RefusesAs (shown_symbol image.now pdb.now base symbol.entry length)) }
{
    let made = load(alloc, image, base)?;
    let rva = symbol_rva(&made, pdb, symbol)?;
    memory_line(alloc, made.memory(), base, rva, length)
}
