//! What an image shows from an RVA on.

ghost use Rattle.std.specs.Prelude.{◌≡◌, Ok, IfOk, IfErr};
ghost use Rattle.image_show.specs.ShownBytes.{RefusesAs, shown_at};

use crate::line::memory_line;
use crate::loading::load;
use link_base::Refusal;
use std::alloc::Global;

/// The line that shows `length` bytes from an RVA on of the memory of an image at a base: the address in sixteen upper-case
/// hexadecimal digits, a blank, the bytes in lower-case hexadecimal digits, and a newline.
///
/// # Errors
///
/// In this order: `BadImage` with what is wrong with the image; `BasePermit` where it may not stand at the base;
/// `LengthRange` where the bytes leave its memory, with the RVA behind them. `Memory` comes at any time.
pub fn shown_at<'a>(
    alloc: Global,
    image: &[u8],
    base: u64,
    rva: u32,
    length: u32,
) -> Result<Vec<u8>, Refusal<'a>>
    ensures shown { IfOk result (λ line. shown_at image.now base rva length ≡ Ok line.items) }
    ensures refused { IfErr result (RefusesAs (shown_at image.now base rva length)) }
{
    let made = load(alloc, image, base)?;
    memory_line(alloc, made.memory(), base, u64::from(rva), length)
}
