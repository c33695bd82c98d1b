//! The line of some bytes of a memory.

ghost use Rattle.std.specs.Prelude.{◌≡◌, ◌≤◌, ◌<◌, ◌^◌, Ok, IfOk, IfErr};
ghost use Rattle.image_show.specs.ShownBytes.{RefusesAs, shown_line, memory_shown};

use diagnostics::push_hex_address;
use link_base::{Fault, Memory, Refusal, slice_in};
use std::alloc::Global;

/// The line of the bytes from an RVA on of the memory of an image at a base.
pub(crate) fn memory_line<'a>(
    alloc: Global,
    memory: &[u8],
    base: u64,
    rva: u64,
    length: u32,
) -> Result<Vec<u8>, Refusal<'a>>
    requires low { base ≤ 2 ^ 47 }
    requires small { rva < 2 ^ 33 }
    ensures shown { IfOk result (λ line. memory_shown base rva length memory.now ≡ Ok line.items) }
    ensures refused { IfErr result (RefusesAs (memory_shown base rva length memory.now)) }
{
    let end = rva + u64::from(length);
    if end > memory.len() as u64 {
        return Err(Refusal::Fault(Fault::LengthRange { end }));
    }
    let bytes = slice_in(memory, rva as usize, length as usize);
    Ok(shown_line(alloc, base + rva, bytes)?)
}

/// The line of bytes at an address.
fn shown_line(alloc: Global, address: u64, bytes: &[u8]) -> Result<Vec<u8>, Memory>
    ensures { IfOk result (λ line. line.items ≡ shown_line address bytes.now) }
{
    let mut line = Vec::new(alloc);
    push_hex_address(alloc, &mut line, address)?;
    line.push(b' ')?;
    let digits = hex::encode(alloc, bytes)?;
    line.extend_from_slice(digits.as_bytes())?;
    line.push(b'\n')?;
    Ok(line)
}
