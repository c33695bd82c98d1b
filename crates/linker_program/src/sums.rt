//! Sums of the bytes of an image's code, as it stands in memory.

ghost use Rattle.std.specs.Prelude.{◌≡◌, ◌<◌, ◌^◌, length, sum, IfOk};
ghost use Rattle.link_base.specs.Bytes.{bytes_at};
ghost use Rattle.pe_loader.specs.Loading.{memory_of, section_of};
ghost use Rattle.linker_program.specs.Generated.{extent_sum, sum_at};

use link_base::Memory;
use pe_loader::{Loaded, ShowError};
use std::alloc::Global;

/// The base of an image for which no word says another one.
pub(crate) const OWN_BASE: u64 = 0x1_4000_0000;

/// A base that the image is moved to.
pub(crate) const OTHER_BASE: u64 = 0x1_5000_0000;

/// The sum of the bytes of the first section, in the memory of the image at a base; none where it may not stand there.
#[tactic(auto, unfolding(crate::specs::Generated::sum_at))]
pub(crate) fn sum_at(alloc: Global, image: &[u8], base: u64) -> Result<Option<u64>, Memory>
    ensures { IfOk result (λ sum. sum ≡ sum_at image.now base) }
{
    match Loaded::load(alloc, image, base) {
        Ok(made) => Ok(Some(first_section_sum(&made))),
        Err(ShowError::BadImage(_)) => Ok(None),
        Err(ShowError::BasePermit) => Ok(None),
        Err(ShowError::Memory) => Err(Memory),
    }
}

fn first_section_sum(made: &Loaded) -> u64
    ensures { result ≡ extent_sum (memory_of made.now) (section_of made.now 1) }
{
    match made.section(1) {
        Some((rva, size)) => sum_of(part_of(made.memory(), rva, size)),
        None => 0,
    }
}

/// The bytes from an RVA on, as many as there are.
fn part_of(memory: &[u8], rva: u32, size: u32) -> &[u8]
    ensures part { result.now ≡ bytes_at memory.now rva size }
    ensures small { length result.now < 2 ^ 32 }
{
    let rest = memory.get(rva as usize..).unwrap_or(&[]);
    rest.get(..size as usize).unwrap_or(rest)
}

fn sum_of(bytes: &[u8]) -> u64
    requires { length bytes.now < 2 ^ 32 }
    ensures { result ≡ sum bytes.now }
{
    let mut sum = 0;
    for byte in bytes {
        sum += u64::from(*byte);
    }
    sum
}
