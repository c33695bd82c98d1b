//! The image in memory, or the fault that says why it is not.

ghost use Rattle.std.specs.Prelude.{◌≡◌, ◌≤◌, ◌^◌, ℕ, Ok, IfOk, OnOk, IfErr};
ghost use Rattle.pe_loader.specs.Extents.{numbered_section};
ghost use Rattle.pe_loader.specs.Loading.{memory_of, section_of};
ghost use Rattle.image_show.specs.ShownBytes.{RefusesAs, image_memory};

use link_base::{Fault, Refusal};
use pe_loader::{Loaded, ShowError};
use std::alloc::Global;

/// Loads an image at a base. Such a base is far from the end of 64 bits.
pub(crate) fn load<'a>(alloc: Global, image: &[u8], base: u64) -> Result<Loaded, Refusal<'a>>
    ensures memory { IfOk result (λ made. image_memory image.now base ≡ Ok (memory_of made)) }
    ensures sections { IfOk result (λ made. (number : ℕ) → section_of made number ≡ numbered_section image.now number) }
    ensures low { OnOk result (base ≤ 2 ^ 47) }
    ensures refused { IfErr result (RefusesAs (image_memory image.now base)) }
{
    match Loaded::load(alloc, image, base) {
        Ok(made) => Ok(made),
        Err(ShowError::BadImage(kind)) => Err(Refusal::Fault(Fault::BadImage { kind })),
        Err(ShowError::BasePermit) => Err(Refusal::Fault(Fault::BasePermit { base })),
        Err(ShowError::Memory) => Err(Refusal::Memory),
    }
}
