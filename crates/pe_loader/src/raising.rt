//! Base relocations applied to the memory of an image.

ghost use Rattle.std.specs.Prelude.{◌≡◌, ◌+◌, ◌≤◌, None, length, OnOk, IfErr};
ghost use Rattle.base_reloc.specs.Blocks.{walked_fields, raised_all};
ghost use Rattle.pe_loader.specs.LoadedImage.{image_base, base_delta, base_walk, copied, file_fault, image_fault};
ghost use Rattle.pe_loader.specs.Loading.{RefusesLoad};

use crate::directories::directory;
use crate::error::ShowError;
use crate::headers::base_rule;
use base_reloc::apply;
use link_base::pe_format::DIRECTORY_ENTRY_BASERELOC;
use link_base::{ImageKind, slice_in};
use std::alloc::Global;

/// Raises the fields that the base relocations of an image list by how far the base lies above the image's own. The blocks
/// are read before a field is raised, since a field may lie in them.
///
/// # Errors
///
/// `BadImage` of `Blocks` where the directory leaves the memory or a block is malformed, and `Memory`.
#[tactic(auto, using(crate::proofs::FaultLemmas::file_table, crate::proofs::FaultLemmas::file_dos))]
pub(crate) fn raise_fields(
    alloc: Global,
    memory: &mut [u8],
    image: &[u8],
    base: u64,
) -> Result<(), ShowError>
    requires file { file_fault image.now ≡ None }
    requires copied { memory.old ≡ copied image.now }
    ensures fine { OnOk result (image_fault image.now ≡ None) }
    ensures raised { OnOk result (memory.new
        ≡ raised_all (base_delta (image_base image.now) base) (copied image.now) (walked_fields (base_walk image.now))) }
    ensures refused { IfErr result (λ error. RefusesLoad image.now base error) }
{
    let (rva, size) = directory(image, DIRECTORY_ENTRY_BASERELOC);
    if size == 0 {
        return Ok(());
    }
    if rva as usize + size as usize > memory.len() {
        return Err(ShowError::BadImage(ImageKind::Blocks));
    }
    let blocks = Vec::from_slice(alloc, slice_in(memory, rva as usize, size as usize))?;
    match apply(memory, &blocks, base.wrapping_sub(base_rule(image).base)) {
        Ok(()) => Ok(()),
        Err(_) => Err(ShowError::BadImage(ImageKind::Blocks)),
    }
}
