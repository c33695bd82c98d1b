//! The memory of an image before fields are raised: the headers and the sections, copied from the file, and zeros between
//! and behind them.

ghost use Rattle.std.specs.Prelude.{◌≡◌, ◌+◌, ◌-◌, ◌<◌, ◌≤◌, ◌++◌, None, length, replicate, IfOk, OnOk};
ghost use Rattle.pe_loader.specs.LoadedImage.{section_count, file_fault, copied};
ghost use Rattle.pe_loader.specs.Copying.{IsCopiedBefore};

use crate::headers::{headers_size, section_count, size_of_image};
use crate::section_header::{section_bytes, section_header};
use link_base::{Memory, slice_in};
use std::alloc::Global;

/// The memory of an image before fields are raised.
#[tactic(auto, using(crate::proofs::FaultLemmas::file_table, crate::proofs::FaultLemmas::file_dos))]
pub(crate) fn copied(alloc: Global, image: &[u8]) -> Result<Vec<u8>, Memory>
    requires { file_fault image.now ≡ None }
    ensures { IfOk result (λ memory. memory.items ≡ copied image.now) }
{
    let size = size_of_image(image) as usize;
    let mut memory = Vec::with_capacity(alloc, size)?;
    memory.extend_from_slice(slice_in(image, 0, headers_size(image) as usize))?;
    for index in 0..usize::from(section_count(image)) {
        copy_section(&mut memory, image, index)?;
    }
    push_zeros_to(&mut memory, size)?;
    Ok(memory)
}

/// Appends zeros up to a section, and its bytes.
#[tactic(auto, using(crate::proofs::FaultLemmas::file_table, crate::proofs::FaultLemmas::file_dos))]
fn copy_section(memory: &mut Vec<u8>, image: &[u8], index: usize) -> Result<(), Memory>
    requires file { file_fault image.now ≡ None }
    requires index { index < section_count image.now }
    requires before { IsCopiedBefore image.now index memory.old.items }
    ensures { OnOk result (IsCopiedBefore image.now (index + 1) memory.new.items) }
{
    push_zeros_to(memory, section_header(image, index).rva as usize)?;
    memory.extend_from_slice(section_bytes(image, index))?;
    Ok(())
}

/// Appends zeros up to an RVA.
fn push_zeros_to(memory: &mut Vec<u8>, rva: usize) -> Result<(), Memory>
    requires { length memory.old.items ≤ rva }
    ensures { OnOk result (memory.new.items ≡ memory.old.items ++ replicate (rva - length memory.old.items) 0) }
{
    memory.resize(rva, 0)?;
    Ok(())
}
