//! An image as it stands in memory.

use crate::copying::copied;
use crate::directories::{directories, sections};
use crate::error::{LengthRange, ShowError};
use crate::file_judging::file_fault;
use crate::headers::{base_rule, size_of_image};
use crate::raising::raise_fields;
use address_layout::permitted;
use link_base::slice_in;
use std::alloc::Global;

/// An image as it stands in memory: its bytes from RVA 0 on, and the data directories and sections of its file, each an RVA
/// and a size. These are the file's, since a field that base relocations raise may lie in the headers in memory.
#[derive(Drop)]
pub struct Loaded {
    memory: Vec<u8>,
    directories: [(u32, u32); 16],
    sections: Vec<(u32, u32)>,
}

impl Loaded {
    ghost use Rattle.std.specs.Prelude.{◌≡◌, ◌+◌, ◌<◌, true, false, IfOk, IfErr};
    ghost use Rattle.link_base.specs.Bytes.{bytes_at, has_bytes};
    ghost use Rattle.pe_loader.specs.Loading.{memory_of, directory_of, section_of, IsLoaded, RefusesLoad};

    /// The image of a file at a base: the headers and the bytes of each section, copied to their RVAs, zeros elsewhere, and
    /// each field that the base relocations list raised by how far the base lies above the image's own (PE Format, "Section
    /// Table (Section Headers)" and "The .reloc Section (Image Only)"). Imports are not bound, and pages are not protected.
    ///
    /// # Errors
    ///
    /// `BadImage` where the file is no image, with the kind of the first test that fails; else `BasePermit` where the image
    /// may not stand at the base; and `Memory`.
    #[tactic(auto, using(crate::proofs::FaultLemmas::file_table, crate::proofs::FaultLemmas::file_dos, crate::proofs::FaultLemmas::file_fault_stands))]
    pub fn load(alloc: Global, image: &[u8], base: u64) -> Result<Loaded, ShowError>
        ensures loaded { IfOk result (λ made. IsLoaded image.now base made) }
        ensures refused { IfErr result (λ error. RefusesLoad image.now base error) }
    {
        if let Some(kind) = file_fault(image) {
            return Err(ShowError::BadImage(kind));
        }
        let mut memory = copied(alloc, image)?;
        raise_fields(alloc, &mut memory, image, base)?;
        if !permitted(&base_rule(image), size_of_image(image), base) {
            return Err(ShowError::BasePermit);
        }
        let sections = sections(alloc, image)?;
        Ok(Loaded {
            memory,
            directories: directories(image),
            sections,
        })
    }

    /// The `length` bytes from an RVA on.
    ///
    /// # Errors
    ///
    /// `LengthRange` where they leave the memory, with the RVA behind them.
    pub fn bytes(&self, rva: u32, length: u32) -> Result<&[u8], LengthRange>
        ensures found { IfOk result (λ part. part.now ≡ bytes_at (memory_of self.now) rva length) }
        ensures inside { IfOk result (λ _. has_bytes (memory_of self.now) rva length ≡ true) }
        ensures refused { IfErr result (λ range. range.end ≡ rva + length) }
        ensures outside { IfErr result (λ _. has_bytes (memory_of self.now) rva length ≡ false) }
    {
        let end = u64::from(rva) + u64::from(length);
        if end > self.memory.len() as u64 {
            return Err(LengthRange { end });
        }
        Ok(slice_in(&self.memory, rva as usize, length as usize))
    }

    /// The bytes from RVA 0 on.
    pub fn memory(&self) -> &[u8]
        ensures { result.now ≡ memory_of self.now }
    {
        &self.memory
    }

    /// A data directory, by its number in PE Format, "Optional Header Data Directories (Image Only)": its RVA and its size,
    /// both 0 where the image has none.
    pub fn directory(&self, k: u32) -> (u32, u32)
        requires { k < 16 }
        ensures { result ≡ directory_of self.now k }
    {
        self.directories[k as usize]
    }

    /// The section of this number, from 1 on as in the section numbers of symbols: its RVA and its size in memory. None for
    /// 0 and beyond the last.
    pub fn section(&self, n: u32) -> Option<(u32, u32)>
        ensures { result ≡ section_of self.now n }
    {
        if n == 0 {
            return None;
        }
        self.sections.get(n as usize - 1).copied()
    }
}
