//! The debug directory of an image, which has one entry, and the data of the entry.

ghost use Rattle.std.specs.Prelude.{◌≡◌, ◌^◌, ◌<◌, ℕ, List, length, IfOk};
ghost use Rattle.debug_entry.specs.DebugDirectory.{debug_entry, debug_data};

use link_base::{LeNumber, Memory, Name, push_fields};
use std::alloc::Global;

/// The size of an entry.
pub const ENTRY_SIZE: u32 = 28;

/// The type of an entry that names a PDB (PE Format, "Debug Type").
const CODEVIEW: u32 = 2;

/// What the data of such an entry begins with.
const SIGNATURE: &[u8] = b"RSDS";

/// How often the PDB was written.
const AGE: u32 = 1;

/// The bytes of the data before the name of the PDB: the signature, the identifier and the age.
const FRONT: usize = 24;

/// The entry of data of a length, at an RVA and at a place in the file (PE Format, "Debug Directory (Image Only)").
#[tactic(auto, unfolding(crate::specs::DebugDirectory::debug_entry, link_base::specs::Bytes::number_bytes))]
pub fn debug_entry(
    alloc: Global,
    time: u32,
    len: u32,
    rva: u32,
    file: u32,
) -> Result<Vec<u8>, Memory>
    ensures entry { IfOk result (λ bytes. bytes.items ≡ debug_entry time len rva file) }
    ensures size { IfOk result (λ bytes. length bytes.items ≡ ENTRY_SIZE) }
{
    let mut out = Vec::with_capacity(alloc, ENTRY_SIZE as usize)?;
    push_fields(
        &mut out,
        &[
            LeNumber::U32(0),
            LeNumber::U32(time),
            LeNumber::U16(0),
            LeNumber::U16(0),
            LeNumber::U32(CODEVIEW),
            LeNumber::U32(len),
            LeNumber::U32(rva),
            LeNumber::U32(file),
        ],
    )?;
    Ok(out)
}

/// How long the data is that names a PDB.
#[tactic(auto, unfolding(crate::specs::DebugDirectory::debug_data))]
pub fn data_length(pdb: &Name<'_>) -> usize
    requires { length pdb.now < 2 ^ 32 }
    ensures { (identifier : List ℕ) → length identifier ≡ 16 → result ≡ length (debug_data identifier pdb.now) }
{
    FRONT + pdb.len() + 1
}

/// The data that names a PDB, and the identifier that it has too (LLVM, "The PDB Info Stream (aka the PDB Stream)", "Matching
/// a PDB to its executable").
#[tactic(auto, unfolding(crate::specs::DebugDirectory::debug_data))]
pub fn debug_data(alloc: Global, id: &[u8; 16], pdb: &Name<'_>) -> Result<Vec<u8>, Memory>
    ensures { IfOk result (λ bytes. bytes.items ≡ debug_data id.now pdb.now) }
{
    let mut out = Vec::new(alloc);
    out.extend_from_slice(SIGNATURE)?;
    out.extend_from_slice(id)?;
    push_fields(&mut out, &[LeNumber::U32(AGE)])?;
    pdb.push_to(&mut out)?;
    out.push(0)?;
    Ok(out)
}
