//! The walk over the import directory of a mapped image.

ghost use Rattle.std.specs.Prelude.{◌≡◌, ◌≤◌, ◌<◌, ◌+◌, ◌^◌, length, IfOk, OnOk, IfErr, ◌++◌, ◌∷◌, []};
ghost use Rattle.import_tables.specs.ImportDirectory.{Imports, then_walk, import_of, entries_of, is_last, descriptor_imports, imports_of, IsRefusal};

use crate::format::{SIZEOF_IMPORT_DESCRIPTOR, SIZEOF_LOOKUP_ENTRY};
use crate::found::{ImportFound, TableError};
use crate::lookup::{Entry, entry_at};
use link_base::{Memory, Name, cstr, u32_in, u64_in};
use short_import::ImportBy;
use std::alloc::Global;

/// The imports of a mapped image, in the order of its tables. `memory[r]` is the byte at RVA r, and the import directory
/// stands at `rva`, or is missing where this is 0 (PE Format, "The .idata Section").
///
/// A descriptor is read, the name of its DLL, and then for each entry of its lookup table the entry, its slot's eight
/// bytes, and its hint and name where it has them. Of a descriptor or an entry of zeros, which end a table, nothing more
/// is read.
///
/// # Errors
///
/// `Range` where the first of these leaves the memory.
pub fn read_imports<'m>(
    alloc: Global,
    memory: &'m [u8],
    rva: u32,
) -> Result<Vec<ImportFound<'m>>, TableError>
    requires { length memory.now < 2 ^ 32 }
    ensures found { IfOk result (λ found. imports_of memory.now rva ≡ Imports found.items) }
    ensures refused { IfErr result (IsRefusal (imports_of memory.now rva)) }
{
    let mut found = Vec::new(alloc);
    if rva == 0 {
        return Ok(found);
    }
    let mut at = rva as usize;
    while at + SIZEOF_IMPORT_DESCRIPTOR <= memory.len() {
        if is_last(memory, at) {
            return Ok(found);
        }
        read_descriptor(&mut found, memory, at)?;
        at += SIZEOF_IMPORT_DESCRIPTOR;
    }
    Err(TableError::Range(at as u32))
}

/// Whether the descriptor at `at` ends the directory.
#[tactic(auto, unfolding(crate::specs::ImportDirectory::is_last))]
fn is_last(memory: &[u8], at: usize) -> bool
    requires { at + 20 ≤ length memory.now }
    ensures { result ≡ is_last memory.now at }
{
    u64_in(memory, at) == 0 && u64_in(memory, at + 8) == 0 && u32_in(memory, at + 16) == 0
}

/// Appends the imports of the descriptor at `at`.
#[tactic(auto, unfolding(crate::specs::ImportDirectory::descriptor_imports))]
fn read_descriptor<'m>(
    found: &mut Vec<ImportFound<'m>>,
    memory: &'m [u8],
    at: usize,
) -> Result<(), TableError>
    requires memory { length memory.now < 2 ^ 32 }
    requires there { at + 20 ≤ length memory.now }
    ensures more { OnOk result (then_walk (Imports found.old.items) (descriptor_imports memory.now at) ≡ Imports found.new.items) }
    ensures refused { IfErr result (IsRefusal (descriptor_imports memory.now at)) }
{
    let name = u32_in(memory, at + 12);
    match cstr(memory, name as usize) {
        Some(dll) => read_entries(
            found,
            memory,
            &dll,
            u32_in(memory, at),
            u32_in(memory, at + 16),
        ),
        None => Err(TableError::Range(name)),
    }
}

/// Appends the imports of a DLL by the entries from the RVA `lookup` on, whose slots stand from `slots` on.
fn read_entries<'m>(
    found: &mut Vec<ImportFound<'m>>,
    memory: &'m [u8],
    dll: &Name<'m>,
    lookup: u32,
    slots: u32,
) -> Result<(), TableError>
    requires { length memory.now < 2 ^ 32 }
    ensures more { OnOk result (then_walk (Imports found.old.items) (entries_of memory.now dll.now lookup slots) ≡ Imports found.new.items) }
    ensures refused { IfErr result (IsRefusal (entries_of memory.now dll.now lookup slots)) }
{
    let mut at = lookup as usize;
    let mut slot = slots as usize;
    while at + SIZEOF_LOOKUP_ENTRY <= memory.len() {
        match entry_at(memory, at, slot) {
            Entry::End => return Ok(()),
            Entry::Leaves(rva) => return Err(TableError::Range(rva)),
            Entry::Import(by) => push_import(found, dll, by, slot as u32)?,
        }
        at += SIZEOF_LOOKUP_ENTRY;
        slot += SIZEOF_LOOKUP_ENTRY;
    }
    Err(TableError::Range(at as u32))
}

/// Appends an import of a DLL.
fn push_import<'m>(
    found: &mut Vec<ImportFound<'m>>,
    dll: &Name<'m>,
    by: ImportBy<'m>,
    slot: u32,
) -> Result<(), Memory>
    ensures { OnOk result (found.new.items ≡ found.old.items ++ (import_of dll.now by.entry slot ∷ [])) }
{
    found.push(ImportFound {
        dll: dll.again(),
        by,
        slot,
    })?;
    Ok(())
}
