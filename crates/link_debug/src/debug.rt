//! What a link says of its PDB.

ghost use Rattle.std.specs.Prelude.{◌≡◌, ◌≤◌, ◌<◌, ℕ, List, length, IfOk, IfSome};
ghost use Rattle.address_layout.specs.Layout.{placed_at};
ghost use Rattle.address_layout.specs.declared.layout.Placed.{Placed as PlacedView};
ghost use Rattle.link_words.specs.Outcome.{options_said};
ghost use Rattle.link_debug.specs.LinkDebug.{debug_of, data_size, has_rva, section_with, file_place, entry_bytes, data_bytes};

use address_layout::Placed;
use debug_entry::{data_length, debug_data, debug_entry};
use link_base::{Memory, NAME_LIMIT, Name};
use link_words::Options;
use std::alloc::Global;
use std::marker::Model;

/// The name of a PDB is at most so long: that of an image, with an extension behind a name that has none.
const PDB_LIMIT: usize = NAME_LIMIT + 4;

/// What an image says of its PDB: the time of both and its name, and the size of the data that holds the name, which is 0
/// where no PDB is asked for.
#[derive(Drop)]
pub struct LinkDebug {
    time: u32,
    pdb: Vec<u8>,
    size: u32,
}

impl Model for LinkDebug {
    ghost use Rattle.link_debug.specs.LinkDebug.{DebugView};

    ghost Value = { DebugView };

    ghost view = { λ debug. record { time = debug.time; pdb = debug.pdb.items; size = debug.size } };
}

impl LinkDebug {
    /// What these options say. A name of more than 32,004 bytes, which words do not have, is want of memory.
    pub fn of(alloc: Global, options: &Options<'_>) -> Result<LinkDebug, Memory>
        ensures { IfOk result (λ debug. debug ≡ debug_of (options_said options.now)) }
    {
        let name = options.pdb.as_bytes();
        if name.len() > PDB_LIMIT {
            return Err(Memory);
        }
        let size = if options.debug { data_size(name) } else { 0 };
        Ok(LinkDebug {
            time: options.time,
            pdb: name.to_vec(alloc)?,
            size,
        })
    }

    /// The size of the data; 0 where no PDB is asked for.
    pub fn size(&self) -> u32
        ensures { result ≡ self.now.size }
    {
        self.size
    }

    /// The entry of the debug directory, whose data stands at an RVA in an image with these sections. It has no bytes where no
    /// PDB is asked for.
    #[tactic(auto, unfolding(crate::specs::LinkDebug::entry_bytes))]
    pub fn entry(&self, alloc: Global, sections: &[Placed], rva: u32) -> Result<Vec<u8>, Memory>
        ensures { IfOk result (λ bytes. bytes.items ≡ entry_bytes self.now sections.now rva) }
    {
        if self.size == 0 {
            return Ok(Vec::new(alloc));
        }
        debug_entry(alloc, self.time, self.size, rva, file_place(sections, rva))
    }

    /// The data that names the PDB, with this identifier. It has no bytes where none is asked for.
    #[tactic(auto, unfolding(crate::specs::LinkDebug::data_bytes))]
    pub fn data(&self, alloc: Global, id: &[u8; 16]) -> Result<Vec<u8>, Memory>
        ensures { IfOk result (λ bytes. bytes.items ≡ data_bytes self.now id.now) }
    {
        if self.size == 0 {
            return Ok(Vec::new(alloc));
        }
        debug_data(alloc, id, &Name::of(&self.pdb))
    }
}

/// The size of the data that names this PDB.
#[tactic(auto, unfolding(crate::specs::LinkDebug::data_size))]
fn data_size(pdb: &[u8]) -> u32
    requires { length pdb.now ≤ PDB_LIMIT }
    ensures { result ≡ data_size pdb.now }
{
    data_length(&Name::of(pdb)) as u32
}

/// The place in the file of what stands at an RVA in these sections, or 0 where it stands in none.
fn file_place(sections: &[Placed], rva: u32) -> u32
    ensures { result ≡ file_place sections.now rva }
{
    match section_with(sections, rva) {
        Some(i) => sections[i].file.wrapping_add(rva - sections[i].rva),
        None => 0,
    }
}

/// The index of the first of these sections that has an RVA.
fn section_with(sections: &[Placed], rva: u32) -> Option<usize>
    ensures index { result ≡ section_with sections.now rva }
    ensures within { IfSome result (λ i. i < length sections.now) }
    ensures above { IfSome result (λ i. (placed_at sections.now i).rva ≤ rva) }
{
    for i in 0..sections.len() {
        if has_rva(&sections[i], rva) {
            return Some(i);
        }
    }
    None
}

/// Whether a section has an RVA.
fn has_rva(section: &Placed, rva: u32) -> bool
    ensures { (sections : List PlacedView) (i : ℕ) → placed_at sections i ≡ section.now → result ≡ has_rva sections rva i }
{
    section.rva <= rva && rva - section.rva < section.size
}
