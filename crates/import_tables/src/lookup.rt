//! An entry of a lookup table, read at an RVA.

ghost use Rattle.std.specs.Prelude.{◌≡◌, ◌≤◌, ◌<◌, ◌+◌, ◌^◌, length};
ghost use Rattle.import_tables.specs.ImportDirectory.{told_rva, hint_and_name, entry_at};

use crate::format::{ORDINAL_FLAG64, SIZEOF_LOOKUP_ENTRY};
use link_base::{cstr, field_u16, u64_in};
use short_import::ImportBy;

/// What an entry says: that the table ends, how the loader finds an import, or that something leaves the memory, at
/// an RVA.
#[derive(Drop)]
pub(crate) enum Entry<'m> {
    End,
    Import(ImportBy<'m>),
    Leaves(u32),
}

/// The entry at `at`, whose slot stands at `slot`.
#[tactic(auto, unfolding(crate::specs::ImportDirectory::entry_at))]
pub(crate) fn entry_at<'m>(memory: &'m [u8], at: usize, slot: usize) -> Entry<'m>
    requires memory { length memory.now < 2 ^ 32 }
    requires there { at + 8 ≤ length memory.now }
    requires slot { slot < 2 ^ 34 }
    ensures { result ≡ entry_at memory.now at slot }
{
    let number = u64_in(memory, at);
    if number == 0 {
        return Entry::End;
    }
    if slot + SIZEOF_LOOKUP_ENTRY > memory.len() {
        return Entry::Leaves(told_rva(slot, at));
    }
    if number >= ORDINAL_FLAG64 {
        return Entry::Import(ImportBy::Ordinal((number % (1 << 16)) as u16));
    }
    match hint_and_name(memory, number as usize) {
        Some(how) => Entry::Import(how),
        None => Entry::Leaves(told_rva(number as usize, at)),
    }
}

/// The RVA that tells of a place which leaves the memory: its own, or that of the entry where it is none.
fn told_rva(place: usize, entry: usize) -> u32
    requires { entry < 2 ^ 32 }
    ensures { result ≡ told_rva place entry }
{
    if place < 1 << 32 {
        place as u32
    } else {
        entry as u32
    }
}

/// The hint and the name at `place`, where they are there.
#[tactic(auto, unfolding(crate::specs::ImportDirectory::hint_and_name))]
fn hint_and_name<'m>(memory: &'m [u8], place: usize) -> Option<ImportBy<'m>>
    requires { place < 2 ^ 63 }
    ensures { result ≡ hint_and_name memory.now place }
{
    let Some(hint) = field_u16(memory, place) else {
        return None;
    };
    match cstr(memory, place + 2) {
        Some(name) => Some(ImportBy::Named { hint, name }),
        None => None,
    }
}
