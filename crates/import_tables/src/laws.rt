//! Laws of the definitions, each the contract of a function that does nothing.

ghost use Rattle.std.specs.Prelude.{◌≡◌, ◌<◌, ◌≤◌, ◌+◌, ◌*◌, ◌⊎◌, ℕ, List, length, slice_index, Contains};
ghost use Rattle.import_tables.specs.ImportDirectory.{Imports, entries_from, entries_of, descriptors_from, imports_of, import_of};
ghost use Rattle.import_tables.specs.ImportShape.{dlls_of, dll_at, by_at, count_of, entry_count, table_start, slot_offset, sizes_of};
ghost use Rattle.import_tables.specs.ImportTables.{EndBelow4G, slots_rva};
ghost use Rattle.import_tables.specs.ReadBack.{HoldsTables, StandAboveZero, AreReadable, found_of};

use crate::row::ImportRow;

/// A walk that may read more entries or descriptors than the memory has bytes reads no more of them for that: each lies
/// behind the one before.
#[tactic(auto, using(crate::proofs::WalkLemmas::more_entries, crate::proofs::WalkLemmas::more_descriptors))]
pub fn more_is_never_read()
    ensures entries { (most : ℕ) (memory dll : List ℕ) (at slot : ℕ) → length memory < most
        → entries_from most memory dll at slot ≡ entries_of memory dll at slot }
    ensures descriptors { (most : ℕ) (memory : List ℕ) (at : ℕ) → length memory < most
        → descriptors_from most memory at ≡ descriptors_from (length memory + 1) memory at }
{}

/// No two imports share a byte of a slot. The slots of a DLL's imports stand in its table, with room for the eight bytes
/// of zeros that end it, and the table stands within all.
#[tactic(auto, using(crate::proofs::ApartLemmas::slots_apart, crate::proofs::ApartLemmas::slot_within, crate::proofs::ApartLemmas::table_within))]
pub fn slots_stand_apart()
    ensures apart { (rows : List ImportRow) (j k : ℕ) → j < k → k < length rows
        → (slot_offset rows j + 8 ≤ slot_offset rows k) ⊎ (slot_offset rows k + 8 ≤ slot_offset rows j) }
    ensures in_table { (rows : List ImportRow) (k : ℕ) → k < length rows
        → (8 * table_start rows (dll_at rows k) ≤ slot_offset rows k)
        × (slot_offset rows k + 8 ≤ 8 * (table_start rows (dll_at rows k) + count_of (dll_at rows k) rows)) }
    ensures tables { (rows : List ImportRow) (k : ℕ) → k < length rows
        → 8 * (table_start rows (dll_at rows k) + count_of (dll_at rows k) rows) + 8 ≤ 8 * entry_count rows (dlls_of rows) }
{}

/// What is found in a mapped image that holds the tables of some imports is these imports, DLL by DLL, each with its slot. No
/// name has a NUL, ordinals and hints fit their fields, the tables end below 2^32, and none that has bytes stands at RVA 0.
#[tactic(auto, using(crate::proofs::DirectoryReadLemmas::tables_read_back))]
pub fn filled_tables_are_read_back()
    ensures { (rows : List ImportRow) (rvas memory : List ℕ) → 0 < length rows → AreReadable rows → EndBelow4G rvas (sizes_of rows) → StandAboveZero rows rvas
        → HoldsTables memory rows rvas → imports_of memory (slice_index rvas 0) ≡ Imports (found_of rows rvas) }
{}

/// Each import is found with its own slot: that at its offset among the slots.
#[tactic(auto, using(crate::proofs::FoundLemmas::found_with_slot))]
pub fn each_import_is_found_with_its_slot()
    ensures { (rows : List ImportRow) (rvas : List ℕ) (k : ℕ) → k < length rows
        → Contains (found_of rows rvas) (import_of (dll_at rows k) (by_at rows k) (slots_rva rvas + slot_offset rows k)) }
{}
