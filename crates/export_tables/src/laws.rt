//! Laws of the definitions, each the contract of a function that does nothing.

ghost use Rattle.std.specs.Prelude.{◌≡◌, ◌≢◌, ◌<◌, ◌+◌, ◌^◌, ℕ, List, None, length, slice_index};
ghost use Rattle.std.specs.List.{All, AllZip};
ghost use Rattle.export_tables.specs.ExportDirectory.{export_of_name, export_of_ordinal};
ghost use Rattle.export_tables.specs.Ordinals.{ordinals_of, ordinal_fault};
ghost use Rattle.export_tables.specs.ReadBack.{Holds, AreReadable, exported_name, exported_ordinal, SameSize};
ghost use Rattle.export_tables.specs.declared.row.ExportRow.{ExportRow};
ghost use Rattle.export_tables.specs.ExportTable.{AreNumbered, table_size, export_table};

use directives::Export;

/// The ordinals that are assigned lie from 1 to 65,535, and no two exports have one.
#[tactic(auto, using(crate::proofs::AssignedLemmas::ordinals_differ, crate::proofs::AssignedLemmas::ordinals_fit))]
pub fn assigned_ordinals_differ()
    ensures differ { (rows : List Export) (i j : ℕ) → ordinal_fault rows ≡ None → i < j → j < length rows
        → slice_index (ordinals_of rows) i ≢ slice_index (ordinals_of rows) j }
    ensures fit { (rows : List Export) → ordinal_fault rows ≡ None
        → All (λ ordinal. (0 < ordinal) × (ordinal < 2 ^ 16)) (ordinals_of rows) }
{}

/// The bytes of an export directory with its tables are as many as its size says, wherever it stands and of whatever time.
#[tactic(auto, using(crate::proofs::LengthLemmas::size_of_table))]
pub fn table_has_its_size()
    ensures { (rows : List ExportRow) (ordinals dll : List ℕ) (time rva : ℕ) → AreNumbered rows ordinals
        → length (export_table rows ordinals dll time rva) ≡ table_size rows ordinals dll }
{}

/// Rows that differ from others at most in their RVAs, in the bytes of forwarders and in the ordinals that they ask for take as
/// many bytes: so the size is known before the RVAs are.
#[tactic(auto, using(crate::proofs::SizeLemmas::same_table_size, crate::proofs::SizeLemmas::same_numbered))]
pub fn size_is_that_of_rows_without_places()
    ensures size { (rows others : List ExportRow) (ordinals dll : List ℕ) → AllZip SameSize rows others
        → table_size rows ordinals dll ≡ table_size others ordinals dll }
    ensures numbered { (rows others : List ExportRow) (ordinals : List ℕ) → AllZip SameSize rows others
        → AreNumbered rows ordinals → AreNumbered others ordinals }
{}

/// What is found in a mapped image that holds the table of some rows is what these export: by each name what the row of this
/// name exports, and by each number what the row that has it exports, or nothing where there is no such row. No name and no
/// forwarder has a NUL, names differ, ordinals have 16 bits, no RVA of a row is 0 or lies in the table, and the table ends
/// below 2^32.
#[tactic(auto, using(crate::proofs::NameReadLemmas::name_read_back, crate::proofs::OrdinalReadLemmas::ordinal_read_back))]
pub fn filled_table_is_read_back()
    ensures by_name { (rows : List ExportRow) (ordinals dll : List ℕ) (time rva : ℕ) (memory name : List ℕ) → AreNumbered rows ordinals → All (λ ordinal. ordinal < 2 ^ 16) ordinals
        → AreReadable rows rva (table_size rows ordinals dll) → rva + table_size rows ordinals dll < 2 ^ 32 → Holds memory rva (export_table rows ordinals dll time rva)
        → export_of_name memory rva (table_size rows ordinals dll) name ≡ exported_name rows name }
    ensures by_ordinal { (rows : List ExportRow) (ordinals dll : List ℕ) (time rva : ℕ) (memory : List ℕ) (ordinal : ℕ) → AreNumbered rows ordinals → All (λ number. number < 2 ^ 16) ordinals
        → AreReadable rows rva (table_size rows ordinals dll) → rva + table_size rows ordinals dll < 2 ^ 32 → Holds memory rva (export_table rows ordinals dll time rva)
        → export_of_ordinal memory rva (table_size rows ordinals dll) ordinal ≡ exported_ordinal rows ordinals ordinal }
{}
