//! Laws of the definitions, each the contract of a function that does nothing.

ghost use Rattle.std.specs.Prelude.{◌≡◌, ◌<◌, ◌^◌, ℕ, List, length, map, slice_index};
ghost use Rattle.std.specs.List.{All};
ghost use Rattle.std.specs.List.Sorted.{IsStrictlyIncreasing};
ghost use Rattle.base_reloc.specs.Blocks.{Fields, walk_of, walked_fields, raised_all};
ghost use Rattle.base_reloc.specs.PageBlocks.{IsAscending, LieWithin, page_rva, pages_of, blocks_of};
ghost use Rattle.base_reloc.specs.Raising.{IsOutsideAll, ShareNoByte, AreRaised, HoldRaisedBytes};

use crate::field::BaseField;

/// The table of some fields that lie in a mapped image lists these fields, in order, once each and no other. So to apply
/// the table raises exactly these.
#[tactic(auto, using(crate::proofs::TableLemmas::table_lists))]
pub fn table_lists_its_fields()
    ensures lists { (fields : List BaseField) (memory_size : ℕ) → memory_size < 2 ^ 32 → IsAscending fields → LieWithin memory_size fields
        → walk_of memory_size (blocks_of fields) ≡ Fields fields }
    ensures raises { (fields : List BaseField) (memory : List ℕ) (delta : ℕ) → length memory < 2 ^ 32 → IsAscending fields → LieWithin (length memory) fields
        → raised_all delta memory (walked_fields (walk_of (length memory) (blocks_of fields))) ≡ raised_all delta memory fields }
{}

/// The pages of the blocks ascend, so that no page has two.
#[tactic(auto, using(crate::proofs::PageLemmas::pages_ascend))]
pub fn pages_ascend()
    ensures { (fields : List BaseField) → IsAscending fields
        → IsStrictlyIncreasing (map page_rva (pages_of fields)) }
{}

/// To raise fields that lie in a mapped image changes no byte outside them, and where no two share a byte it raises each
/// by the delta, also where one crosses the end of a page.
#[tactic(auto, using(crate::proofs::RaisedLemmas::length_raised_all, crate::proofs::RaisedLemmas::raised_elsewhere, crate::proofs::RaisedLemmas::raised_each))]
pub fn raising_changes_its_fields_alone()
    ensures size { (fields : List BaseField) (memory : List ℕ) (delta : ℕ) → LieWithin (length memory) fields
        → length (raised_all delta memory fields) ≡ length memory }
    ensures elsewhere { (fields : List BaseField) (memory : List ℕ) (delta rva : ℕ) → LieWithin (length memory) fields → IsOutsideAll rva fields
        → slice_index (raised_all delta memory fields) rva ≡ slice_index memory rva }
    ensures fields { (fields : List BaseField) (memory : List ℕ) (delta : ℕ) → LieWithin (length memory) fields → ShareNoByte fields
        → AreRaised delta memory (raised_all delta memory fields) fields }
{}

/// A memory is another with its fields raised where each field holds the raised number, or the bytes of that number, and no
/// other byte differs.
pub fn raised_numbers_settle_a_memory()
    ensures numbers { (fields : List BaseField) (old new : List ℕ) (delta : ℕ) → All (λ byte. byte < 256) old → All (λ byte. byte < 256) new
        → length new ≡ length old → LieWithin (length old) fields → ShareNoByte fields
        → ((rva : ℕ) → IsOutsideAll rva fields → slice_index new rva ≡ slice_index old rva) → AreRaised delta old new fields
        → raised_all delta old fields ≡ new }
    ensures bytes { (fields : List BaseField) (old new : List ℕ) (delta : ℕ) → length new ≡ length old → LieWithin (length old) fields → ShareNoByte fields
        → ((rva : ℕ) → IsOutsideAll rva fields → slice_index new rva ≡ slice_index old rva) → HoldRaisedBytes delta old new fields
        → raised_all delta old fields ≡ new }
{}
