//! Laws of the definitions and of the types, each the contract of a function that does nothing.

ghost use Rattle.std.specs.Prelude.{◌≡◌, ℕ, ◌+◌, ◌-◌, ◌*◌, ◌%◌, ◌^◌, ◌<◌, pos, ◌+ℤ◌, ◌-ℤ◌, Bool, true, false, List, [], length, map, slice_index, Some, None};
ghost use Rattle.std.specs.List.{All};
ghost use Rattle.link_base.specs.Bytes.{number_at};
ghost use Rattle.address_layout.specs.declared.layout.Layout.{Layout};
ghost use Rattle.relocate.specs.declared.fix.Fix.{Fix};
ghost use Rattle.relocate.specs.declared.range.RelocRange.{RelocRange};
ghost use Rattle.relocate.specs.Field.{has_field, field_width, fix_at};
ghost use Rattle.relocate.specs.Judged.{AreTheFields, ArePatchable};
ghost use Rattle.relocate.specs.PatchedBytes.{patched_bytes, range_fault, is_based, AreNumbered, IsSuited, AreSuited, HaveNoBased};
ghost use Rattle.relocate.specs.Redirected.{redirected_fix};
ghost use Rattle.relocate.specs.Value.{IsLeastOutside, IsOutside, value_of, fits};

use crate::fixups::Fixups;
use link_base::is_shared;

/// Relocations in the order of their indexes patch the bytes that their fields in ascending order patch, and `patch`
/// refuses the first of them whose value is out of range.
pub fn patches_in_any_order()
    ensures bytes { (base rva : ℕ) (layout : Layout) (owner : List ℕ) (fixes fixups : List Fix) (bytes : List ℕ) (len : ℕ) → AreTheFields fixes fixups → ArePatchable len fixups
        → patched_bytes base rva layout owner fixups bytes ≡ patched_bytes base rva layout owner fixes bytes }
    ensures refused { (base rva : ℕ) (layout : Layout) (owner : List ℕ) (fixes fixups : List Fix) (bytes : List ℕ) (range : RelocRange) → AreTheFields fixes fixups → AreNumbered fixes
        → IsLeastOutside base rva layout owner fixups bytes range → range_fault base rva layout owner fixes bytes ≡ Some range }
    ensures in_range { (base rva : ℕ) (layout : Layout) (owner : List ℕ) (fixes fixups : List Fix) (bytes : List ℕ) → AreTheFields fixes fixups
        → All (λ fix. fits base rva layout owner bytes fix ≡ true) fixups → range_fault base rva layout owner fixes bytes ≡ None }
{}

/// Another base moves the values of the fields that hold addresses, by the difference of the bases, and no others. So it
/// changes no byte where no field holds one. It moves no value into its range or out of it.
pub fn values_stay_at_other_bases()
    ensures stays { (large pdata : Bool) (base other rva : ℕ) (layout : Layout) (owner bytes : List ℕ) (fix : Fix) → has_field fix ≡ true → IsSuited large pdata fix
        → is_based fix ≡ false → value_of base rva layout owner bytes fix ≡ value_of other rva layout owner bytes fix }
    ensures moves { (large pdata : Bool) (base other rva : ℕ) (layout : Layout) (owner bytes : List ℕ) (fix : Fix) → IsSuited large pdata fix
        → is_based fix ≡ true → value_of other rva layout owner bytes fix ≡ value_of base rva layout owner bytes fix +ℤ (pos other -ℤ pos base) }
    ensures bytes { (large pdata : Bool) (base other rva : ℕ) (layout : Layout) (owner : List ℕ) (fixes : List Fix) (bytes : List ℕ) → AreSuited large pdata fixes
        → HaveNoBased fixes → patched_bytes base rva layout owner fixes bytes ≡ patched_bytes other rva layout owner fixes bytes }
    ensures range { (large pdata : Bool) (base other rva : ℕ) (layout : Layout) (owner : List ℕ) (fixes : List Fix) (bytes : List ℕ) → AreSuited large pdata fixes
        → HaveNoBased fixes → range_fault base rva layout owner fixes bytes ≡ range_fault other rva layout owner fixes bytes }
    ensures in_range { (large pdata : Bool) (base other rva : ℕ) (layout : Layout) (owner : List ℕ) (fixes : List Fix) (bytes : List ℕ) → AreSuited large pdata fixes
        → range_fault base rva layout owner fixes bytes ≡ None → range_fault other rva layout owner fixes bytes ≡ None }
{}

/// At another base each field that holds an address is moved by the difference of the bases, modulo its width, and each
/// byte of no such field is the same.
pub fn based_fields_move_with_the_base()
    ensures moved { (base other rva : ℕ) (layout : Layout) (owner : List ℕ) (fixes fixups : List Fix) (bytes : List ℕ) → AreTheFields fixes fixups → ArePatchable (length bytes) fixups
        → base < 2 ^ 64 → (k : ℕ) → k < length fixups → is_based (fix_at fixups k) ≡ true
        → number_at (field_width (fix_at fixups k).kind) (patched_bytes other rva layout owner fixes bytes) (fix_at fixups k).at
        ≡ (number_at (field_width (fix_at fixups k).kind) (patched_bytes base rva layout owner fixes bytes) (fix_at fixups k).at + (other + 2 ^ 64 - base) % 2 ^ 64) % 2 ^ (8 * field_width (fix_at fixups k).kind) }
    ensures elsewhere { (base other rva : ℕ) (layout : Layout) (owner : List ℕ) (fixes fixups : List Fix) (bytes : List ℕ) → AreTheFields fixes fixups → ArePatchable (length bytes) fixups
        → (byte : ℕ) → ((k : ℕ) → k < length fixups → is_based (fix_at fixups k) ≡ true → IsOutside byte (fix_at fixups k))
        → slice_index (patched_bytes other rva layout owner fixes bytes) byte ≡ slice_index (patched_bytes base rva layout owner fixes bytes) byte }
{}

/// Patched bytes are as many as the old ones, and without relocations they are the old ones.
pub fn patching_keeps_the_length()
    ensures length { (base rva : ℕ) (layout : Layout) (owner : List ℕ) (fixes : List Fix) (bytes : List ℕ) → length (patched_bytes base rva layout owner fixes bytes) ≡ length bytes }
    ensures no_relocations { (base rva : ℕ) (layout : Layout) (owner bytes : List ℕ) → patched_bytes base rva layout owner [] bytes ≡ bytes }
{}

/// Targets that are given other places leave the fields as they are: the same relocations have one, in the same bytes, and
/// each can be patched as before.
pub fn redirected_fields_are_fields()
    ensures fields { (places : List ℕ) (first home : ℕ) (offsets : List ℕ) (fixes fixups : List Fix) → AreTheFields fixes fixups
        → AreTheFields (map (redirected_fix places first home offsets) fixes) (map (redirected_fix places first home offsets) fixups) }
    ensures patchable { (places : List ℕ) (first home : ℕ) (offsets : List ℕ) (len : ℕ) (fixups : List Fix) → ArePatchable len fixups
        → ArePatchable len (map (redirected_fix places first home offsets) fixups) }
{}

/// Fixups may be shared by threads and handed from one to another.
pub fn fixups_are_shared() {
    is_shared::<Fixups>()
}
