//! Laws of the definitions, each the contract of a function that does nothing.

ghost use Rattle.std.specs.Prelude.{◌≡◌, ◌<◌, ℕ, ◌+◌, ◌*◌, ◌%◌, ◌^◌, true, false, List, length, slice_index};
ghost use Rattle.link_base.specs.Bytes.{number_at};
ghost use Rattle.section_group.specs.Uniqueness.{SectionRow};
ghost use Rattle.address_layout.specs.declared.layout.Layout.{Layout};
ghost use Rattle.base_reloc.specs.declared.field.BaseField.{BaseField};
ghost use Rattle.pe_loader.specs.LoadedImage.{base_delta};
ghost use Rattle.relocate.specs.declared.fix.Fix.{Fix};
ghost use Rattle.relocate.specs.Field.{field_width, fix_at};
ghost use Rattle.relocate.specs.Value.{IsOutside};
ghost use Rattle.relocate.specs.PatchedBytes.{is_based};
ghost use Rattle.link_pieces.specs.TablePieces.{KeptParts, whole_pieces};
ghost use Rattle.link_plan.specs.Planned.{planned_fixes, HaveFields};
ghost use Rattle.link_image.specs.BaseFields.{holds_address, AreBaseFields};
ghost use Rattle.link_image.specs.LinkedBytes.{linked_bytes, image_contents};

/// At another base each field of a piece that holds an address holds its number and the difference of the bases, modulo its
/// width, and every other byte is the same. Where no field holds an address, everything is.
pub fn another_base_moves_addresses_alone()
    ensures fields { (link : KeptParts) (fixups : List (List Fix)) (rows : List SectionRow) (layout : Layout) (base other k i : ℕ)
        → HaveFields link (length (whole_pieces link)) fixups → base < 2 ^ 64 → k < length (whole_pieces link) → i < length (planned_fixes link k)
        → is_based (fix_at (planned_fixes link k) i) ≡ true → let fix = fix_at (planned_fixes link k) i in
        number_at (field_width fix.kind) (linked_bytes link rows layout other k) fix.at
        ≡ (number_at (field_width fix.kind) (linked_bytes link rows layout base k) fix.at + base_delta base other) % 2 ^ (8 * field_width fix.kind) }
    ensures elsewhere { (link : KeptParts) (fixups : List (List Fix)) (rows : List SectionRow) (layout : Layout) (base other k byte : ℕ)
        → HaveFields link (length (whole_pieces link)) fixups → k < length (whole_pieces link)
        → ((i : ℕ) → i < length (planned_fixes link k) → is_based (fix_at (planned_fixes link k) i) ≡ true → IsOutside byte (fix_at (planned_fixes link k) i))
        → slice_index (linked_bytes link rows layout other k) byte ≡ slice_index (linked_bytes link rows layout base k) byte }
    ensures without { (link : KeptParts) (fixups : List (List Fix)) (rows : List SectionRow) (layout : Layout) (tables : List (List ℕ)) (base other : ℕ)
        → HaveFields link (length (whole_pieces link)) fixups → holds_address link ≡ false
        → image_contents link rows layout tables base ≡ image_contents link rows layout tables other }
{}

/// Modules at their places have one list of the fields that hold addresses.
pub fn one_list_of_base_fields()
    ensures { (link : KeptParts) (rvas : List ℕ) (first second : List BaseField)
        → AreBaseFields link rvas first → AreBaseFields link rvas second → first ≡ second }
{}
