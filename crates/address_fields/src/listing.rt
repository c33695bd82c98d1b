//! The fields that hold addresses, of all pieces that stand in sections.

ghost use Rattle.std.specs.Prelude.{◌≡◌, ◌+◌, ◌<◌, ◌^◌, ◌++◌, ◌∷◌, [], length, slice_index, slice_index_or, IfOk, OnOk};
ghost use Rattle.std.specs.List.{All, list_any};
ghost use Rattle.address_layout.specs.Layout.{all_pieces};
ghost use Rattle.relocate.specs.PatchedBytes.{is_based};
ghost use Rattle.address_fields.specs.AddressFields.{base_field, Fits, fields_of, section_fields, all_fields};

use base_reloc::BaseField;
use link_base::Memory;
use link_base::pe_format::REL_AMD64_ADDR64;
use relocate::{Fix, Fixups, PackedFix, is_based};
use section_group::OutSection;
use std::alloc::Global;

/// Whether a field of some piece holds an address.
pub fn hold_address(fixes: &[Fixups]) -> bool
    ensures { result ≡ list_any (λ fixups. list_any is_based fixups) fixes.now }
{
    fixes.iter().any(|fixups| holds_address(fixups))
}

fn holds_address(fixups: &Fixups) -> bool
    ensures { result ≡ list_any is_based fixups.now }
{
    fixups.fixes().iter().any(|fix| is_based(&fix.unpacked()))
}

/// The fields that hold addresses, section by section and piece by piece. `rvas` and `fixes` have the RVA and the fields of
/// each piece by its index.
pub fn base_fields(
    alloc: Global,
    sections: &[OutSection<'_>],
    rvas: &[u32],
    fixes: &[Fixups],
) -> Result<Vec<BaseField>, Memory>
    requires rvas { All (λ k. k < length rvas.now) (all_pieces sections.now) }
    requires fixes { All (λ k. k < length fixes.now) (all_pieces sections.now) }
    requires fit { All (Fits rvas.now fixes.now) (all_pieces sections.now) }
    ensures { IfOk result (λ fields. fields.items ≡ all_fields rvas.now fixes.now sections.now) }
{
    let mut fields = Vec::new(alloc);
    for section in sections {
        push_section_fields(&mut fields, &section.pieces, rvas, fixes)?;
    }
    Ok(fields)
}

/// Appends those of the pieces of a section.
fn push_section_fields(
    fields: &mut Vec<BaseField>,
    pieces: &[u32],
    rvas: &[u32],
    fixes: &[Fixups],
) -> Result<(), Memory>
    requires rvas { All (λ k. k < length rvas.now) pieces.now }
    requires fixes { All (λ k. k < length fixes.now) pieces.now }
    requires fit { All (Fits rvas.now fixes.now) pieces.now }
    ensures { OnOk result (fields.new.items ≡ fields.old.items ++ section_fields rvas.now fixes.now pieces.now) }
{
    for k in pieces {
        let k = *k as usize;
        push_fields(fields, rvas[k], fixes[k].fixes())?;
    }
    Ok(())
}

/// Appends those of a piece at an RVA.
fn push_fields(fields: &mut Vec<BaseField>, rva: u32, fixes: &[PackedFix]) -> Result<(), Memory>
    requires { All (λ fix. rva + fix.at < 2 ^ 32) fixes.now }
    ensures { OnOk result (fields.new.items ≡ fields.old.items ++ fields_of rva fixes.now) }
{
    for fix in fixes {
        push_field(fields, rva, &fix.unpacked())?;
    }
    Ok(())
}

/// Appends that of a relocation, where it holds an address.
fn push_field(fields: &mut Vec<BaseField>, rva: u32, fix: &Fix) -> Result<(), Memory>
    requires { rva + fix.now.at < 2 ^ 32 }
    ensures { OnOk result (fields.new.items ≡ fields.old.items ++ fields_of rva (fix.now ∷ [])) }
{
    if !is_based(fix) {
        return Ok(());
    }
    fields.push(base_field(rva, fix))?;
    Ok(())
}

/// The field of a relocation of a piece at an RVA.
fn base_field(rva: u32, fix: &Fix) -> BaseField
    requires { rva + fix.now.at < 2 ^ 32 }
    ensures { result ≡ base_field rva fix.now }
{
    BaseField {
        rva: rva + fix.at,
        wide: fix.kind == REL_AMD64_ADDR64,
    }
}
