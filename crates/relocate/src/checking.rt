//! The fields of a section, judged.

ghost use Rattle.std.specs.Prelude.{◌≡◌, None, length, IfOk, IfErr};
ghost use Rattle.relocate.specs.FieldFaults.{field_fault, RefusesFor};
ghost use Rattle.relocate.specs.Judged.{AreTheFields, ArePatchable, size_of, len_of};

use crate::any_order::sorted_fields;
use crate::ascending::{judge_ascending, with_fields};
use crate::error::FieldError;
use crate::fix::Fix;
use crate::fixups::Fixups;
use crate::packed::{PackedFix, packed};
use std::alloc::Global;

/// The fields of a section's relocations, given in the order of their indexes, where none has a fault. `large` says that the image may stand above 2 GiB,
/// and `pdata` that the section is one of the exception table. A relocation of type ABSOLUTE has no field and no fault.
///
/// # Errors
///
/// `Reloc` and `Target` for the first relocation that has a fault, with its first: `Kind`, `Field`, `Index` or `Overlap`,
/// then what its symbol says, and `AbsRelative`, `NoSection`, `NeedsLow` or `PdataField`. `Memory` for want of memory.
pub fn check(
    alloc: Global,
    body: Option<&[u8]>,
    fixes: &[Fix],
    large: bool,
    pdata: bool,
) -> Result<Fixups, FieldError>
    ensures accepted { IfOk result (λ _. field_fault (len_of body.entry) large pdata fixes.now ≡ None) }
    ensures fields { IfOk result (λ fixups. AreTheFields fixes.now fixups) }
    ensures patchable { IfOk result (λ fixups. ArePatchable (size_of (len_of body.entry)) fixups) }
    ensures refused { IfErr result (RefusesFor (field_fault (len_of body.entry) large pdata fixes.now)) }
{
    check_list(alloc, body, packed(alloc, fixes)?, large, pdata)
}

/// The same of relocations in a list, which is kept as it is where the fields ascend and no relocation is without one.
///
/// # Errors
///
/// Those of `check`.
pub fn check_list(
    alloc: Global,
    body: Option<&[u8]>,
    fixes: Vec<PackedFix>,
    large: bool,
    pdata: bool,
) -> Result<Fixups, FieldError>
    ensures accepted { IfOk result (λ _. field_fault (len_of body.entry) large pdata fixes.items ≡ None) }
    ensures fields { IfOk result (λ fixups. AreTheFields fixes.items fixups) }
    ensures patchable { IfOk result (λ fixups. ArePatchable (size_of (len_of body.entry)) fixups) }
    ensures refused { IfErr result (RefusesFor (field_fault (len_of body.entry) large pdata fixes.items)) }
{
    let body_len = body.map(|bytes| bytes.len());
    match judge_ascending(body_len, &fixes, large, pdata)? {
        Some(true) => Ok(Fixups { fixes }),
        Some(false) => Ok(Fixups {
            fixes: with_fields(alloc, &fixes)?,
        }),
        None => Ok(Fixups {
            fixes: sorted_fields(alloc, body_len, &fixes, large, pdata)?,
        }),
    }
}
