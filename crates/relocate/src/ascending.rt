//! The fields of relocations that ascend by their places, as compilers write them.

ghost use Rattle.std.specs.Prelude.{◌≡◌, None, true, IfOk, IfErr, IfSome, IfNone};
ghost use Rattle.std.specs.List.{filter};
ghost use Rattle.relocate.specs.Field.{has_field};
ghost use Rattle.relocate.specs.FieldFaults.{field_fault, RefusesFor};
ghost use Rattle.relocate.specs.Judged.{ArePatchable, size_of};
ghost use Rattle.relocate.specs.Taken.{Descend};

use crate::error::FieldError;
use crate::judge::fault_of;
use crate::packed::PackedFix;
use crate::place::{field_end, has_field};
use link_base::pe_format::REL_AMD64_ABSOLUTE;
use std::alloc::{AllocError, Global};

/// Judges relocations whose fields ascend: whether each has a field, or nothing where one begins before the end of an
/// earlier one.
pub(crate) fn judge_ascending(
    body_len: Option<usize>,
    fixes: &[PackedFix],
    large: bool,
    pdata: bool,
) -> Result<Option<bool>, FieldError>
    ensures accepted { IfOk result (λ ascend. IfSome ascend (λ _. field_fault body_len large pdata fixes.now ≡ None)) }
    ensures whole { IfOk result (λ ascend. IfSome ascend (λ all. all ≡ true → fixes.now ≡ filter has_field fixes.now)) }
    ensures patchable { IfOk result (λ ascend. IfSome ascend (λ _. ArePatchable (size_of body_len) (filter has_field fixes.now))) }
    ensures descend { IfOk result (λ ascend. IfNone ascend (Descend fixes.now)) }
    ensures refused { IfErr result (RefusesFor (field_fault body_len large pdata fixes.now)) }
{
    let mut all_have_fields = true;
    let mut end = 0;
    for packed in fixes {
        let fix = packed.unpacked();
        if fix.kind == REL_AMD64_ABSOLUTE {
            all_have_fields = false;
            continue;
        }
        if u64::from(fix.at) < end {
            return Ok(None);
        }
        if let Some(error) = fault_of(body_len, large, pdata, &fix, false) {
            return Err(error);
        }
        end = field_end(&fix);
    }
    Ok(Some(all_have_fields))
}

/// The relocations that have a field.
pub(crate) fn with_fields(alloc: Global, fixes: &[PackedFix]) -> Result<Vec<PackedFix>, AllocError>
    ensures { IfOk result (λ fields. fields.items ≡ filter has_field fixes.now) }
{
    let mut fields = Vec::new(alloc);
    for packed in fixes {
        let fix = packed.unpacked();
        if has_field(&fix) {
            fields.push(PackedFix::new(fix))?;
        }
    }
    Ok(fields)
}
