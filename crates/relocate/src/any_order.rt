//! The fields of relocations in any order.

ghost use Rattle.std.specs.Prelude.{◌≡◌, ℕ, ◌+◌, ◌<◌, ◌≤◌, length, None, Some, true, false, IfOk, IfErr};
ghost use Rattle.std.specs.Bool.{MatchBool};
ghost use Rattle.relocate.specs.Field.{ranges_meet, field_end};
ghost use Rattle.relocate.specs.FieldFaults.{overlaps_earlier, field_fault, RefusesFor};
ghost use Rattle.relocate.specs.Judged.{AreApart, AreTheFields, ArePatchable, size_of};
ghost use Rattle.relocate.specs.Taken.{width_at, AreNarrow};

use crate::ascending::with_fields;
use crate::error::FieldError;
use crate::fix::Fix;
use crate::judge::fault_of;
use crate::packed::PackedFix;
use crate::place::{field_end, field_width};
use link_base::pe_format::REL_AMD64_ABSOLUTE;
use std::alloc::Global;
use std::collections::BTreeMap;

/// The fields of relocations, by their places.
pub(crate) fn sorted_fields(
    alloc: Global,
    body_len: Option<usize>,
    fixes: &[PackedFix],
    large: bool,
    pdata: bool,
) -> Result<Vec<PackedFix>, FieldError>
    ensures accepted { IfOk result (λ _. field_fault body_len large pdata fixes.now ≡ None) }
    ensures fields { IfOk result (λ fields. AreTheFields fixes.now fields.items) }
    ensures patchable { IfOk result (λ fields. ArePatchable (size_of body_len) fields.items) }
    ensures refused { IfErr result (RefusesFor (field_fault body_len large pdata fixes.now)) }
{
    let mut fields = with_fields(alloc, fixes)?;
    fields.sort_by_key(|fix| fix.unpacked().at)?;
    judge_any_order(alloc, body_len, fixes, &fields, large, pdata)?;
    Ok(fields)
}

/// Judges relocations, whose fields these are. Only where two of the fields share a byte is it looked for which do first.
fn judge_any_order(
    alloc: Global,
    body_len: Option<usize>,
    fixes: &[PackedFix],
    fields: &[PackedFix],
    large: bool,
    pdata: bool,
) -> Result<(), FieldError>
    requires { AreTheFields fixes.now fields.now }
    ensures accepted { IfOk result (λ _. field_fault body_len large pdata fixes.now ≡ None) }
    ensures refused { IfErr result (RefusesFor (field_fault body_len large pdata fixes.now)) }
{
    if are_apart(fields) {
        return judge_apart(body_len, fixes, large, pdata);
    }
    judge_by_places(alloc, body_len, fixes, large, pdata)
}

/// Whether each of these fields ends before the next begins.
fn are_apart(fields: &[PackedFix]) -> bool
    ensures { MatchBool result (AreApart fields.now) (AreApart fields.now → ⊥) }
{
    let mut end = 0;
    for packed in fields {
        let fix = packed.unpacked();
        if u64::from(fix.at) < end {
            return false;
        }
        end = field_end(&fix);
    }
    true
}

/// Judges relocations of which no field shares a byte with that of an earlier one.
fn judge_apart(
    body_len: Option<usize>,
    fixes: &[PackedFix],
    large: bool,
    pdata: bool,
) -> Result<(), FieldError>
    requires { (k : ℕ) → k < length fixes.now → overlaps_earlier fixes.now k ≡ false }
    ensures accepted { IfOk result (λ _. field_fault body_len large pdata fixes.now ≡ None) }
    ensures refused { IfErr result (RefusesFor (field_fault body_len large pdata fixes.now)) }
{
    for packed in fixes {
        if let Some(error) = fault_of(body_len, large, pdata, &packed.unpacked(), false) {
            return Err(error);
        }
    }
    Ok(())
}

/// Judges relocations in their order, by the places of the fields before.
fn judge_by_places(
    alloc: Global,
    body_len: Option<usize>,
    fixes: &[PackedFix],
    large: bool,
    pdata: bool,
) -> Result<(), FieldError>
    ensures accepted { IfOk result (λ _. field_fault body_len large pdata fixes.now ≡ None) }
    ensures refused { IfErr result (RefusesFor (field_fault body_len large pdata fixes.now)) }
{
    let mut taken = BTreeMap::new(alloc);
    for packed in fixes {
        let fix = packed.unpacked();
        if fix.kind == REL_AMD64_ABSOLUTE {
            continue;
        }
        if let Some(error) = fault_of(body_len, large, pdata, &fix, overlaps(&taken, &fix)) {
            return Err(error);
        }
        taken.insert(u64::from(fix.at), u64::from(field_width(fix.kind)))?;
    }
    Ok(())
}

/// Whether a field shares a byte with one of those that are taken, each with its width at its place. A field begins at
/// most seven bytes before another that it shares a byte with.
fn overlaps(taken: &BTreeMap<u64, u64>, fix: &Fix) -> bool
    requires narrow { AreNarrow taken.now }
    ensures { MatchBool result
        ((place width : ℕ) × (width_at taken.now place ≡ Some width) × (ranges_meet place (place + width) fix.now.at (field_end fix.now) ≡ true))
        ((place width : ℕ) → width_at taken.now place ≡ Some width → ranges_meet place (place + width) fix.now.at (field_end fix.now) ≡ false) }
{
    let at = u64::from(fix.at);
    let end = field_end(fix);
    for place in at.saturating_sub(7)..end {
        if let Some(width) = taken.get(&place) {
            if place.max(at) < (place + *width).min(end) {
                return true;
            }
        }
    }
    false
}
