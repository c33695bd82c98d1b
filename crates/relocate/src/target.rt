//! The target of a field.

ghost use Rattle.std.specs.Prelude.{◌≡◌};
ghost use Rattle.link_base.specs.Refusals.{first_standing};
ghost use Rattle.relocate.specs.FieldFaults.{own_fault, is_absolute, is_image_base, target_faults};
ghost use Rattle.relocate.specs.PatchedBytes.{is_based};

use crate::error::FieldError;
use crate::fix::{Fix, Target};
use link_base::TargetFault;
use link_base::pe_format::{
    REL_AMD64_ADDR32, REL_AMD64_ADDR32NB, REL_AMD64_ADDR64, REL_AMD64_SECTION,
};

/// Why the symbol itself has no address.
fn own_fault(fix: &Fix) -> Option<TargetFault>
    ensures { result ≡ own_fault fix.now.target }
{
    match fix.target {
        Some(Err(fault)) => Some(fault),
        _ => None,
    }
}

fn is_absolute(fix: &Fix) -> bool
    ensures { result ≡ is_absolute fix.now.target }
{
    match fix.target {
        Some(Ok(Target::Absolute(_))) => true,
        _ => false,
    }
}

fn is_image_base(fix: &Fix) -> bool
    ensures { result ≡ is_image_base fix.now.target }
{
    match fix.target {
        Some(Ok(Target::ImageBase)) => true,
        _ => false,
    }
}

/// Whether a field holds an address, so that its value changes with the base (PE Format, "The .reloc Section (Image
/// Only)").
pub fn is_based(fix: &Fix) -> bool
    ensures { result ≡ is_based fix.now }
{
    (fix.kind == REL_AMD64_ADDR64 || fix.kind == REL_AMD64_ADDR32) && !is_absolute(fix)
}

/// The first fault of a relocation's target, each judged where no earlier one stands.
#[tactic(auto, unfolding(crate::specs::FieldFaults::target_faults))]
pub(crate) fn target_fault(fix: &Fix, large: bool, pdata: bool) -> Option<FieldError>
    ensures { result ≡ first_standing (target_faults large pdata fix.now) }
{
    let index = fix.index;
    if let Some(kind) = own_fault(fix) {
        return Some(FieldError::Target { index, kind });
    }
    if fix.kind >= REL_AMD64_ADDR32NB && is_absolute(fix) {
        return Some(FieldError::Target {
            index,
            kind: TargetFault::AbsRelative,
        });
    }
    if fix.kind >= REL_AMD64_SECTION && is_image_base(fix) {
        return Some(FieldError::Target {
            index,
            kind: TargetFault::NoSection,
        });
    }
    if fix.kind == REL_AMD64_ADDR32 && !is_absolute(fix) && large {
        return Some(FieldError::Target {
            index,
            kind: TargetFault::NeedsLow,
        });
    }
    if pdata && fix.kind != REL_AMD64_ADDR32NB {
        return Some(FieldError::Target {
            index,
            kind: TargetFault::PdataField,
        });
    }
    None
}
