//! A relocation, judged.

ghost use Rattle.std.specs.Prelude.{◌≡◌};
ghost use Rattle.relocate.specs.FieldFaults.{fault_of};

use crate::error::FieldError;
use crate::fix::Fix;
use crate::place::place_fault;
use crate::target::target_fault;
use link_base::RelocKind;
use link_base::pe_format::REL_AMD64_ABSOLUTE;

/// The first fault of a relocation whose field overlaps that of an earlier one, or does not.
#[tactic(auto, using(link_base::proofs::RefusalLemmas::standing_append), unfolding(crate::specs::FieldFaults::fault_of))]
pub(crate) fn fault_of(
    body_len: Option<usize>,
    large: bool,
    pdata: bool,
    fix: &Fix,
    overlaps: bool,
) -> Option<FieldError>
    ensures { result ≡ fault_of body_len large pdata fix.now overlaps }
{
    if fix.kind == REL_AMD64_ABSOLUTE {
        return None;
    }
    if let Some(error) = place_fault(body_len, fix) {
        return Some(error);
    }
    if overlaps {
        return Some(FieldError::Reloc {
            index: fix.index,
            kind: RelocKind::Overlap,
        });
    }
    target_fault(fix, large, pdata)
}
