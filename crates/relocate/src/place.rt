//! The place of a field.

ghost use Rattle.std.specs.Prelude.{◌≡◌, ◌≤◌, ◌<◌, ◌^◌};
ghost use Rattle.link_base.specs.Refusals.{first_standing};
ghost use Rattle.relocate.specs.Field.{field_width, field_end, has_field};
ghost use Rattle.relocate.specs.FieldFaults.{leaves_body, place_faults};

use crate::error::FieldError;
use crate::fix::Fix;
use link_base::RelocKind;
use link_base::pe_format::{
    REL_AMD64_ABSOLUTE, REL_AMD64_ADDR64, REL_AMD64_SECREL, REL_AMD64_SECTION,
};

/// The bytes of a field of a type; none for ABSOLUTE and for a type that is not linked.
#[tactic(auto, unfolding(crate::specs::Field::field_width))]
pub(crate) fn field_width(kind: u16) -> u32
    ensures value { result ≡ field_width kind }
    ensures small { result ≤ 8 }
{
    if kind == REL_AMD64_ABSOLUTE {
        0
    } else if kind == REL_AMD64_ADDR64 {
        8
    } else if kind == REL_AMD64_SECTION {
        2
    } else if kind <= REL_AMD64_SECREL {
        4
    } else {
        0
    }
}

pub(crate) fn has_field(fix: &Fix) -> bool
    ensures { result ≡ has_field fix.now }
{
    field_width(fix.kind) > 0
}

/// The offset behind a relocation's field.
pub(crate) fn field_end(fix: &Fix) -> u64
    ensures value { result ≡ field_end fix.now }
    ensures small { result < 2 ^ 33 }
{
    u64::from(fix.at) + u64::from(field_width(fix.kind))
}

fn leaves_body(body_len: Option<usize>, fix: &Fix) -> bool
    ensures { result ≡ leaves_body body_len fix.now }
{
    match body_len {
        Some(len) => (len as u64) < field_end(fix),
        None => true,
    }
}

/// The first fault of a relocation's type, place and symbol index, in a section of so many bytes, or of none at all.
#[tactic(auto, unfolding(crate::specs::FieldFaults::place_faults))]
pub(crate) fn place_fault(body_len: Option<usize>, fix: &Fix) -> Option<FieldError>
    ensures { result ≡ first_standing (place_faults body_len fix.now) }
{
    let index = fix.index;
    if fix.kind > REL_AMD64_SECREL {
        return Some(FieldError::Reloc {
            index,
            kind: RelocKind::Kind,
        });
    }
    if leaves_body(body_len, fix) {
        return Some(FieldError::Reloc {
            index,
            kind: RelocKind::Field,
        });
    }
    if fix.target.is_none() {
        return Some(FieldError::Reloc {
            index,
            kind: RelocKind::Index,
        });
    }
    None
}
