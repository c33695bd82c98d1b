//! The value of a field, by its type.

ghost use Rattle.std.specs.Prelude.{◌≡◌};
ghost use Rattle.relocate.specs.Value.{AreSmall, field_value};

use link_base::pe_format::{
    REL_AMD64_ADDR32, REL_AMD64_ADDR32NB, REL_AMD64_ADDR64, REL_AMD64_REL32, REL_AMD64_SECREL,
    REL_AMD64_SECTION,
};

/// What a field is computed from: the address and the RVA of its target, the number and the RVA of the target's section,
/// its old contents, and its own address.
#[derive(Clone, Copy)]
pub(crate) struct Parts {
    pub(crate) address: i128,
    pub(crate) rva: i128,
    pub(crate) number: i128,
    pub(crate) start: i128,
    pub(crate) old: i128,
    pub(crate) place: i128,
}

/// The value of a field of a type.
#[tactic(auto, unfolding(crate::specs::Value::field_value))]
pub(crate) fn field_value(kind: u16, parts: &Parts) -> i128
    requires { AreSmall parts.now }
    ensures { result ≡ field_value kind parts.now }
{
    if kind == REL_AMD64_ADDR64 {
        parts.address + parts.old
    } else if kind == REL_AMD64_ADDR32 {
        parts.address + parts.old
    } else if kind == REL_AMD64_ADDR32NB {
        parts.rva + parts.old
    } else if kind == REL_AMD64_SECTION {
        parts.number + parts.old
    } else if kind == REL_AMD64_SECREL {
        parts.rva - parts.start + parts.old
    } else {
        let behind = 4 + kind.saturating_sub(REL_AMD64_REL32) as i128;
        parts.address + parts.old - (parts.place + behind)
    }
}
