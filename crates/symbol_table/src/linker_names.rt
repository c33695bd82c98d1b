//! Names that the linker gives a meaning itself.

ghost use Rattle.std.specs.Prelude.{◌≡◌, None, false};
ghost use Rattle.std.specs.List.{list_any};
ghost use Rattle.link_base.specs.NameText.{same_name};
ghost use Rattle.symbol_table.specs.LinkerNames.{zero_names, linker_meaning};

use crate::meaning::Meaning;
use link_base::Name;

/// The names that mean the number 0.
const ZERO_NAMES: [&[u8]; 10] = [
    b"__guard_fids_table",
    b"__guard_fids_count",
    b"__guard_flags",
    b"__guard_iat_table",
    b"__guard_iat_count",
    b"__guard_longjmp_table",
    b"__guard_longjmp_count",
    b"__guard_eh_cont_table",
    b"__guard_eh_cont_count",
    b"__enclave_config",
];

/// What the linker means by a name that nothing defines.
#[tactic(auto, unfolding(crate::specs::LinkerNames::linker_meaning))]
pub(crate) fn linker_meaning<'a>(name: &Name<'_>) -> Option<Meaning<'a>>
    ensures { result ≡ linker_meaning name.now }
{
    if !may_have_meaning(name) {
        return None;
    }
    if *name == Name::of(b"__ImageBase") {
        return Some(Meaning::ImageBase);
    }
    if is_zero_name(name) {
        return Some(Meaning::Absolute(0));
    }
    None
}

/// Whether a name begins as all of those do. Most names do not, and are compared with none of them.
#[tactic(auto, using(crate::proofs::LinkerNameLemmas::no_meaning_begun, crate::proofs::LinkerNameLemmas::no_meaning_import))]
fn may_have_meaning(name: &Name<'_>) -> bool
    ensures { result ≡ false → linker_meaning name.now ≡ None }
{
    !name.is_import() && name.rest().starts_with(b"__")
}

/// Whether a name means the number 0.
fn is_zero_name(name: &Name<'_>) -> bool
    ensures { result ≡ list_any (same_name name.now) zero_names }
{
    ZERO_NAMES.iter().any(|known| *name == Name::of(known))
}
