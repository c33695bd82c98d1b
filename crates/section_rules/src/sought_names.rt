//! The names of sections that are looked for, beside those of code and data.

ghost use Rattle.std.specs.Prelude.{◌≡◌, false, true, codes};
ghost use Rattle.link_base.specs.NameText.{begins};
ghost use Rattle.section_rules.specs.SoughtNames.{is_linker_section, is_resources, BeginsOtherwise};

use crate::base_name::has_base_name;
use link_base::Name;

/// So many bytes of a section's name show whether the linker makes it itself.
pub const LINKER_NAME_START: usize = 7;

/// So many tell whether it may be a name that is looked for.
pub const NAME_START: usize = 3;

/// Whether a section of this name is one that the linker makes itself.
#[tactic(auto, unfolding(crate::specs::SoughtNames::is_linker_section))]
pub fn is_linker_section(name: &Name<'_>) -> bool
    ensures { result ≡ is_linker_section name.now }
{
    begins_import_table(name) || has_base_name(name, b".reloc")
}

/// Whether a section of this name holds resources.
pub fn is_resources(name: &Name<'_>) -> bool
    ensures { result ≡ is_resources name.now }
{
    has_base_name(name, b".rsrc")
}

/// Whether a section of this name is a part of the import tables.
fn begins_import_table(name: &Name<'_>) -> bool
    ensures { result ≡ begins name.now (codes ".idata$") }
{
    if name.is_import() {
        return false;
    }
    name.rest().starts_with(b".idata$")
}

/// Whether a name with these first bytes may be one that is looked for.
pub fn may_be_sought(start: &Name<'_>) -> bool
    ensures { result ≡ false → BeginsOtherwise start.now }
{
    start.is_import() || begins_sought(start.rest())
}

/// Whether the bytes of a name, or its first bytes, begin as those of one that is looked for. The second byte mostly tells.
pub fn begins_sought(text: &[u8]) -> bool
    ensures other { result ≡ false → BeginsOtherwise text.now }
    ensures sought { result ≡ true → BeginsOtherwise text.now → ⊥ }
{
    if text.len() < NAME_START || text[0] != b'.' {
        return false;
    }
    match text[1] {
        b'd' => text[2] == b'r',
        b'i' => text[2] == b'd',
        b'r' => text[2] == b'e' || text[2] == b's',
        _ => false,
    }
}
