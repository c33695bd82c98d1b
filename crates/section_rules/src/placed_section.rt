//! Which sections come into the image.

ghost use Rattle.std.specs.Prelude.{◌≡◌, codes};
ghost use Rattle.link_base.specs.NameText.{begins};
ghost use Rattle.section_rules.specs.PlacedSection.{is_linker_table, is_debug_section, is_left_out, comes_in};

use link_base::Name;
use link_base::pe_format::{SCN_LNK_INFO, SCN_LNK_REMOVE};

/// Tables that say something to the linker alone.
const LINKER_TABLES: [&[u8]; 7] = [
    b".llvm_addrsig",
    b".gfids$y",
    b".giats$y",
    b".gljmp$y",
    b".gehcont$y",
    b".voltbl",
    b".chks64",
];

/// Whether a section with these flags and this name comes into the image. Left out are sections that the flags exclude,
/// sections for debuggers, and tables meant for the linker alone.
#[tactic(auto, unfolding(crate::specs::PlacedSection::comes_in))]
pub fn comes_in(flags: u32, name: &Name<'_>) -> bool
    ensures { result ≡ comes_in flags name.now }
{
    !is_left_out(flags) && !is_debug_section(name) && !is_linker_table(name)
}

fn is_left_out(flags: u32) -> bool
    ensures { result ≡ is_left_out flags }
{
    flags & SCN_LNK_REMOVE != 0 || flags & SCN_LNK_INFO != 0
}

fn is_debug_section(name: &Name<'_>) -> bool
    ensures { result ≡ is_debug_section name.now }
{
    if !begins_debug(name) {
        return false;
    }
    let base = name.base_name();
    base == Name::of(b".debug") || is_debug_part(&base)
}

/// Whether a name begins as those of tables for debuggers.
fn begins_debug(name: &Name<'_>) -> bool
    ensures { result ≡ begins name.now (codes ".debug") }
{
    !name.is_import() && name.rest().starts_with(b".debug")
}

/// Whether a base name begins as those of DWARF tables.
fn is_debug_part(base: &Name<'_>) -> bool
    ensures { result ≡ begins base.now (codes ".debug_") }
{
    if base.is_import() {
        return false;
    }
    base.rest().starts_with(b".debug_")
}

fn is_linker_table(name: &Name<'_>) -> bool
    ensures { result ≡ is_linker_table name.now }
{
    !name.is_import() && is_table_name(name.rest())
}

/// Whether the text is the name of a table that is meant for the linker alone.
fn is_table_name(text: &[u8]) -> bool
    ensures { result ≡ is_linker_table text.now }
{
    LINKER_TABLES.iter().any(|table| text == *table)
}
