//! What is wrong with the sections of an object, kind by kind: the first section that fails.

ghost use Rattle.std.specs.Prelude.{◌≡◌, ℕ, Bool, List, false};
ghost use Rattle.coff_records.specs.FileRanges.{is_truncated, body_leaves, relocations_leave};
ghost use Rattle.coff_records.specs.SectionHeader.{lacks_section_name};
ghost use Rattle.coff_object.specs.ObjectFaults.{Decides, is_other_machine, first_section, has_no_alignment};
ghost use Rattle.coff_records.specs.TextEnd.{EndsTexts};

use crate::section::has_no_alignment;
use coff_records::{CoffFile, SectionHeader, body_leaves, lacks_section_name, relocations_leave};
use link_base::pe_format::{FILE_MACHINE_AMD64, FILE_MACHINE_UNKNOWN};

/// Whether the machine is another than x86-64, and not left open.
#[tactic(auto, unfolding(crate::specs::ObjectFaults::is_other_machine))]
pub(crate) fn is_other_machine(file: &CoffFile<'_>) -> bool
    ensures { result ≡ is_other_machine file.now }
{
    let machine = file.machine();
    machine != FILE_MACHINE_AMD64 && machine != FILE_MACHINE_UNKNOWN
}

/// The first section whose data leave the file.
pub(crate) fn body_fault(file: &CoffFile<'_>) -> Option<u32>
    requires { is_truncated file.now ≡ false }
    ensures { result ≡ first_section file.now (body_leaves file.now) }
{
    first_section(file, |header| body_leaves(file, header))
}

/// The first section whose relocations leave the file, or are not counted.
pub(crate) fn relocation_fault(file: &CoffFile<'_>) -> Option<u32>
    requires { is_truncated file.now ≡ false }
    ensures { result ≡ first_section file.now (relocations_leave file.now) }
{
    first_section(file, |header| relocations_leave(file, header))
}

/// The first section whose name is missing in the string table.
pub(crate) fn section_name_fault(
    file: &CoffFile<'_>,
    strings: &[u8],
    texts_end: usize,
) -> Option<u32>
    requires headers { is_truncated file.now ≡ false }
    requires texts { EndsTexts strings.now texts_end }
    ensures { result ≡ first_section file.now (lacks_section_name strings.now) }
{
    first_section(
        file,
        |header| lacks_section_name(strings, header, texts_end),
    )
}

/// The first section whose alignment is none of the format.
pub(crate) fn alignment_fault(file: &CoffFile<'_>) -> Option<u32>
    requires { is_truncated file.now ≡ false }
    ensures { result ≡ first_section file.now has_no_alignment }
{
    first_section(file, has_no_alignment)
}

/// The first section of which a test says yes.
pub(crate) fn first_section<'a, F: Fn(&SectionHeader<'a>) -> bool>(
    file: &CoffFile<'a>,
    fails: F,
) -> Option<u32>
    requires headers { is_truncated file.now ≡ false }
    requires callable { F.IsAlwaysCallable fails }
    ensures { (test : List ℕ → Bool) → Decides (F.post fails) test → result ≡ first_section file.now test }
{
    for index in 0..file.section_count() {
        let header = file.section_header(index + 1);
        if fails(&header) {
            return Some(index + 1);
        }
    }
    None
}
