//! Sections, as their headers describe them.

ghost use Rattle.std.specs.Prelude.{◌≡◌, false};
ghost use Rattle.std.specs.Option.{option_copied};
ghost use Rattle.coff_records.specs.SectionHeader.{section_name_in, size_in, flags_in, alignment_of};
ghost use Rattle.coff_records.specs.ObjectFile.{data_in};
ghost use Rattle.coff_records.specs.FileRanges.{body_leaves};
ghost use Rattle.coff_object.specs.ObjectFaults.{has_no_alignment};

use coff_records::{SectionHeader, data_in, section_name};
use link_base::Name;
use link_base::pe_format::SCN_TYPE_NO_PAD;

/// A section: its name, its flags, its size and alignment in bytes, and its data, which an uninitialised
/// section does not have.
#[derive(Drop)]
pub struct Section<'a> {
    pub name: Name<'a>,
    pub flags: u32,
    pub size: u32,
    pub align: u32,
    pub body: Option<&'a [u8]>,
}

/// The alignment in bytes that a section's flags say.
fn alignment(flags: u32) -> u32
    ensures { result ≡ alignment_of flags }
{
    let value = (flags >> 20) % 16;
    if flags & SCN_TYPE_NO_PAD != 0 {
        1
    } else if value == 0 {
        16
    } else {
        1 << (value - 1)
    }
}

/// Whether the alignment is the one value that the format leaves free.
#[tactic(auto, unfolding(crate::specs::ObjectFaults::has_no_alignment))]
pub(crate) fn has_no_alignment(header: &SectionHeader<'_>) -> bool
    ensures { result ≡ has_no_alignment header.now }
{
    let flags = header.flags();
    flags & SCN_TYPE_NO_PAD == 0 && (flags >> 20) % 16 == 15
}

/// The section that a header describes.
pub(crate) fn section_in<'a>(
    bytes: &'a [u8],
    strings: &'a [u8],
    header: &SectionHeader<'a>,
) -> Section<'a>
    requires { body_leaves bytes.now header.now ≡ false }
    ensures name { result.name ≡ section_name_in strings.now header.now }
    ensures flags { result.flags ≡ flags_in header.now }
    ensures size { result.size ≡ size_in header.now }
    ensures align { result.align ≡ alignment_of (flags_in header.now) }
    ensures body { option_copied result.body ≡ data_in bytes.now header.now }
{
    let flags = header.flags();
    Section {
        name: section_name(strings, header),
        flags,
        size: header.size(),
        align: alignment(flags),
        body: data_in(bytes, header),
    }
}
