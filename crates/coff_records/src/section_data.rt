//! The data of sections.

ghost use Rattle.std.specs.Prelude.{◌≡◌, false};
ghost use Rattle.std.specs.Option.{option_copied};
ghost use Rattle.coff_records.specs.ObjectFile.{data_in};
ghost use Rattle.coff_records.specs.FileRanges.{body_leaves};

use crate::file::CoffFile;
use crate::ranges::{leaves_file, range_in};
use crate::section_header::SectionHeader;

/// Whether the data of an initialised section leave the file.
#[tactic(auto, unfolding(crate::specs::FileRanges::body_leaves))]
pub fn body_leaves(file: &CoffFile<'_>, header: &SectionHeader<'_>) -> bool
    ensures { result ≡ body_leaves file.now header.now }
{
    let start = header.data_offset() as usize;
    let size = header.size() as usize;
    !header.is_uninitialised() && leaves_file(file.bytes(), start, size)
}

/// The data of a section, where it has any.
#[tactic(auto, unfolding(crate::specs::FileRanges::body_leaves))]
pub fn data_in<'a>(bytes: &'a [u8], header: &SectionHeader<'_>) -> Option<&'a [u8]>
    requires { body_leaves bytes.now header.now ≡ false }
    ensures { option_copied result ≡ data_in bytes.now header.now }
{
    if header.is_uninitialised() {
        return None;
    }
    let start = header.data_offset() as usize;
    Some(range_in(bytes, start, header.size() as usize))
}
