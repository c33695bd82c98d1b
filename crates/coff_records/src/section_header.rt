//! Section headers (PE Format, "Section Table (Section Headers)").

ghost use Rattle.std.specs.Prelude.{◌≡◌, ◌≤◌, length};
ghost use Rattle.coff_records.specs.SectionHeader.{size_in, data_offset_in, relocations_offset_in, relocation_field_in, flags_in, name_field_in, short_name_in, is_uninitialised_in, has_overflow_count_in};

use crate::offsets::{
    SECTION_CHARACTERISTICS, SECTION_NUMBER_OF_RELOCATIONS, SECTION_POINTER_TO_RAW_DATA,
    SECTION_POINTER_TO_RELOCATIONS, SECTION_SIZE_OF_RAW_DATA, SIZEOF_SHORT_NAME,
};
use crate::ranges::before_nul;
use link_base::pe_format::{
    SCN_CNT_UNINITIALIZED_DATA, SCN_LNK_NRELOC_OVFL, SIZEOF_SECTION_HEADER,
};
use link_base::{slice_in, u16_in, u32_in};
use std::marker::Model;

/// A section header, as its 40 bytes.
#[derive(Drop)]
pub struct SectionHeader<'a> {
    bytes: &'a [u8],
}

impl<'a> Model for SectionHeader<'a> {
    ghost use Rattle.std.specs.Prelude.{◌≡◌, List, ℕ, length};
    ghost use Rattle.link_base.specs.PeFormat.{SIZEOF_SECTION_HEADER};

    ghost Value = { List ℕ };

    ghost view = { λ header. header.bytes.now };

    ghost invariant = { λ header. length header.bytes.now ≡ SIZEOF_SECTION_HEADER };
}

impl<'a> SectionHeader<'a> {
    pub(crate) fn of(bytes: &'a [u8]) -> SectionHeader<'a>
        requires { length bytes.now ≡ SIZEOF_SECTION_HEADER }
        ensures { result ≡ bytes.now }
    {
        SectionHeader { bytes }
    }

    /// The size of the section, which is also that of its data where it has any.
    pub fn size(&self) -> u32
        ensures { result ≡ size_in self.now }
    {
        u32_in(self.bytes, SECTION_SIZE_OF_RAW_DATA)
    }

    /// Where the section's data begin in the file, or 0.
    pub(crate) fn data_offset(&self) -> u32
        ensures { result ≡ data_offset_in self.now }
    {
        u32_in(self.bytes, SECTION_POINTER_TO_RAW_DATA)
    }

    /// Where the section's relocations begin in the file.
    pub(crate) fn relocations_offset(&self) -> u32
        ensures { result ≡ relocations_offset_in self.now }
    {
        u32_in(self.bytes, SECTION_POINTER_TO_RELOCATIONS)
    }

    /// How many relocations the header counts.
    pub(crate) fn relocation_field(&self) -> u16
        ensures { result ≡ relocation_field_in self.now }
    {
        u16_in(self.bytes, SECTION_NUMBER_OF_RELOCATIONS)
    }

    /// The section's flags.
    pub fn flags(&self) -> u32
        ensures { result ≡ flags_in self.now }
    {
        u32_in(self.bytes, SECTION_CHARACTERISTICS)
    }

    /// The name field, with the NULs that fill it up.
    pub fn name_field(&self) -> &'a [u8]
        ensures field { result.now ≡ name_field_in self.now }
        ensures len { length result.now ≡ SIZEOF_SHORT_NAME }
    {
        slice_in(self.bytes, 0, SIZEOF_SHORT_NAME)
    }

    /// The text of the name field, up to its first NUL.
    #[tactic(auto, unfolding(crate::specs::SectionHeader::short_name_in))]
    pub fn short_name(&self) -> &'a [u8]
        ensures text { result.now ≡ short_name_in self.now }
        ensures short { length result.now ≤ SIZEOF_SHORT_NAME }
    {
        before_nul(self.name_field())
    }

    /// Whether the section has no data in the file.
    #[tactic(auto, unfolding(crate::specs::SectionHeader::is_uninitialised_in))]
    pub(crate) fn is_uninitialised(&self) -> bool
        ensures { result ≡ is_uninitialised_in self.now }
    {
        self.flags() & SCN_CNT_UNINITIALIZED_DATA != 0 || self.data_offset() == 0
    }

    /// Whether the first record of the section's relocations holds their count.
    #[tactic(auto, unfolding(crate::specs::SectionHeader::has_overflow_count_in))]
    pub(crate) fn has_overflow_count(&self) -> bool
        ensures { result ≡ has_overflow_count_in self.now }
    {
        self.flags() & SCN_LNK_NRELOC_OVFL != 0 && self.relocation_field() == u16::MAX
    }
}
