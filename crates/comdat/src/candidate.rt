//! A section that may be chosen, and what one says beside another.

ghost use Rattle.std.specs.Prelude.{◌≡◌};
ghost use Rattle.comdat.specs.Choice.{is_largest, is_any_or_largest, contents_of};
ghost use Rattle.comdat.specs.Steps.{agrees};

use coff_aux::aux_records::{
    COMDAT_SELECT_ANY, COMDAT_SELECT_EXACT_MATCH, COMDAT_SELECT_LARGEST, COMDAT_SELECT_SAME_SIZE,
};

/// One COMDAT section of a group, which is all sections that go by one name (PE Format, "COMDAT Sections (Object
/// Only)").
#[derive(Clone, Copy)]
pub struct Candidate<'a> {
    /// The position of its module in the order of joining.
    pub module: u32,
    /// Its section number in the module, from 1.
    pub section: u32,
    /// How one of the group is selected: a number `COMDAT_SELECT_..` other than that of ASSOCIATIVE.
    pub selection: u8,
    /// Its size in memory, in bytes.
    pub size: u32,
    /// Its bytes, where it has any in the file.
    pub body: Option<&'a [u8]>,
}

impl<'a> Candidate<'a> {
    /// Its data, none where it has none in the file.
    fn contents(&self) -> &'a [u8]
        ensures { result.now ≡ contents_of self.now }
    {
        self.body.unwrap_or(&[])
    }

    /// Whether its selection is LARGEST.
    pub(crate) fn is_largest(&self) -> bool
        ensures { result ≡ is_largest self.now }
    {
        self.selection == COMDAT_SELECT_LARGEST
    }

    /// Whether its selection is LARGEST or ANY.
    fn is_any_or_largest(&self) -> bool
        ensures { result ≡ is_any_or_largest self.now }
    {
        self.selection == COMDAT_SELECT_ANY || self.selection == COMDAT_SELECT_LARGEST
    }

    /// Whether a group that this candidate is the first of may have another one.
    pub(crate) fn agrees(&self, other: &Candidate<'_>) -> bool
        ensures { result ≡ agrees self.now other.now }
    {
        match self.selection {
            COMDAT_SELECT_ANY | COMDAT_SELECT_LARGEST => other.is_any_or_largest(),
            COMDAT_SELECT_SAME_SIZE => {
                other.selection == COMDAT_SELECT_SAME_SIZE && other.size == self.size
            }
            COMDAT_SELECT_EXACT_MATCH => {
                other.selection == COMDAT_SELECT_EXACT_MATCH && other.contents() == self.contents()
            }
            _ => false,
        }
    }
}
