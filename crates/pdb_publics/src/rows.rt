//! Public symbols as they are given, and as they are found.

ghost use Rattle.std.specs.Prelude.{◌≡◌};

use link_base::Name;

/// A public symbol: its name, the number of its section from 1, its offset in the section, and whether it is a function.
#[derive(PartialEq, Eq, PartialOrd, Ord, Drop)]
pub struct PublicRow<'a> {
    pub name: Name<'a>,
    pub section: u16,
    pub offset: u32,
    pub function: bool,
}

impl<'a> PublicRow<'a> {
    /// An equal row.
    pub(crate) fn again(&self) -> PublicRow<'a>
        ensures { result ≡ self.now }
    {
        PublicRow {
            name: self.name.again(),
            section: self.section,
            offset: self.offset,
            function: self.function,
        }
    }
}

/// A public symbol that was found: the number of its section, its offset in the section, and its flags, of which 2 stands
/// for a function.
#[derive(Clone, Copy, Debug, PartialEq, Eq)]
pub struct Public {
    pub section: u16,
    pub offset: u32,
    pub flags: u32,
}

/// The streams that list public symbols: of globals, of publics, and of symbol records.
#[derive(Drop)]
pub struct PublicStreams {
    pub globals: Vec<u8>,
    pub publics: Vec<u8>,
    pub records: Vec<u8>,
}
