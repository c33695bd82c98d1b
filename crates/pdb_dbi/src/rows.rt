//! What the stream of debug information lists.

use link_base::Name;

/// The bytes that a module gives to a section of the image.
#[derive(Clone, Copy, Debug, PartialEq, Eq)]
pub struct Contribution {
    /// The number of the section, from 1.
    pub section: u16,
    /// The offset in the section.
    pub offset: u32,
    /// The size in memory.
    pub size: u32,
    /// The characteristics of the section of the object.
    pub flags: u32,
    /// The position of the module.
    pub module: u16,
    /// The number of the section in the object, from 1, or 0 where the bytes come from none.
    pub coff: u32,
}

/// A module by its name and by its file: the member and the library, or twice the object.
#[derive(Drop)]
pub struct ModuleName<'a> {
    pub name: Name<'a>,
    pub file: Name<'a>,
}
