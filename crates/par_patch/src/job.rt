//! What is patched, and a value that does not fit.

use relocate::Fixups;

/// A piece of the link whose fields are patched in the file of the image.
#[derive(Clone, Copy)]
pub struct Job<'a> {
    /// The index of the piece among those of the layout.
    pub piece: u32,
    /// The position of its module.
    pub module: u32,
    /// The number of its section in the module, from 1 on.
    pub section: u32,
    /// The offset of its first byte in the file.
    pub start: usize,
    /// How many bytes it has.
    pub len: usize,
    /// Its fields.
    pub fixups: &'a Fixups,
}

/// The relocation of this index, of a section of a module, has a value that lies out of the range of its type.
#[derive(Clone, Copy, Debug, PartialEq, Eq)]
pub struct JobRange {
    pub module: u32,
    pub section: u32,
    pub index: u32,
    pub value: i128,
}
