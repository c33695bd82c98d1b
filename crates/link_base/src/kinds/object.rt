//! What can be wrong with an object.

/// What is wrong with an object file, in the order of the tests. The index beside it says where: a section
/// (from 1), a symbol record (from 0), or 0.
#[derive(Clone, Copy, Debug, PartialEq, Eq)]
pub enum ObjFault {
    /// The file header or the section headers leave the file.
    Truncated,
    /// The machine is neither x86-64 nor unknown.
    Machine,
    /// The data of a section leave the file.
    SectionRange,
    /// The relocations of a section leave the file, or their extended count is 0.
    RelocationRange,
    /// A symbol record leaves the file, or its auxiliary records leave the table.
    SymbolRange,
    /// The string table leaves the file, or a name that refers to it is malformed or does not end in it.
    StringTable,
    /// A section's alignment is not one of the format.
    Alignment,
    /// A symbol's section number is none of the file's, nor a special one.
    SectionNumber,
    /// A symbol's value is above its section's size.
    SymbolValue,
    /// A symbol lacks the auxiliary record that its class or its section needs, or the record is malformed.
    Aux,
    /// A COMDAT section's selection is not one of the format.
    Selection,
    /// An associative COMDAT section's parent is not a section, or a chain of parents comes back.
    Associative,
}
