//! Directives as values.

use link_base::Name;

/// One directive. Its names and texts borrow from the bytes that it was read from.
#[derive(Drop)]
pub enum Directive<'a> {
    /// A common has at least this alignment, a power of two by its exponent.
    AlignComm { name: Name<'a>, log: u8 },
    /// Where nothing defines the left name, it means what the right one means.
    AlternateName { left: Name<'a>, right: Name<'a> },
    /// A library to search, whose file is named so.
    DefaultLib(&'a str),
    /// A name that the image exports.
    Export(Export<'a>),
    /// Two modules that give one key different values don't go together.
    FailIfMismatch { key: Name<'a>, value: Name<'a> },
    /// A name that the link refers to.
    Include(Name<'a>),
    /// Sections of the left base name become part of the right one.
    Merge { left: Name<'a>, right: Name<'a> },
}

/// A row of the export table. Without an internal name the name itself is looked up; an internal name with
/// a dot in it is a forwarder. With `noname` it is exported by its ordinal alone. The form and `private` say how an import
/// library has it, which leaves out what is private.
#[derive(Drop)]
pub struct Export<'a> {
    pub name: Name<'a>,
    pub internal: Option<Name<'a>>,
    pub ordinal: Option<u16>,
    pub noname: bool,
    pub form: ExportForm,
    pub private: bool,
}

/// What an export is: data where it is said to be data, else a constant where that is said, else code.
#[derive(Clone, Copy, Debug, PartialEq, Eq)]
pub enum ExportForm {
    Code,
    Data,
    Const,
}

/// A malformed directive, by the offset where its word begins, or that of the quote that stays open.
#[derive(Clone, Copy, Debug, PartialEq, Eq)]
pub struct BadDirective {
    pub at: usize,
}
