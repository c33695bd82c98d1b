//! What can be wrong with a short import.

/// What is wrong with a short import, in the order of the tests.
#[derive(Clone, Copy, Debug, PartialEq, Eq)]
pub enum ImpFault {
    /// The header or the data leave the file.
    Length,
    /// The machine is not x86-64.
    Machine,
    /// The type is none of the format.
    Kind,
    /// The type of the name is none of those that are read.
    NameType,
    /// A text is empty, or does not end in the data.
    Text,
}
