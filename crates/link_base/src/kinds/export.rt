//! What can be wrong with an export.

/// What is wrong with an export, in the order of the tests.
#[derive(Clone, Copy, Debug, PartialEq, Eq)]
pub enum ExportFault {
    /// The ordinal is 0.
    ZeroOrdinal,
    /// An earlier export of this name differs from it.
    TwoNames,
    /// An earlier export has this ordinal.
    TwoOrdinals,
    /// The ordinal is above 65,535.
    TooMany,
    /// What is exported is no place in the image.
    Absolute,
    /// What is exported lies in the export table itself, where its address would read as a forwarder.
    InTable,
}
