//! What can be wrong with a library.

/// What is wrong with a library. The offset beside it is that of the member's header; at one header the order is
/// `Header`, `Size`, `LongName`, `Directory`.
#[derive(Clone, Copy, Debug, PartialEq, Eq)]
pub enum LibFault {
    /// The file does not begin as a library does.
    Magic,
    /// A member's header leaves the file, or does not end as the format says.
    Header,
    /// A member's size is no decimal number, or its data leave the file.
    Size,
    /// The first member is no directory, or a directory's counts, indices or names leave it.
    Directory,
    /// A long name's offset is malformed, or not in the member of long names.
    LongName,
}
