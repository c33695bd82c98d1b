//! What can be wrong with a resource file, and what names a resource.

/// What is wrong with an entry of a resource file.
#[derive(Clone, Copy, Debug, PartialEq, Eq)]
pub enum ResFault {
    /// A field of the entry's header leaves the file, or the header's size is not one that it can have.
    Header,
    /// A type or a name has more than 32,000 units.
    Name,
    /// The data leave the file.
    Data,
}

/// The type or the name of a resource (Windows, "Resource File Formats").
#[derive(Clone, Copy, Debug, PartialEq, Eq)]
pub enum ResName<'a> {
    Number(u16),
    /// The units of UTF-16 as bytes, the lower byte first.
    Text(&'a [u8]),
}
