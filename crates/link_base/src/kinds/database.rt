//! What can be wrong with a program database.

/// What is wrong with a program database, in the order of the tests.
#[derive(Clone, Copy, Debug, PartialEq, Eq)]
pub enum PdbKind {
    /// The superblock is cut, or does not begin as one.
    Superblock,
    /// The block size is not 4,096, or a block lies beyond the file.
    Blocks,
    /// The directory is too long, or too short for its streams.
    Directory,
    /// The header of the stream of modules and contributions, or its contributions, are malformed.
    Header,
    /// The hash table of the public symbols is malformed.
    Hash,
}
