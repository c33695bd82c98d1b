//! What can be wrong with an image that is to be loaded.

/// What is wrong with an image that is to be loaded, in the order of the tests.
#[derive(Clone, Copy, Debug, PartialEq, Eq)]
pub enum ImageKind {
    /// The DOS header is cut, or does not begin `MZ`.
    Dos,
    /// No PE signature stands where the DOS header points.
    Signature,
    /// The machine is not x86-64.
    Machine,
    /// The optional header has not 240 bytes, or leaves the file.
    OptionalSize,
    /// The optional header is not that of PE32+.
    Magic,
    /// The alignments are not 4,096 in memory and 512 in the file.
    Alignment,
    /// There are not 16 directories.
    Directories,
    /// The size in memory is 0 or above the limit.
    ImageSize,
    /// The headers do not lie in the file and in the memory, or the section headers not in them.
    Headers,
    /// A section is not page-aligned, overlaps what stands before it, or leaves the memory.
    Sections,
    /// The raw bytes of a section leave the file.
    Raw,
    /// The base relocations leave the memory or are malformed.
    Blocks,
}
