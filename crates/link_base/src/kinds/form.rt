//! Forms of input that are refused.

/// A form of input that is refused.
#[derive(Clone, Copy, Debug, PartialEq, Eq)]
pub enum Kind {
    /// An archive that names its members and does not hold them.
    ThinLibrary,
    /// LLVM bitcode.
    Bitcode,
    /// An executable image.
    Image,
    /// A compiled resource file.
    Resource,
    /// An anonymous object that is no big object: one of another version or class.
    Anonymous,
    /// An object with a section that the linker makes itself.
    LinkerSection,
    /// A section or symbol name of more than 32,000 bytes.
    LongName,
    /// A second module with a section of resources.
    SecondResource,
}
