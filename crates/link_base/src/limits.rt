//! Limits of this linker (own).

/// The greatest length of a name and of a word of the command line, in bytes.
pub const NAME_LIMIT: usize = 32_000;

/// The greatest length of a file that a link reads, in bytes.
pub const FILE_LIMIT: u64 = 268_435_456;

/// The greatest length of all inputs of a link together, in bytes.
pub const INPUT_LIMIT: u64 = 1_073_741_824;

/// The greatest number of modules.
pub const MODULE_LIMIT: usize = 65_534;

/// The greatest number of sections of an image.
pub const SECTION_LIMIT: usize = 96;

/// The greatest size of an image in memory, in bytes.
pub const IMAGE_LIMIT: u32 = 536_870_912;
