//! Why a file is not loaded.

/// Why a file is not loaded, in the order of the tests.
#[derive(Clone, Copy, Debug, PartialEq, Eq)]
pub enum LoadError {
    /// No file of this name is there.
    NotFound,
    /// The file has more than `FILE_LIMIT` bytes.
    TooLarge,
    /// The file was read, and with it the inputs have more than `INPUT_LIMIT` bytes together.
    InputLimit {
        /// How many bytes they have together, this file's among them.
        sum: u64,
    },
    /// The outside failed.
    Fault,
    /// Memory was refused.
    Memory,
}
