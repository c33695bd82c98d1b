//! Numbers of the streams and of the file (LLVM, "The PDB File Format" and the pages on its streams).

/// The bytes of a block of the file.
pub(crate) const BLOCK_SIZE: u128 = 4096;

/// The blocks of data of every 4,096, of which two are free maps.
pub(crate) const DATA_BLOCKS: u128 = 4094;

/// The bytes of the information beside the identifier.
pub(crate) const INFO_FIELDS_LEN: u128 = 40;

/// The bytes of a stream of types that has none.
pub(crate) const TYPES_LEN: u128 = 56;

/// The bytes of the stream of globals, a hash part without records.
pub(crate) const GLOBALS_LEN: u128 = HASH_HEADER_LEN + BITMAP_LEN;

/// The bytes of the header of the debug information.
pub(crate) const DBI_HEADER_LEN: u128 = 64;

/// The bytes before the name in the record of a module.
pub(crate) const MODULE_HEADER_LEN: u128 = 64;

/// The bytes of a contribution.
pub(crate) const CONTRIBUTION_LEN: u128 = 32;

/// The bytes of a section's descriptor.
pub(crate) const DESCRIPTOR_LEN: u128 = 20;

/// The bytes of the numbers of optional streams.
pub(crate) const OPTIONAL_STREAMS_LEN: u128 = 22;

/// The bytes of the stream of publics before the hash part.
pub(crate) const PUBLICS_HEADER_LEN: u128 = 28;

/// The bytes of a hash part before its records.
pub(crate) const HASH_HEADER_LEN: u128 = 16;

/// The bytes of a record of a hash part.
pub(crate) const HASH_RECORD_LEN: u128 = 8;

/// The buckets of a hash part.
pub(crate) const BUCKET_COUNT: usize = 4096;

/// The bytes of a hash part's bitmap.
pub(crate) const BITMAP_LEN: u128 = 516;

/// The bytes of a record of a public before its name.
pub(crate) const RECORD_HEADER_LEN: u128 = 14;

/// The bytes of a number of 32 bits: the first word of the contributions, the counts before descriptors and source files,
/// the place of a module's files, the word of a bucket, and an offset of the address map.
pub(crate) const WORD_LEN: u128 = 4;
