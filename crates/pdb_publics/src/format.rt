//! Numbers of the format (LLVM, "The PDB Public Symbol Stream" and "CodeView Symbol Records").

/// The stream of the publics and of their hash table.
pub(crate) const PUBLICS_STREAM: u32 = 6;

/// The stream of the symbol records.
pub(crate) const RECORDS_STREAM: u32 = 7;

/// The bytes of the stream of publics before the hash part.
pub(crate) const PUBLICS_HEADER_LEN: usize = 28;

/// Where the stream of publics holds the bytes of its hash part.
pub(crate) const HASH_LEN_AT: usize = 0;

/// Where it holds the bytes of its address map.
pub(crate) const MAP_LEN_AT: usize = 4;

/// Where its hash part, behind the header, holds the bytes of the records.
pub(crate) const RECORDS_LEN_AT: usize = 36;

/// Where the hash part holds the bytes of the bitmap and of the words of buckets.
pub(crate) const TABLES_LEN_AT: usize = 40;

/// The bytes of a hash part before its records.
pub(crate) const HASH_HEADER_LEN: usize = 16;

/// The bytes of a record of a hash part.
pub(crate) const HASH_RECORD_LEN: usize = 8;

/// The bytes by which the words of buckets count a record of a hash part.
pub(crate) const COUNTED_RECORD_LEN: usize = 12;

/// What a hash part begins with.
pub(crate) const HASH_SIGNATURE: u32 = 0xffff_ffff;

/// The version of a hash part.
pub(crate) const HASH_VERSION: u32 = 0xf12f_091a;

/// The buckets of a hash part.
pub(crate) const BUCKET_COUNT: usize = 4096;

/// The bits of a hash part's bitmap.
pub(crate) const BITMAP_BITS: usize = 4128;

/// The bytes of a hash part's bitmap.
pub(crate) const BITMAP_LEN: usize = 516;

/// The kind of the record of a public symbol.
pub(crate) const S_PUB32: u16 = 0x110e;

/// The flag of a public that is a function.
pub(crate) const PUBLIC_FUNCTION: u32 = 2;

/// The bytes of the record of a public before its name.
pub(crate) const RECORD_HEADER_LEN: usize = 14;
