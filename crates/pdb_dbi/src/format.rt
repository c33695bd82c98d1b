//! Numbers of the format (LLVM, "The PDB File Format" and the pages on its streams).

/// The first word of the part of contributions, where they name no section of the object.
pub(crate) const SECTION_CONTRIBUTIONS_VER60: u32 = 0xf12e_ba2d;

/// The same where they do.
pub(crate) const SECTION_CONTRIBUTIONS_V2: u32 = 0xf131_51e4;

/// The bytes of the first word.
pub(crate) const VERSION_SIZE: usize = 4;

/// The bytes of a contribution where it names no section of the object.
pub(crate) const CONTRIBUTION_VER60_SIZE: usize = 28;

/// The same where it does.
pub(crate) const CONTRIBUTION_V2_SIZE: usize = 32;

/// What the stream of debug information begins with.
pub(crate) const DBI_SIGNATURE: u32 = 0xffff_ffff;

/// The version of that stream.
pub(crate) const DBI_V70: u32 = 19_990_903;

/// The bytes of its header.
pub(crate) const DBI_HEADER_SIZE: usize = 64;

/// The number of that stream.
pub(crate) const DBI_STREAM: u32 = 3;

/// The stream of global symbols.
pub(crate) const GLOBALS_STREAM: u16 = 5;

/// The stream of public symbols.
pub(crate) const PUBLICS_STREAM: u16 = 6;

/// The stream of the records of symbols.
pub(crate) const RECORDS_STREAM: u16 = 7;

/// The stream of the headers of the image's sections.
pub(crate) const HEADERS_STREAM: u16 = 8;

/// No stream.
pub(crate) const NO_STREAM: u16 = 0xffff;

/// The bytes of the numbers of optional streams.
pub(crate) const OPTIONAL_STREAMS_SIZE: usize = 22;

/// The age of the file, which is that of the image's debug data.
pub(crate) const AGE: u32 = 1;

/// Version 14.0 of the tools, in the new form.
pub(crate) const BUILD_NUMBER: u16 = 0x8e00;

/// The version of the information stream.
pub(crate) const PDB_VC70: u32 = 20_000_404;

/// The feature that there is a stream of ids.
pub(crate) const FEATURE_VC140: u32 = 20_140_508;

/// The version of a stream of types.
pub(crate) const TYPES_V80: u32 = 20_040_203;

/// The bytes of the header of a stream of types.
pub(crate) const TYPES_HEADER_SIZE: u32 = 56;

/// The index of the first type of a file.
pub(crate) const FIRST_TYPE: u32 = 0x1000;

/// The buckets of the hash table of types.
pub(crate) const HASH_BUCKETS: u32 = 0x3_ffff;

/// The bytes of a section's descriptor.
pub(crate) const DESCRIPTOR_SIZE: usize = 20;

/// A section may be read.
pub(crate) const SECTION_READ: u16 = 0x1;

/// A section may be written.
pub(crate) const SECTION_WRITE: u16 = 0x2;

/// A section may be executed.
pub(crate) const SECTION_EXECUTE: u16 = 0x4;

/// Addresses have 32 bits, and the frame is a section's number.
pub(crate) const SECTION_SELECTOR: u16 = 0x108;

/// Addresses have 32 bits and are absolute.
pub(crate) const SECTION_ABSOLUTE: u16 = 0x208;
