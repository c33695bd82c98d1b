//! The numbers of the import tables, by the PE Format specification less `IMAGE_`.

/// The bytes of a descriptor ("Import Directory Table").
pub(crate) const SIZEOF_IMPORT_DESCRIPTOR: usize = 20;

/// The bytes of an entry ("Import Lookup Table"), and of its slot ("Import Address Table").
pub(crate) const SIZEOF_LOOKUP_ENTRY: usize = 8;

/// Bit 63 of an entry, for an import by ordinal.
pub(crate) const ORDINAL_FLAG64: u64 = 1 << 63;
