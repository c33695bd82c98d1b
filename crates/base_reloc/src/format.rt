//! The length of a part of the format (PE Format, "The .reloc Section (Image Only)").

/// The bytes of a block before its entries.
pub(crate) const BLOCK_HEADER_LEN: usize = 8;
