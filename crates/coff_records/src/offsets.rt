//! Where the fields stand in the headers and records of an object (PE Format, "COFF File Header (Object and Image)", "Section
//! Table (Section Headers)", "COFF Relocations", "COFF Symbol Table"; for big objects LLVM, `COFF::BigObjHeader` and
//! `COFF::symbol32`).

// The file header of a plain object.
pub(crate) const FILE_MACHINE: usize = 0;

pub(crate) const FILE_NUMBER_OF_SECTIONS: usize = 2;

pub(crate) const FILE_POINTER_TO_SYMBOL_TABLE: usize = 8;

pub(crate) const FILE_NUMBER_OF_SYMBOLS: usize = 12;

pub(crate) const FILE_SIZE_OF_OPTIONAL_HEADER: usize = 16;

// The header of a big object.
pub(crate) const BIG_MACHINE: usize = 6;

pub(crate) const BIG_CLASS: usize = 12;

pub(crate) const BIG_NUMBER_OF_SECTIONS: usize = 44;

pub(crate) const BIG_POINTER_TO_SYMBOL_TABLE: usize = 48;

pub(crate) const BIG_NUMBER_OF_SYMBOLS: usize = 52;

// A section header. A name field comes first, here and in a symbol.
pub(crate) const SIZEOF_SHORT_NAME: usize = 8;

pub(crate) const SECTION_SIZE_OF_RAW_DATA: usize = 16;

pub(crate) const SECTION_POINTER_TO_RAW_DATA: usize = 20;

pub(crate) const SECTION_POINTER_TO_RELOCATIONS: usize = 24;

pub(crate) const SECTION_NUMBER_OF_RELOCATIONS: usize = 32;

pub(crate) const SECTION_CHARACTERISTICS: usize = 36;

// A relocation.
pub(crate) const RELOCATION_SYMBOL_TABLE_INDEX: usize = 4;

pub(crate) const RELOCATION_TYPE: usize = 8;

// A symbol: a plain one, and one of a big object, whose section number has four bytes.
pub(crate) const SYMBOL_NAME_OFFSET: usize = 4;

pub(crate) const SYMBOL_VALUE: usize = 8;

pub(crate) const SYMBOL_SECTION_NUMBER: usize = 12;

pub(crate) const SYMBOL_TYPE: usize = 14;

pub(crate) const SYMBOL_STORAGE_CLASS: usize = 16;

pub(crate) const SYMBOL_NUMBER_OF_AUX_SYMBOLS: usize = 17;

pub(crate) const BIG_SYMBOL_TYPE: usize = 16;

pub(crate) const BIG_SYMBOL_STORAGE_CLASS: usize = 18;

pub(crate) const BIG_SYMBOL_NUMBER_OF_AUX_SYMBOLS: usize = 19;
