//! The numbers of the object and image formats, with the names of the PE Format specification less `IMAGE_`.

// "Machine Types"
pub const FILE_MACHINE_UNKNOWN: u16 = 0;

pub const FILE_MACHINE_AMD64: u16 = 0x8664;

// COFF File Header (Object and Image), Section Table (Section Headers), COFF Relocations, COFF Symbol Table; for big objects LLVM, `COFF::Symbol32Size` and `COFF::BigObjHeader`
pub const SIZEOF_FILE_HEADER: usize = 20;

pub const SIZEOF_SECTION_HEADER: usize = 40;

pub const SIZEOF_RELOCATION: usize = 10;

pub const SIZEOF_SYMBOL: usize = 18;

pub const SIZEOF_SYMBOL_EX: usize = 20;

pub const SIZEOF_BIG_OBJECT_HEADER: usize = 56;

// "Section Flags"
pub const SCN_TYPE_NO_PAD: u32 = 0x8;

pub const SCN_CNT_CODE: u32 = 0x20;

pub const SCN_CNT_INITIALIZED_DATA: u32 = 0x40;

pub const SCN_CNT_UNINITIALIZED_DATA: u32 = 0x80;

pub const SCN_LNK_INFO: u32 = 0x200;

pub const SCN_LNK_REMOVE: u32 = 0x800;

pub const SCN_LNK_COMDAT: u32 = 0x1000;

pub const SCN_LNK_NRELOC_OVFL: u32 = 0x0100_0000;

pub const SCN_MEM_DISCARDABLE: u32 = 0x0200_0000;

pub const SCN_MEM_NOT_CACHED: u32 = 0x0400_0000;

pub const SCN_MEM_NOT_PAGED: u32 = 0x0800_0000;

pub const SCN_MEM_SHARED: u32 = 0x1000_0000;

pub const SCN_MEM_EXECUTE: u32 = 0x2000_0000;

pub const SCN_MEM_READ: u32 = 0x4000_0000;

pub const SCN_MEM_WRITE: u32 = 0x8000_0000;
/// The flags of a section that say how its pages are used: SCN_MEM_DISCARDABLE and those above it.
pub const SCN_MEM_ATTRIBUTES: u32 = 0xfe00_0000;

// "Storage Class"
pub const SYM_CLASS_EXTERNAL: u8 = 2;

pub const SYM_CLASS_STATIC: u8 = 3;

pub const SYM_CLASS_LABEL: u8 = 6;

pub const SYM_CLASS_FUNCTION: u8 = 101;

pub const SYM_CLASS_FILE: u8 = 103;

pub const SYM_CLASS_SECTION: u8 = 104;

pub const SYM_CLASS_WEAK_EXTERNAL: u8 = 105;

// "Auxiliary Format 3: Weak Externals"
pub const WEAK_EXTERN_SEARCH_NOLIBRARY: u32 = 1;

pub const WEAK_EXTERN_SEARCH_LIBRARY: u32 = 2;

pub const WEAK_EXTERN_SEARCH_ALIAS: u32 = 3;

// "COMDAT Sections (Object Only)"
pub const COMDAT_SELECT_NODUPLICATES: u8 = 1;

pub const COMDAT_SELECT_ANY: u8 = 2;

pub const COMDAT_SELECT_SAME_SIZE: u8 = 3;

pub const COMDAT_SELECT_EXACT_MATCH: u8 = 4;

pub const COMDAT_SELECT_ASSOCIATIVE: u8 = 5;

pub const COMDAT_SELECT_LARGEST: u8 = 6;

// Type Indicators, x64 Processors
pub const REL_AMD64_ABSOLUTE: u16 = 0;

pub const REL_AMD64_ADDR64: u16 = 1;

pub const REL_AMD64_ADDR32: u16 = 2;

pub const REL_AMD64_ADDR32NB: u16 = 3;

pub const REL_AMD64_REL32: u16 = 4;

pub const REL_AMD64_REL32_1: u16 = 5;

pub const REL_AMD64_REL32_2: u16 = 6;

pub const REL_AMD64_REL32_3: u16 = 7;

pub const REL_AMD64_REL32_4: u16 = 8;

pub const REL_AMD64_REL32_5: u16 = 9;

pub const REL_AMD64_SECTION: u16 = 10;

pub const REL_AMD64_SECREL: u16 = 11;

// "Base Relocation Types"
pub const REL_BASED_ABSOLUTE: u16 = 0;

pub const REL_BASED_HIGHLOW: u16 = 3;

pub const REL_BASED_DIR64: u16 = 10;

// Optional Header (Image Only), and the signatures before it
pub const DOS_SIGNATURE: u32 = 0x5a4d;

pub const NT_SIGNATURE: u32 = 0x4550;

pub const NT_OPTIONAL_HDR64_MAGIC: u32 = 0x20b;

// Optional Header Windows-Specific Fields (Image Only); that the PE header follows a DOS header of 64 bytes is own
pub const PAGE_SIZE: u32 = 4096;

pub const FILE_ALIGNMENT: u32 = 512;

pub const PE_HEADER_OFFSET: u32 = 64;

pub const SIZEOF_OPTIONAL_HEADER: u32 = 240;

pub const SECTION_HEADERS_OFFSET: u32 = 328;

pub const NUMBEROF_DIRECTORY_ENTRIES: u32 = 16;

// "Characteristics"
pub const FILE_RELOCS_STRIPPED: u16 = 0x1;

pub const FILE_EXECUTABLE_IMAGE: u16 = 0x2;

pub const FILE_LARGE_ADDRESS_AWARE: u16 = 0x20;

pub const FILE_DLL: u16 = 0x2000;

// "DLL Characteristics"
pub const DLLCHARACTERISTICS_HIGH_ENTROPY_VA: u16 = 0x20;

pub const DLLCHARACTERISTICS_DYNAMIC_BASE: u16 = 0x40;

pub const DLLCHARACTERISTICS_NX_COMPAT: u16 = 0x100;

// "Windows Subsystem"
pub const SUBSYSTEM_NATIVE: u16 = 1;

pub const SUBSYSTEM_WINDOWS_GUI: u16 = 2;

pub const SUBSYSTEM_WINDOWS_CUI: u16 = 3;

// "Optional Header Data Directories (Image Only)"
pub const DIRECTORY_ENTRY_EXPORT: usize = 0;

pub const DIRECTORY_ENTRY_IMPORT: usize = 1;

pub const DIRECTORY_ENTRY_RESOURCE: usize = 2;

pub const DIRECTORY_ENTRY_EXCEPTION: usize = 3;

pub const DIRECTORY_ENTRY_BASERELOC: usize = 5;

pub const DIRECTORY_ENTRY_DEBUG: usize = 6;

pub const DIRECTORY_ENTRY_TLS: usize = 9;

pub const DIRECTORY_ENTRY_LOAD_CONFIG: usize = 10;

pub const DIRECTORY_ENTRY_IAT: usize = 12;

// "Section Number Values"
pub const SYM_UNDEFINED: i32 = 0;

pub const SYM_ABSOLUTE: i32 = -1;

pub const SYM_DEBUG: i32 = -2;
