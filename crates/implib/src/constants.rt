//! The numbers and texts of the archive format and of short imports, with the names of the PE Format specification less
//! `IMAGE_`.

/// What a library begins with.
pub(crate) const ARCHIVE_START: &[u8] = b"!<arch>\n";

/// What a member's header ends with.
pub(crate) const ARCHIVE_END: &[u8] = b"`\n";

pub(crate) const SIZEOF_ARCHIVE_MEMBER_HDR: usize = 60;

/// The name of a linker member, and that of the member of long names.
pub(crate) const ARCHIVE_LINKER_MEMBER: &[u8] = b"/";

pub(crate) const ARCHIVE_LONGNAMES_MEMBER: &[u8] = b"//";

/// The longest name that stands in a header with a slash behind it.
pub(crate) const SHORT_NAME_LIMIT: usize = 15;

/// What stands before a symbol in the name of its entry of the import address table.
pub(crate) const IMPORT_PREFIX: &[u8] = b"__imp_";

/// The two numbers that a short import begins with, and the size of its header.
pub(crate) const IMPORT_SIG1: u16 = 0;

pub(crate) const IMPORT_SIG2: u16 = 0xFFFF;

pub(crate) const SIZEOF_IMPORT_HEADER: usize = 20;

// "Import Type"
pub(crate) const IMPORT_CODE: u16 = 0;

pub(crate) const IMPORT_DATA: u16 = 1;

pub(crate) const IMPORT_CONST: u16 = 2;

// "Import Name Type"
pub(crate) const IMPORT_ORDINAL: u16 = 0;

pub(crate) const IMPORT_NAME: u16 = 1;

/// The name of each row's member where the name of the DLL is a long one: the offset of the first long name.
pub(crate) const FIRST_LONG_NAME: &[u8] = b"/0";

/// What ends a name in a header.
pub(crate) const NAME_END: &[u8] = b"/";
