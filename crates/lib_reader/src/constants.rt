//! The numbers and texts of the library format, with the names of the PE Format specification less `IMAGE_`.

/// What a library begins with.
pub(crate) const ARCHIVE_START: &[u8] = b"!<arch>\n";

pub(crate) const SIZEOF_ARCHIVE_MEMBER_HDR: usize = 60;

/// What a member's header ends with.
pub(crate) const ARCHIVE_END: &[u8] = b"`\n";

/// The name of a directory, and that of the member of long names.
pub(crate) const ARCHIVE_LINKER_MEMBER: &[u8] = b"/";

pub(crate) const ARCHIVE_LONGNAMES_MEMBER: &[u8] = b"//";

/// How the names of the members for other machines begin, as `/<HYBRIDMAP>/`.
pub(crate) const ARCHIVE_OTHER_MEMBER: &[u8] = b"/<";
