//! The numbers of the import library format, with the names of the PE Format specification less `IMAGE_`.

// "Import Type"
pub(crate) const IMPORT_CODE: u16 = 0;

pub(crate) const IMPORT_DATA: u16 = 1;

pub(crate) const IMPORT_CONST: u16 = 2;

// "Import Name Type"
pub(crate) const IMPORT_ORDINAL: u16 = 0;

pub(crate) const IMPORT_NAME: u16 = 1;

pub(crate) const IMPORT_NAME_NOPREFIX: u16 = 2;

pub(crate) const IMPORT_NAME_UNDECORATE: u16 = 3;
