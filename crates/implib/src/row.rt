//! The rows of an import library.

use link_base::Name;
use short_import::{ImportBy, ImportKind};

/// One symbol that a DLL exports: the symbol, what it is, and how the loader finds it in the DLL.
#[derive(Drop)]
pub struct LibraryRow<'a> {
    pub symbol: Name<'a>,
    pub kind: ImportKind,
    pub by: ImportBy<'a>,
}
