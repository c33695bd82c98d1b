//! How much the tables of some DLLs take.

/// The number of DLLs, of the entries in their lookup tables, and of the bytes of their names.
#[derive(Clone, Copy)]
pub(crate) struct Extent {
    pub dlls: usize,
    pub entries: usize,
    pub names: usize,
}

/// That of no DLL.
pub(crate) const NO_EXTENT: Extent = Extent {
    dlls: 0,
    entries: 0,
    names: 0,
};
