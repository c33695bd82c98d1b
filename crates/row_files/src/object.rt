//! An object file as a row describes it: sections, which are numbered from 1, and symbols.

use std::alloc::Global;

/// The parts of an object.
#[derive(Drop)]
pub struct Object {
    pub form: Form,
    pub sections: Vec<Section>,
    pub symbols: Vec<Symbol>,
    /// How many of the file's first bytes there are, where it is cut off.
    pub cut: Option<usize>,
}

impl Object {
    pub fn new(alloc: Global, form: Form) -> Object {
        Object {
            form,
            sections: Vec::new(alloc),
            symbols: Vec::new(alloc),
            cut: None,
        }
    }
}

/// The two forms of objects: big ones have a wider header and wider symbol records.
#[derive(Clone, Copy, PartialEq, Eq)]
pub enum Form {
    Plain,
    Big,
}

#[derive(Drop)]
pub struct Section {
    pub name: String,
    /// The flags, which hold the alignment too, as they stand in the header.
    pub flags: u32,
    pub data: Vec<u8>,
    /// The size of a section without initial values, which has no place in the file.
    pub uninitialised: Option<u32>,
    pub relocations: Vec<Relocation>,
}

/// A field that means a symbol: its offset in the section, the symbol by its name or by the index of its record, and
/// its type.
#[derive(Drop)]
pub struct Relocation {
    pub offset: u32,
    pub symbol: String,
    pub kind: u16,
}

#[derive(Drop)]
pub struct Symbol {
    pub name: String,
    pub value: u32,
    /// The number of its section: 0 is undefined, 0xFFFFFFFF absolute, 0xFFFFFFFE for debugging.
    pub section: u32,
    pub kind: u16,
    pub class: u8,
    /// The count of auxiliary records that the record says, where it is not that of those that follow.
    pub aux_count: Option<u8>,
    pub aux: Vec<Aux>,
}

/// An auxiliary record.
#[derive(Drop)]
pub enum Aux {
    /// Its first bytes; the others are zeros.
    Bytes(Vec<u8>),
    /// The default of a weak external, by its name or by the index of its record, and how it is searched.
    Weak { default: String, search: u32 },
}
