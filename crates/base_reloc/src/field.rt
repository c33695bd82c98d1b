//! A field that holds an address.

/// A field of a mapped image that holds an address: its RVA, and whether it has eight bytes (DIR64) or four (HIGHLOW).
#[derive(Clone, Copy, Debug, PartialEq, Eq)]
pub struct BaseField {
    pub rva: u32,
    pub wide: bool,
}
