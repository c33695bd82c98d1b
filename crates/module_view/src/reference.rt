//! What a module names and does not define.

use link_base::Name;

/// A symbol that stands for what another symbol defines.
#[derive(Drop)]
pub struct Reference<'a> {
    pub name: Name<'a>,
    /// The record that the symbol starts at.
    pub symbol: u32,
    /// Whether libraries are searched for the name.
    pub search: bool,
}

/// A weak external: a name that means what another symbol means where nothing defines it.
#[derive(Drop)]
pub struct Weak<'a> {
    pub name: Name<'a>,
    /// The record that the symbol starts at.
    pub symbol: u32,
    /// The record that the other symbol starts at.
    pub tag: u32,
}
