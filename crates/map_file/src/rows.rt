//! What a map lists.

use link_base::Name;

/// A module by its file and, where it comes from a library, the member.
#[derive(Drop)]
pub struct MapModule<'a> {
    pub file: Name<'a>,
    pub member: Option<Name<'a>>,
}

/// A section of the image, with its whole name.
#[derive(Drop)]
pub struct MapSection<'a> {
    pub name: Name<'a>,
    pub rva: u32,
    pub size: u32,
    pub flags: u32,
}

/// A unit of layout, with the position of its module.
#[derive(Drop)]
pub struct MapPiece<'a> {
    pub rva: u32,
    pub size: u32,
    pub module: u32,
    pub name: Name<'a>,
}

/// A public symbol, with the position of its module.
#[derive(Drop)]
pub struct MapPublic<'a> {
    pub rva: u32,
    pub module: u32,
    pub name: Name<'a>,
}

/// All that a map says: the address that the image prefers, its size in memory, the RVA of its entry, and its lists.
#[derive(Drop)]
pub struct MapRows<'a> {
    pub base: u64,
    pub image: u32,
    pub entry: u32,
    pub modules: Vec<MapModule<'a>>,
    pub sections: Vec<MapSection<'a>>,
    pub pieces: Vec<MapPiece<'a>>,
    pub publics: Vec<MapPublic<'a>>,
}
