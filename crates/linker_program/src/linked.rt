//! What a link made.

/// What a link made, before it is written.
#[derive(Drop)]
pub struct Linked {
    /// How many modules were linked.
    pub modules: usize,
    /// How many sections the image has.
    pub sections: u32,
    /// The file of the image.
    pub image: Vec<u8>,
    /// The text of its map, where one is asked for.
    pub map: Option<Vec<u8>>,
    /// The file of its PDB, where one is asked for.
    pub pdb: Option<Vec<u8>>,
    /// The file of its import library, where one is asked for and it has exports.
    pub library: Option<Vec<u8>>,
}
