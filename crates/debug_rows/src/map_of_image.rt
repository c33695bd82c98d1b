//! The map of an image.

ghost use Rattle.std.specs.Prelude.{◌≡◌, length, IfOk};
ghost use Rattle.section_group.specs.Uniqueness.{rows_of};
ghost use Rattle.piece_bytes.specs.Owners.{owners};
ghost use Rattle.debug_rows.specs.ImageMap.{mapped, image_map};

use crate::link_publics::PublicPlace;
use crate::map_rows::{map_modules, map_sections};
use crate::piece_rows::map_pieces;
use crate::placed_publics::map_publics;
use address_layout::Layout;
use link_base::Memory;
use map_file::{MapRows, map_text};
use module_view::Module;
use section_group::{OutSection, Piece};
use std::alloc::Global;

/// What a map lists: the modules, the pieces and the public symbols of what is kept of a link, and the sections and the places of
/// its image. `owner` has the index of the section of each piece, or the number of sections where it stands in none.
#[derive(Clone, Copy)]
pub struct MappedImage<'w, 'a> {
    pub modules: &'w [Module<'a>],
    pub pieces: &'w [Piece<'a>],
    pub publics: &'w [PublicPlace<'a>],
    pub sections: &'w [OutSection<'a>],
    pub layout: &'w Layout,
    pub owner: &'w [u32],
}

/// The text of the map of an image that prefers a base and begins at an RVA.
pub fn image_map<'a>(
    alloc: Global,
    image: &MappedImage<'_, 'a>,
    base: u64,
    entry: u32,
) -> Result<Vec<u8>, Memory>
    requires places { length image.now.layout.now.sections.items ≡ length image.now.sections.now }
    requires owner { image.now.owner.now ≡ owners (rows_of image.now.sections.now) (length image.now.layout.now.pieces.items) }
    ensures { IfOk result (λ text. text.items ≡ image_map (mapped image.now) base entry) }
{
    let modules = map_modules(alloc, image.modules)?;
    let sections = map_sections(alloc, image.sections, image.layout)?;
    let pieces = map_pieces(alloc, image.pieces, image.sections, image.layout)?;
    let publics = map_publics(
        alloc,
        image.publics,
        image.owner,
        image.sections,
        image.layout,
    )?;
    let rows = MapRows {
        base,
        image: image.layout.image,
        entry,
        modules,
        sections,
        pieces,
        publics,
    };
    let text = map_text(alloc, &rows)?;
    Ok(text)
}
