//! What the program database of an image lists.

ghost use Rattle.std.specs.Prelude.{◌≡◌, ◌≤◌, ◌↔◌, length, IsTrue, IfOk};
ghost use Rattle.std.specs.List.{All};
ghost use Rattle.link_base.specs.Limits.{MODULE_LIMIT, SECTION_LIMIT};
ghost use Rattle.section_group.specs.Uniqueness.{rows_of};
ghost use Rattle.piece_bytes.specs.Owners.{owners};
ghost use Rattle.pdb_publics.specs.PublicStreams.{PUBLIC_NAME_LIMIT};
ghost use Rattle.debug_rows.specs.ImageMap.{mapped};
ghost use Rattle.image_pdb.specs.ImagePdb.{image_modules, image_contributions, image_publics};

use debug_rows::{MappedImage, contributions, module_names, public_rows};
use link_base::Memory;
use pdb_dbi::{Contribution, ModuleName};
use pdb_publics::PublicRow;
use std::alloc::Global;

/// The greatest length of the name of a public symbol in a program database, in bytes.
const PUBLIC_NAME_LIMIT: usize = 32_006;

/// The names of the modules of an image, what each of its pieces gives to a section, and its public symbols.
#[derive(Drop)]
pub(crate) struct ImageRows<'a> {
    pub modules: Vec<ModuleName<'a>>,
    pub contributions: Vec<Contribution>,
    pub publics: Vec<PublicRow<'a>>,
}

/// Those of an image. A name that is too long counts as want of memory.
pub(crate) fn image_rows<'a>(
    alloc: Global,
    image: &MappedImage<'_, 'a>,
) -> Result<ImageRows<'a>, Memory>
    requires few_modules { length image.now.modules.now ≤ MODULE_LIMIT }
    requires few_sections { length image.now.sections.now ≤ SECTION_LIMIT }
    requires places { length image.now.layout.now.sections.items ≡ length image.now.sections.now }
    requires owner { image.now.owner.now ≡ owners (rows_of image.now.sections.now) (length image.now.layout.now.pieces.items) }
    requires modules { All (λ piece. piece.«module» ≤ length image.now.modules.now) image.now.pieces.now }
    ensures modules { IfOk result (λ rows. rows.modules.items ≡ image_modules (mapped image.now)) }
    ensures contributions { IfOk result (λ rows. rows.contributions.items ≡ image_contributions (mapped image.now)) }
    ensures publics { IfOk result (λ rows. rows.publics.items ≡ image_publics (mapped image.now)) }
    ensures names { IfOk result (λ rows. All (λ row. length row.name ≤ PUBLIC_NAME_LIMIT) rows.publics.items) }
{
    let modules = module_names(alloc, image.modules)?;
    let contributions = contributions(
        alloc,
        image.modules,
        image.pieces,
        image.sections,
        image.layout,
    )?;
    let publics = public_rows(
        alloc,
        image.publics,
        image.owner,
        image.sections,
        image.layout,
    )?;
    if !are_short(&publics) {
        return Err(Memory);
    }
    Ok(ImageRows {
        modules,
        contributions,
        publics,
    })
}

/// Whether no name is too long for a program database.
fn are_short(rows: &[PublicRow<'_>]) -> bool
    ensures { IsTrue result ↔ All (λ row. length row.name ≤ PUBLIC_NAME_LIMIT) rows.now }
{
    rows.iter().all(|row| row.name.len() <= PUBLIC_NAME_LIMIT)
}
