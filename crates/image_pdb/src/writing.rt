//! The program database of an image, written.

ghost use Rattle.std.specs.Prelude.{◌≡◌, ◌≤◌, ◌*◌, length, map, IfOk, IfErr, OnOk};
ghost use Rattle.std.specs.List.{All};
ghost use Rattle.link_base.specs.Limits.{MODULE_LIMIT, SECTION_LIMIT};
ghost use Rattle.link_base.specs.PeFormat.{SIZEOF_SECTION_HEADER};
ghost use Rattle.section_group.specs.Uniqueness.{rows_of};
ghost use Rattle.piece_bytes.specs.Owners.{owners};
ghost use Rattle.pdb_msf.specs.WrittenFile.{MSF_LIMIT, file_size, msf_of};
ghost use Rattle.pdb_file.specs.PdbFile.{IsTooLarge};
ghost use Rattle.debug_rows.specs.ImageMap.{mapped};
ghost use Rattle.image_pdb.specs.ImagePdb.{image_streams};

use crate::rows::image_rows;
use debug_rows::MappedImage;
use pdb_file::{PdbParts, write_pdb};
use pdb_msf::MsfError;
use std::alloc::Global;

/// The program database of an image with this identifier, these section headers and this time. It names each module of the
/// link, and behind them the module of what the linker makes; it lists what each piece with bytes gives to its section, but for
/// the tables of exceptions and of base relocations; and it has each public symbol that stands in a section other than the table
/// of exceptions.
///
/// # Errors
///
/// `TooLarge` where the file would have more than 1,073,741,824 bytes, with their number. `Memory` where memory is wanting, the
/// number of bytes takes more than 64 bits, or the RVA of a public symbol more than 32; and a name of more than 32,006 bytes,
/// which no symbol of a link has, is want of memory.
pub fn image_pdb<'a>(
    alloc: Global,
    image: &MappedImage<'_, 'a>,
    time: u32,
    id: &[u8; 16],
    headers: &[u8],
) -> Result<Vec<u8>, MsfError>
    requires few_modules { length image.now.modules.now ≤ MODULE_LIMIT }
    requires few_sections { length image.now.sections.now ≤ SECTION_LIMIT }
    requires headers { length headers.now ≤ SIZEOF_SECTION_HEADER * SECTION_LIMIT }
    requires places { length image.now.layout.now.sections.items ≡ length image.now.sections.now }
    requires owner { image.now.owner.now ≡ owners (rows_of image.now.sections.now) (length image.now.layout.now.pieces.items) }
    requires modules { All (λ piece. piece.«module» ≤ length image.now.modules.now) image.now.pieces.now }
    ensures written { IfOk result (λ pdb. pdb.items ≡ msf_of (image_streams (mapped image.now) time id.now headers.now)) }
    ensures too_large { IfErr result (IsTooLarge (image_streams (mapped image.now) time id.now headers.now)) }
    ensures fits { OnOk result (file_size (map length (image_streams (mapped image.now) time id.now headers.now)) ≤ MSF_LIMIT) }
{
    let Ok(rows) = image_rows(alloc, image) else {
        return Err(MsfError::Memory);
    };
    let parts = PdbParts {
        time,
        id: *id,
        modules: &rows.modules,
        contributions: &rows.contributions,
        publics: &rows.publics,
        headers,
    };
    write_pdb(alloc, &parts)
}
