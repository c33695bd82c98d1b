//! From the plan of a link to the bytes of its image.

ghost use Rattle.std.specs.Prelude.{◌≡◌, true, None, length, IfOk, OnOk, IfErr};
ghost use Rattle.link_base.specs.PeFormat.{NUMBEROF_DIRECTORY_ENTRIES};
ghost use Rattle.section_group.specs.Uniqueness.{rows_of};
ghost use Rattle.address_layout.specs.PermittedBase.{is_permitted};
ghost use Rattle.link_words.specs.Outcome.{options_said};
ghost use Rattle.link_plan.specs.Plan.{IsPlanOf, kept_parts};
ghost use Rattle.link_image.specs.BuildFaults.{RefusesBuild};
ghost use Rattle.link_image.specs.ExportFaults.{in_table_fault};
ghost use Rattle.debug_entry.specs.Identifier.{image_identifier};
ghost use Rattle.link_image.specs.LinkedBytes.{owners_in, fields_range_fault};
ghost use Rattle.link_image.specs.BuiltImage.{IsBuilt};
ghost use Rattle.link_image.specs.LinkedImage.{base_rule};
ghost use Rattle.link_image.specs.Steps.{IsPlaced, IsWritten, numbered_indexes, sorted_file, identified_file};

use crate::exports::export_table;
use crate::file::write_file;
use crate::identity::identify;
use crate::map::map_of;
use crate::patching::patch_pieces;
use crate::pdata::sort_pdata;
use crate::pdb::pdb_of;
use crate::placement::{Placement, check_own_base, entry_rva, place_all};
use crate::tables::{directories_of, import_tables, other_tables, table_places};
use image_headers::headers_of;
use image_writer::Headers;
use link_base::Refusal;
use link_files::Gate;
use link_library::link_library;
use link_plan::LinkPlan;
use link_words::Options;
use piece_bytes::owners_of;
use std::alloc::Global;
use std::thread::Threads;

/// What a link makes: the file of the image, how many sections this has, and its map, its PDB and its import library, where
/// they are asked for. An image without exports has no import library.
#[derive(Drop)]
pub struct Built {
    pub image: Vec<u8>,
    pub sections: u32,
    pub map: Option<Vec<u8>>,
    pub pdb: Option<Vec<u8>>,
    pub library: Option<Vec<u8>>,
}

/// The image of a plan, its map, its PDB and its import library. Its fields are patched by several parts, each of which passes
/// the gate first. The input is refused for the first of: a bad merge
/// (`BadMerge`), an exception table without whole rows (`BadPdata`), a bad export (`BadExport`), too many sections
/// (`TooManySections`), an image that is too large (`ImageTooLarge`), a base at which it may not stand (`BaseRange`), an
/// export that lies in the export table (`BadExport`), a field whose value does not fit (`RelocRange`), and a PDB
/// (`PdbTooLarge`) or an import library (`ImplibTooLarge`) that is too large.
pub fn build<'a, R: Threads + Sync, G: Gate>(
    rt: &R,
    alloc: Global,
    plan: &LinkPlan<'a>,
    options: &Options<'a>,
    gate: &G,
) -> Result<Built, Refusal<'a>>
    requires { IsPlanOf (options_said options.now) plan.now.modules.items plan.now }
    ensures built { IfOk result (IsBuilt (options_said options.now) (kept_parts plan.now)) }
    ensures refused { IfErr result (RefusesBuild (options_said options.now) (kept_parts plan.now)) }
{
    let placement = place_all(alloc, plan, options)?;
    check_own_base(plan, options, &placement)?;
    image_of(rt, alloc, plan, options, &placement, gate)
}

/// The image of a plan whose pieces stand at these places, its map, its PDB and its import library.
fn image_of<'a, R: Threads + Sync, G: Gate>(
    rt: &R,
    alloc: Global,
    plan: &LinkPlan<'a>,
    options: &Options<'a>,
    placement: &Placement<'a>,
    gate: &G,
) -> Result<Built, Refusal<'a>>
    requires plan { IsPlanOf (options_said options.now) plan.now.modules.items plan.now }
    requires placed { IsPlaced (options_said options.now) plan.now placement.now }
    requires permitted { is_permitted (base_rule (options_said options.now)) placement.now.layout.image options.now.base ≡ true }
    ensures built { IfOk result (IsBuilt (options_said options.now) (kept_parts plan.now)) }
    ensures refused { IfErr result (RefusesBuild (options_said options.now) (kept_parts plan.now)) }
{
    let entry = entry_rva(plan, options, placement);
    let places = table_places(plan.modules.len(), &plan.pieces);
    let exports = export_table(alloc, plan, options, placement, &places)?;
    let imports = import_tables(alloc, plan, options, placement, &places)?;
    let others = other_tables(alloc, plan, options, placement, &places, exports)?;
    let directories = directories_of(plan, options, placement, &places);
    let headers = headers_of(options, entry, directories);
    let mut image = write_file(alloc, plan, options, &headers, placement, &imports, &others)?;
    let owner = owners_of(alloc, &placement.sections, placement.layout.pieces.len())?;
    let id = finish(
        rt, alloc, &mut image, plan, options, &headers, placement, &places, &owner, gate,
    )?;
    let map = map_of(alloc, plan, options, placement, &owner, entry)?;
    let pdb = pdb_of(alloc, plan, options, placement, &owner, &id, &image)?;
    let library = link_library(alloc, options, plan.names.exports())?;
    let sections = placement.sections.len() as u32;
    Ok(Built {
        image,
        sections,
        map,
        pdb,
        library,
    })
}

/// Patches the fields in the file of an image, puts the rows of its exception table in order, and gives it an identifier,
/// which is zero where no PDB is asked for.
fn finish<'a, R: Threads + Sync, G: Gate>(
    rt: &R,
    alloc: Global,
    image: &mut Vec<u8>,
    plan: &LinkPlan<'a>,
    options: &Options<'a>,
    headers: &Headers,
    placement: &Placement<'a>,
    places: &[Option<usize>; 9],
    owner: &[u32],
    gate: &G,
) -> Result<[u8; 16], Refusal<'a>>
    requires plan { IsPlanOf (options_said options.now) plan.now.modules.items plan.now }
    requires placed { IsPlaced (options_said options.now) plan.now placement.now }
    requires permitted { is_permitted (base_rule (options_said options.now)) placement.now.layout.image options.now.base ≡ true }
    requires places { places.now ≡ numbered_indexes (length plan.now.modules.items) plan.now.pieces.items }
    requires outside { in_table_fault (kept_parts plan.now) placement.now.layout.pieces.items ≡ None }
    requires base { headers.now.base ≡ options.now.base }
    requires directories { length headers.now.directories ≡ NUMBEROF_DIRECTORY_ENTRIES }
    requires owner { owner.now ≡ owners_in (rows_of placement.now.sections.items) placement.now.layout }
    requires written { IsWritten headers.now placement.now (kept_parts plan.now) image.old.items }
    ensures in_range { OnOk result (fields_range_fault (kept_parts plan.now) (rows_of placement.now.sections.items) placement.now.layout options.now.base ≡ None) }
    ensures identifier { IfOk result (λ id. options.now.debug ≡ true → id ≡ image_identifier (sorted_file headers.now plan.now placement.now)) }
    ensures identified { OnOk result (image.new.items ≡ identified_file headers.now plan.now placement.now) }
    ensures refused { IfErr result (RefusesBuild (options_said options.now) (kept_parts plan.now)) }
{
    patch_pieces(rt, alloc, image, plan, headers, placement, owner, gate)?;
    sort_pdata(alloc, image, plan, headers, placement, owner)?;
    Ok(identify(
        alloc, image, plan, options, headers, placement, places, owner,
    )?)
}
