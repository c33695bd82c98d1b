//! What files for debuggers list of an image, and its map.

ghost use Rattle.std.specs.Prelude.{◌≡◌, length, option_map, IfOk};
ghost use Rattle.section_group.specs.Uniqueness.{rows_of};
ghost use Rattle.link_words.specs.Outcome.{options_said};
ghost use Rattle.link_plan.specs.Plan.{IsPlanOf, kept_parts};
ghost use Rattle.debug_rows.specs.ImageMap.{mapped};
ghost use Rattle.link_image.specs.LinkedBytes.{owners_in};
ghost use Rattle.link_image.specs.LinkedImage.{entry_rva};
ghost use Rattle.link_image.specs.Steps.{listed_link};
ghost use Rattle.link_image.specs.LinkMap.{link_map, asked_map};

use crate::placement::Placement;
use debug_rows::{MappedImage, image_map};
use link_base::Memory;
use link_plan::LinkPlan;
use link_words::Options;
use std::alloc::Global;

/// The text of the map of an image that begins at an RVA, where a map is asked for.
pub(crate) fn map_of<'a>(
    alloc: Global,
    plan: &LinkPlan<'a>,
    options: &Options<'a>,
    placement: &Placement<'a>,
    owner: &[u32],
    entry: u32,
) -> Result<Option<Vec<u8>>, Memory>
    requires plan { IsPlanOf (options_said options.now) plan.now.modules.items plan.now }
    requires places { length placement.now.layout.sections.items ≡ length placement.now.sections.items }
    requires owner { owner.now ≡ owners_in (rows_of placement.now.sections.items) placement.now.layout }
    requires entry { entry ≡ entry_rva placement.now.layout.pieces.items plan.now.entry }
    ensures { IfOk result (λ map. option_map (λ text. text.items) map
        ≡ asked_map (options_said options.now) (link_map (options_said options.now) (kept_parts plan.now) (rows_of placement.now.sections.items) placement.now.layout)) }
{
    if options.map.is_none() {
        return Ok(None);
    }
    let image = listed_image(plan, placement, owner);
    let text = image_map(alloc, &image, options.base, entry)?;
    Ok(Some(text))
}

/// What is listed of a plan whose pieces stand at these places, in the sections that `owner` has.
pub(crate) fn listed_image<'w, 'a>(
    plan: &'w LinkPlan<'a>,
    placement: &'w Placement<'a>,
    owner: &'w [u32],
) -> MappedImage<'w, 'a>
    ensures listed { mapped result ≡ listed_link plan.now placement.now }
    ensures pieces { result.pieces.now ≡ plan.now.pieces.items }
    ensures sections { result.sections.now ≡ placement.now.sections.items }
    ensures layout { result.layout.now ≡ placement.now.layout }
    ensures owner { result.owner.now ≡ owner.now }
{
    MappedImage {
        modules: &plan.modules,
        pieces: &plan.pieces,
        publics: &plan.publics,
        sections: &placement.sections,
        layout: &placement.layout,
        owner,
    }
}
