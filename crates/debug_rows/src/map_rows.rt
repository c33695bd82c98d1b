//! The lists of a map but its public symbols.

ghost use Rattle.std.specs.Prelude.{◌≡◌, length, map, IfOk};
ghost use Rattle.section_group.specs.Uniqueness.{row_of, rows_of};
ghost use Rattle.debug_rows.specs.MapLists.{map_module, section_at, map_sections_of};

use address_layout::{Layout, Placed};
use link_base::Memory;
use map_file::{MapModule, MapSection};
use module_view::{Module, Origin};
use section_group::OutSection;
use std::alloc::Global;

/// The modules of a link, in their order.
pub fn map_modules<'a>(alloc: Global, modules: &[Module<'a>]) -> Result<Vec<MapModule<'a>>, Memory>
    ensures { IfOk result (λ rows. rows.items ≡ map map_module modules.now) }
{
    let mut rows = Vec::with_capacity(alloc, modules.len())?;
    for module in modules {
        rows.push(map_module(module))?;
    }
    Ok(rows)
}

/// A module by its file and, where it is one, its member.
fn map_module<'a>(module: &Module<'a>) -> MapModule<'a>
    ensures { result ≡ map_module «module».now }
{
    let Origin { file, member } = module.origin();
    MapModule { file, member }
}

/// The sections of an image, in their order, with their places.
pub fn map_sections<'a>(
    alloc: Global,
    sections: &[OutSection<'a>],
    layout: &Layout,
) -> Result<Vec<MapSection<'a>>, Memory>
    requires { length layout.now.sections.items ≡ length sections.now }
    ensures { IfOk result (λ rows. rows.items ≡ map_sections_of layout.now.sections.items (rows_of sections.now)) }
{
    let mut rows = Vec::with_capacity(alloc, sections.len())?;
    for (index, section) in sections.iter().enumerate() {
        rows.push(section_at(section, &layout.sections[index]))?;
    }
    Ok(rows)
}

/// A section at a place.
fn section_at<'a>(section: &OutSection<'a>, place: &Placed) -> MapSection<'a>
    ensures { result ≡ section_at (row_of section.now) place.now }
{
    MapSection {
        name: section.name.again(),
        rva: place.rva,
        size: place.size,
        flags: section.flags,
    }
}
