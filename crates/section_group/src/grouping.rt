//! The output sections of some pieces.

ghost use Rattle.std.specs.Prelude.{◌<◌, ◌≤◌, ◌^◌, length, IfOk, OnOk, IfErr};
ghost use Rattle.section_group.specs.Merging.{HasNoBadMerge, IsRefusal};
ghost use Rattle.section_group.specs.Placement.{IsGrouping};
ghost use Rattle.section_group.specs.SectionOrder.{input_from};
ghost use Rattle.section_group.specs.Gathering.{input_of};

use crate::gather::{distribute, number_pieces};
use crate::owners::first_owners;
use crate::parts::Parts;
use crate::piece::{GroupError, OutSection, Piece};
use crate::sections::build_sections;
use link_base::{Memory, Name};
use std::alloc::Global;

/// Puts the used pieces into sections, and the pieces and the sections in order.
///
/// `used` has an entry for each piece. Merges lead from base names to other section names, along chains; presets lead
/// `.idata`, `.edata`, `.xdata` and `.00cfg` to `.rdata` and `.bss` to `.data` where nothing else is said of them. A
/// section whose pieces have neither bytes nor names is left out.
///
/// # Errors
///
/// `BadMerge` with the left name of the first merge that has another target than an earlier one of its name, whose chain
/// comes to a name twice, or that names `.pdata`, `.rsrc` or `.reloc`.
pub fn group<'a>(
    alloc: Global,
    pieces: &[Piece<'a>],
    used: &[bool],
    merges: &[(Name<'a>, Name<'a>)],
) -> Result<Vec<OutSection<'a>>, GroupError<'a>>
    requires few { length pieces.now < 2 ^ 32 }
    requires all_told { length pieces.now ≤ length used.now }

    ensures accepted { OnOk result (HasNoBadMerge merges.now) }
    ensures sections { IfOk result (λ sections. IsGrouping (input_from pieces.now used.now merges.now) sections.items) }

    ensures refused { IfErr result (IsRefusal merges.now) }
{
    let parts = Parts::new(alloc, pieces, used, merges)?;
    Ok(sections_of(alloc, &parts)?)
}

fn sections_of<'a>(alloc: Global, parts: &Parts<'_, 'a>) -> Result<Vec<OutSection<'a>>, Memory>
    ensures { IfOk result (λ sections. IsGrouping (input_of parts.now) sections.items) }
{
    let owners = first_owners(alloc, parts)?;
    let numbered = number_pieces(alloc, parts, &owners)?;
    let members = distribute(alloc, &numbered.numbers, numbered.homes.len())?;
    build_sections(alloc, parts, &numbered.homes, &members)
}
