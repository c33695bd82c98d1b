//! The public symbols of an image, at their places in its sections.

ghost use Rattle.std.specs.Prelude.{◌≡◌, ◌<◌, ◌+◌, ◌^◌, ◌++◌, [], length, map, IsPermutation, IsSorted, IfOk, OnOk};
ghost use Rattle.std.specs.List.{cons_option, filter_map};
ghost use Rattle.section_group.specs.Uniqueness.{rows_of as section_rows};
ghost use Rattle.debug_rows.specs.PlacedPublics.{public_rva, public_section, public_row, placed_row, placed_key, public_rows_of, key_cmp, map_public, map_publics_of};

use crate::link_publics::PublicPlace;
use crate::rvas::rva_at;
use address_layout::Layout;
use link_base::{Memory, Name};
use map_file::MapPublic;
use pdb_publics::PublicRow;
use section_group::OutSection;
use std::alloc::Global;

/// Where a public symbol stands, its name, and the position of its module. The order of keys is that of these, each deciding
/// only where those before it are equal.
#[derive(PartialEq, Eq, PartialOrd, Ord, Drop)]
pub(crate) struct PublicKey<'a> {
    pub rva: u32,
    pub name: Name<'a>,
    pub module: u32,
}

/// The public symbols that stand in sections of an image, as a PDB lists them. `owner` has the index of the section of each
/// piece, or the number of sections where it stands in none. The table of exceptions has none.
pub fn public_rows<'a>(
    alloc: Global,
    publics: &[PublicPlace<'a>],
    owner: &[u32],
    sections: &[OutSection<'a>],
    layout: &Layout,
) -> Result<Vec<PublicRow<'a>>, Memory>
    requires few { length sections.now < 2 ^ 16 }
    requires places { length layout.now.sections.items ≡ length sections.now }
    ensures { IfOk result (λ rows. rows.items ≡ public_rows_of owner.now (section_rows sections.now) layout.now.sections.items layout.now.pieces.items publics.now) }
{
    let mut rows = Vec::with_capacity(alloc, publics.len())?;
    for public in publics {
        push_row(&mut rows, public, owner, sections, layout)?;
    }
    Ok(rows)
}

/// Appends that of a public symbol, where it stands in a section.
fn push_row<'a>(
    rows: &mut Vec<PublicRow<'a>>,
    public: &PublicPlace<'a>,
    owner: &[u32],
    sections: &[OutSection<'a>],
    layout: &Layout,
) -> Result<(), Memory>
    requires few { length sections.now < 2 ^ 16 }
    requires places { length layout.now.sections.items ≡ length sections.now }
    ensures { OnOk result (rows.new.items ≡ rows.old.items ++ cons_option (placed_row owner.now (section_rows sections.now) layout.now.sections.items layout.now.pieces.items public.now) []) }
{
    if let Some(index) = public_section(public, owner, sections) {
        let row = public_row(public, layout, index)?;
        rows.push(row)?;
    }
    Ok(())
}

/// A public symbol in the section of an index.
fn public_row<'a>(
    public: &PublicPlace<'a>,
    layout: &Layout,
    index: usize,
) -> Result<PublicRow<'a>, Memory>
    requires few { index + 1 < 2 ^ 16 }
    requires there { index < length layout.now.sections.items }
    ensures { IfOk result (λ row. row ≡ public_row layout.now.sections.items layout.now.pieces.items public.now index) }
{
    let rva = public_rva(public, layout)?;
    Ok(PublicRow {
        name: public.name.again(),
        section: index as u16 + 1,
        offset: rva.saturating_sub(layout.sections[index].rva),
        function: public.function,
    })
}

/// The RVA of a public symbol. One that does not fit into its number would not fit into an image either.
fn public_rva(public: &PublicPlace<'_>, layout: &Layout) -> Result<u32, Memory>
    ensures { IfOk result (λ rva. rva ≡ public_rva layout.now.pieces.items public.now) }
{
    rva_at(&layout.pieces, public.piece)
        .checked_add(public.value)
        .ok_or(Memory)
}

/// The index of the section that a public symbol stands in.
fn public_section<'a>(
    public: &PublicPlace<'a>,
    owner: &[u32],
    sections: &[OutSection<'a>],
) -> Option<usize>
    ensures section { result ≡ public_section owner.now (section_rows sections.now) public.now }
{
    let index = *owner.get(public.piece as usize)? as usize;
    let section = sections.get(index)?;
    if section.name == Name::of(b".pdata") {
        return None;
    }
    Some(index)
}

/// The public symbols that stand in sections of an image, as a map lists them: by their RVAs, and those at one by their names.
pub fn map_publics<'a>(
    alloc: Global,
    publics: &[PublicPlace<'a>],
    owner: &[u32],
    sections: &[OutSection<'a>],
    layout: &Layout,
) -> Result<Vec<MapPublic<'a>>, Memory>
    ensures { IfOk result (λ rows. rows.items ≡ map_publics_of owner.now (section_rows sections.now) layout.now.pieces.items publics.now) }
{
    let mut keys = public_keys(alloc, publics, owner, sections, layout)?;
    sort(&mut keys);
    let rows = rows_of(alloc, &keys)?;
    Ok(rows)
}

/// The keys of those that stand in sections.
fn public_keys<'a>(
    alloc: Global,
    publics: &[PublicPlace<'a>],
    owner: &[u32],
    sections: &[OutSection<'a>],
    layout: &Layout,
) -> Result<Vec<PublicKey<'a>>, Memory>
    ensures { IfOk result (λ keys. keys.items ≡ filter_map (placed_key owner.now (section_rows sections.now) layout.now.pieces.items) publics.now) }
{
    let mut keys = Vec::with_capacity(alloc, publics.len())?;
    for public in publics {
        push_key(&mut keys, public, owner, sections, layout)?;
    }
    Ok(keys)
}

/// Appends that of a public symbol, where it stands in a section.
fn push_key<'a>(
    keys: &mut Vec<PublicKey<'a>>,
    public: &PublicPlace<'a>,
    owner: &[u32],
    sections: &[OutSection<'a>],
    layout: &Layout,
) -> Result<(), Memory>
    ensures { OnOk result (keys.new.items ≡ keys.old.items ++ cons_option (placed_key owner.now (section_rows sections.now) layout.now.pieces.items public.now) []) }
{
    if public_section(public, owner, sections).is_some() {
        let rva = public_rva(public, layout)?;
        keys.push(PublicKey {
            rva,
            name: public.name.again(),
            module: public.module,
        })?;
    }
    Ok(())
}

/// Sorts keys in place. Keys that tie are equal, so nobody sees that they may change places.
fn sort(keys: &mut Vec<PublicKey<'_>>)
    ensures permutation { IsPermutation keys.old.items keys.new.items }
    ensures sorted { IsSorted key_cmp keys.new.items }
{
    keys.sort_unstable();
}

/// The public symbols of keys, in their order.
fn rows_of<'a>(alloc: Global, keys: &[PublicKey<'a>]) -> Result<Vec<MapPublic<'a>>, Memory>
    ensures { IfOk result (λ rows. rows.items ≡ map map_public keys.now) }
{
    let mut rows = Vec::with_capacity(alloc, keys.len())?;
    for key in keys {
        rows.push(map_public(key))?;
    }
    Ok(rows)
}

/// The public symbol of a key.
fn map_public<'a>(key: &PublicKey<'a>) -> MapPublic<'a>
    ensures { result ≡ map_public key.now }
{
    MapPublic {
        rva: key.rva,
        module: key.module,
        name: key.name.again(),
    }
}
