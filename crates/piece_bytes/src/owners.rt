//! The section that each piece stands in.

ghost use Rattle.std.specs.Prelude.{◌≡◌, ◌≢◌, ◌<◌, ◌^◌, ◌==◌, ◌&&◌, ℕ, All, length, slice_index, if◌then◌else◌, IfOk};
ghost use Rattle.std.specs.List.{list_any};
ghost use Rattle.section_group.specs.Uniqueness.{rows_of};
ghost use Rattle.address_layout.specs.Layout.{all_pieces};
ghost use Rattle.piece_bytes.specs.Owners.{owners};

use link_base::Memory;
use section_group::OutSection;
use std::alloc::Global;

/// For each of `count` pieces the index of the section that it stands in, or the number of sections where it stands in
/// none.
pub fn owners_of(
    alloc: Global,
    sections: &[OutSection<'_>],
    count: usize,
) -> Result<Vec<u32>, Memory>
    requires few { length sections.now < 2 ^ 32 }
    requires within { All (λ k. k < count) (all_pieces sections.now) }
    ensures { IfOk result (λ owner. owner.items ≡ owners (rows_of sections.now) count) }
{
    let none = sections.len() as u32;
    let mut owner = vec![in alloc; none; count]?;
    for i in 0..sections.len() {
        note_members(&mut owner, &sections[i].pieces, i as u32, none);
    }
    Ok(owner)
}

/// Notes the section of its members, where none is noted for them.
fn note_members(owner: &mut Vec<u32>, members: &[u32], section: u32, none: u32)
    requires within { All (λ k. k < length owner.old.items) members.now }
    requires apart { section ≢ none }
    ensures len { length owner.new.items ≡ length owner.old.items }
    ensures noted { (k : ℕ) → slice_index owner.new.items k
        ≡ (if list_any (λ member. member == k) members.now && (slice_index owner.old.items k == none) then section else slice_index owner.old.items k) }
{
    for member in members {
        let k = *member as usize;
        if owner[k] == none {
            owner[k] = section;
        }
    }
}
