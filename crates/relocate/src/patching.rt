//! The fields of a section, patched in its bytes.

ghost use Rattle.std.specs.Prelude.{◌≡◌, true, length, OnOk, IfErr};
ghost use Rattle.std.specs.List.{All};
ghost use Rattle.relocate.specs.Judged.{ArePatchable};
ghost use Rattle.relocate.specs.PatchedBytes.{patched_bytes};
ghost use Rattle.relocate.specs.Value.{HaveEntries, ArePatched, IsLeastOutside, fits};
ghost use Rattle.relocate.specs.Written.{least_range};

use crate::fixups::Fixups;
use crate::range::RelocRange;
use crate::writing::patch_field;
use address_layout::Layout;

/// Patches the fields of a section in its bytes, which stand at `rva` in an image at `base`. `check` gave the fixups for
/// these bytes, `layout` has an RVA for the piece of each target, and `owner` the index of its output section.
///
/// # Errors
///
/// `RelocRange` for the least relocation index whose value lies out of the range of its type, with that value. The bytes
/// are then of no use.
pub fn patch(
    part: &mut [u8],
    rva: u32,
    base: u64,
    fixups: &Fixups,
    layout: &Layout,
    owner: &[u32],
) -> Result<(), RelocRange>
    requires patchable { ArePatchable (length part.old) fixups.now }
    requires entries { HaveEntries layout.now owner.now fixups.now }
    ensures patched { OnOk result (ArePatched base rva layout.now owner.now fixups.now part.old part.new) }
    ensures written { OnOk result (part.new ≡ patched_bytes base rva layout.now owner.now fixups.now part.old) }
    ensures in_range { OnOk result (All (λ fix. fits base rva layout.now owner.now part.old fix ≡ true) fixups.now) }
    ensures refused { IfErr result (IsLeastOutside base rva layout.now owner.now fixups.now part.old) }
{
    let mut least = None;
    for packed in fixups.fixes() {
        let fix = packed.unpacked();
        let outside = patch_field(part, rva, base, &fix, layout, owner);
        least = least_range(least, fix.index, outside);
    }
    match least {
        Some(range) => Err(range),
        None => Ok(()),
    }
}

/// The range of the least index, with one more relocation whose value is out of range, or is not.
#[tactic(auto, unfolding(crate::specs::Written::least_range))]
fn least_range(least: Option<RelocRange>, index: u32, outside: Option<i128>) -> Option<RelocRange>
    ensures { result ≡ least_range least index outside }
{
    let value = match outside {
        Some(value) => value,
        None => return least,
    };
    match least {
        Some(range) => {
            if index < range.index {
                Some(RelocRange { index, value })
            } else {
                Some(range)
            }
        }
        None => Some(RelocRange { index, value }),
    }
}
