//! A table applied to a mapped image.

ghost use Rattle.std.specs.Prelude.{◌≡◌, ◌<◌, ◌^◌, length, OnErr};
ghost use Rattle.base_reloc.specs.Blocks.{walk_of, walked_fields, raised_all, IsAnswer};

use crate::judging::first_malformed;
use crate::raising::raise_listed;

/// A table of blocks that is malformed, with the offset of the first malformed block or entry.
#[derive(Clone, Copy, Debug, PartialEq, Eq)]
pub struct BadBlocks {
    pub at: u32,
}

/// Raises each field that the blocks list by `delta`, once for each time that it is listed, in order, modulo its width.
/// `memory` is the mapped image, from RVA 0 on (PE Format, "The .reloc Section (Image Only)").
///
/// # Errors
///
/// `BadBlocks` where fewer than 8 bytes are left for a block, where its size is below 8, no multiple of 4 or above what
/// is left, and where an entry has another type or its field leaves the memory. Nothing is changed then.
pub fn apply(memory: &mut [u8], blocks: &[u8], delta: u64) -> Result<(), BadBlocks>
    requires memory { length memory.old < 2 ^ 32 }
    requires blocks { length blocks.now < 2 ^ 32 }

    ensures answer { IsAnswer (walk_of (length memory.old) blocks.now) result }

    ensures raised { memory.new ≡ raised_all delta memory.old (walked_fields (walk_of (length memory.old) blocks.now)) }
    ensures refused { OnErr result (memory.new ≡ memory.old) }
{
    if let Some(at) = first_malformed(memory.len(), blocks) {
        return Err(BadBlocks { at });
    }
    raise_listed(memory, blocks, delta);
    Ok(())
}
