//! Zeros and short names at the end of a buffer.

ghost use Rattle.std.specs.Prelude.{◌≡◌, ◌+◌, ◌<◌, ◌≤◌, ◌^◌, ◌++◌, OnOk, replicate, vec_len};
ghost use Rattle.image_writer.specs.HeaderTable.{short_name};

use link_base::{Memory, Name};

/// Appends zeros.
#[tactic(auto)]
pub(crate) fn push_zeros(out: &mut Vec<u8>, count: usize) -> Result<(), Memory>
    ensures { OnOk result (out.new.items ≡ out.old.items ++ replicate count 0) }
{
    let len = out.len().checked_add(count).ok_or(Memory)?;
    out.resize(len, 0)?;
    Ok(())
}

/// Appends the first eight bytes of the name, with NULs after a shorter one.
pub(crate) fn push_short_name(out: &mut Vec<u8>, name: &Name<'_>) -> Result<(), Memory>
    ensures { OnOk result (out.new.items ≡ out.old.items ++ short_name name.now) }
{
    let start = out.len();
    name.push_to(out)?;
    out.resize(start + 8, 0)?;
    Ok(())
}
