//! Numbers, names and zeros at the end of a stream. A number is one slice of its bytes, the lowest first.

ghost use Rattle.std.specs.Prelude.{◌≡◌, ◌++◌, replicate, OnOk};
ghost use Rattle.link_base.specs.Bytes.{number_bytes};

use link_base::{Memory, Name};

/// Appends a number in two bytes.
#[tactic(auto, unfolding(link_base::specs::Bytes::number_bytes))]
pub(crate) fn push_u16(out: &mut Vec<u8>, number: u16) -> Result<(), Memory>
    ensures { OnOk result (out.new.items ≡ out.old.items ++ number_bytes 2 number) }
{
    out.extend_from_slice(&number.to_le_bytes())?;
    Ok(())
}

/// Appends a number in four bytes.
#[tactic(auto, unfolding(link_base::specs::Bytes::number_bytes))]
pub(crate) fn push_u32(out: &mut Vec<u8>, number: u32) -> Result<(), Memory>
    ensures { OnOk result (out.new.items ≡ out.old.items ++ number_bytes 4 number) }
{
    out.extend_from_slice(&number.to_le_bytes())?;
    Ok(())
}

/// Appends the bytes of a name, which are one slice where it has no prefix.
pub(crate) fn push_name(out: &mut Vec<u8>, name: &Name<'_>) -> Result<(), Memory>
    ensures { OnOk result (out.new.items ≡ out.old.items ++ name.now) }
{
    if name.is_import() {
        return name.push_to(out);
    }
    out.extend_from_slice(name.rest())?;
    Ok(())
}

/// Appends so many zeros.
pub(crate) fn push_zeros(out: &mut Vec<u8>, count: usize) -> Result<(), Memory>
    ensures { OnOk result (out.new.items ≡ out.old.items ++ replicate count 0) }
{
    let len = out.len().checked_add(count).ok_or(Memory)?;
    out.resize(len, 0)?;
    Ok(())
}
