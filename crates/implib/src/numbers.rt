//! Numbers at the end of a buffer. Each is one slice of its bytes.

ghost use Rattle.std.specs.Prelude.{◌≡◌, ◌++◌, OnOk};
ghost use Rattle.byteorder.specs.Endian.{big_bytes};
ghost use Rattle.link_base.specs.Bytes.{number_bytes};

use link_base::Memory;

/// Appends a number in two bytes, the lowest first.
#[tactic(auto, unfolding(link_base::specs::Bytes::number_bytes))]
pub(crate) fn push_u16(out: &mut Vec<u8>, number: u16) -> Result<(), Memory>
    ensures { OnOk result (out.new.items ≡ out.old.items ++ number_bytes 2 number) }
{
    out.extend_from_slice(&number.to_le_bytes())?;
    Ok(())
}

/// Appends a number in four bytes, the lowest first.
#[tactic(auto, unfolding(link_base::specs::Bytes::number_bytes))]
pub(crate) fn push_u32(out: &mut Vec<u8>, number: u32) -> Result<(), Memory>
    ensures { OnOk result (out.new.items ≡ out.old.items ++ number_bytes 4 number) }
{
    out.extend_from_slice(&number.to_le_bytes())?;
    Ok(())
}

/// Appends a number in four bytes, the highest first.
pub(crate) fn push_big_u32(out: &mut Vec<u8>, number: u32) -> Result<(), Memory>
    ensures { OnOk result (out.new.items ≡ out.old.items ++ big_bytes 4 number) }
{
    out.extend_from_slice(&number.to_be_bytes())?;
    Ok(())
}
