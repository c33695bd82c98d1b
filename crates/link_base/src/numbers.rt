//! Numbers at the end of a buffer, the lowest byte first, as every table of the PE format has them.

ghost use Rattle.std.specs.Prelude.{◌≡◌, ◌++◌, OnOk};
ghost use Rattle.link_base.specs.Bytes.{number_bytes};
ghost use Rattle.link_base.specs.Fields.{field_bytes, fields};

use crate::memory::Memory;
use byteorder::{LittleEndian, WriteBytesExt};

/// A number and the width that a table gives it.
#[derive(Clone, Copy)]
pub enum LeNumber {
    U8(u8),
    U16(u16),
    U32(u32),
    U64(u64),
}

/// Appends the fields of a table, one after the other.
pub fn push_fields(out: &mut Vec<u8>, table: &[LeNumber]) -> Result<(), Memory>
    ensures { OnOk result (out.new.items ≡ out.old.items ++ fields table.now) }
{
    for field in table {
        push_field(out, *field)?;
    }
    Ok(())
}

fn push_field(out: &mut Vec<u8>, field: LeNumber) -> Result<(), Memory>
    ensures { OnOk result (out.new.items ≡ out.old.items ++ field_bytes field) }
{
    match field {
        LeNumber::U8(number) => push_u8(out, number),
        LeNumber::U16(number) => push_u16(out, number),
        LeNumber::U32(number) => push_u32(out, number),
        LeNumber::U64(number) => push_u64(out, number),
    }
}

#[tactic(auto, unfolding(crate::specs::Bytes::number_bytes))]
fn push_u8(out: &mut Vec<u8>, number: u8) -> Result<(), Memory>
    ensures { OnOk result (out.new.items ≡ out.old.items ++ number_bytes 1 number) }
{
    out.push(number)?;
    Ok(())
}

#[tactic(auto, unfolding(crate::specs::Bytes::number_bytes))]
fn push_u16(out: &mut Vec<u8>, number: u16) -> Result<(), Memory>
    ensures { OnOk result (out.new.items ≡ out.old.items ++ number_bytes 2 number) }
{
    out.write_u16::<LittleEndian>(number).map_err(|_| Memory)
}

#[tactic(auto, unfolding(crate::specs::Bytes::number_bytes))]
fn push_u32(out: &mut Vec<u8>, number: u32) -> Result<(), Memory>
    ensures { OnOk result (out.new.items ≡ out.old.items ++ number_bytes 4 number) }
{
    out.write_u32::<LittleEndian>(number).map_err(|_| Memory)
}

#[tactic(auto, unfolding(crate::specs::Bytes::number_bytes))]
fn push_u64(out: &mut Vec<u8>, number: u64) -> Result<(), Memory>
    ensures { OnOk result (out.new.items ≡ out.old.items ++ number_bytes 8 number) }
{
    out.write_u64::<LittleEndian>(number).map_err(|_| Memory)
}
