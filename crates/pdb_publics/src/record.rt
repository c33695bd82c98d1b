//! The records of public symbols (LLVM, "CodeView Symbol Records").

ghost use Rattle.std.specs.Prelude.{◌≡◌, ◌<◌, ◌≤◌, ◌^◌, ◌++◌, length, IfOk, OnOk, All};
ghost use Rattle.pdb_publics.specs.PublicOrder.{record_size};
ghost use Rattle.pdb_publics.specs.PublicStreams.{PUBLIC_NAME_LIMIT, flags_of, record_of, records_of};

use crate::format::{PUBLIC_FUNCTION, RECORD_HEADER_LEN, S_PUB32};
use crate::pushing::{push_name, push_u16, push_u32, push_zeros};
use crate::rows::PublicRow;
use link_base::Memory;
use std::alloc::Global;

/// The size of the record of a name of so many bytes: its fields, the name and a NUL, and zeros to a multiple of four.
pub(crate) fn record_size(name_len: usize) -> usize
    requires { name_len < 2 ^ 63 }
    ensures { result ≡ record_size name_len }
{
    (name_len + 18) / 4 * 4
}

/// The records of the rows, one behind the other.
pub(crate) fn records(alloc: Global, rows: &[PublicRow<'_>]) -> Result<Vec<u8>, Memory>
    requires { All (λ row. length row.name ≤ PUBLIC_NAME_LIMIT) rows.now }
    ensures { IfOk result (λ out. out.items ≡ records_of rows.now) }
{
    let mut out = Vec::new(alloc);
    for row in rows {
        push_record(&mut out, row)?;
    }
    Ok(out)
}

#[tactic(auto, unfolding(crate::specs::PublicStreams::record_of))]
fn push_record(out: &mut Vec<u8>, row: &PublicRow<'_>) -> Result<(), Memory>
    requires { length row.now.name ≤ PUBLIC_NAME_LIMIT }
    ensures { OnOk result (out.new.items ≡ out.old.items ++ record_of row.now) }
{
    let len = row.name.len();
    let size = record_size(len);
    push_u16(out, (size - 2) as u16)?;
    push_u16(out, S_PUB32)?;
    push_u32(out, flags_of(row.function))?;
    push_u32(out, row.offset)?;
    push_u16(out, row.section)?;
    push_name(out, &row.name)?;
    push_zeros(out, size - RECORD_HEADER_LEN - len)
}

fn flags_of(function: bool) -> u32
    ensures { result ≡ flags_of function }
{
    if function { PUBLIC_FUNCTION } else { 0 }
}
