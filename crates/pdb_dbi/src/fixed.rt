//! The streams that hold little.

ghost use Rattle.std.specs.Prelude.{◌≡◌, ◌++◌, IfOk, OnOk};
ghost use Rattle.pdb_dbi.specs.FixedStreams.{named_streams, info_of, types};

use crate::format::{
    AGE, FEATURE_VC140, FIRST_TYPE, HASH_BUCKETS, NO_STREAM, PDB_VC70, TYPES_HEADER_SIZE, TYPES_V80,
};
use link_base::{LeNumber, Memory, push_fields};
use std::alloc::Global;

/// The information stream, by the time and the identifier that the image has: age 1, and no named streams (LLVM, "The PDB
/// Info Stream (aka the PDB Stream)").
///
/// # Errors
///
/// `Memory` alone.
#[tactic(auto, unfolding(crate::specs::FixedStreams::info_of))]
pub fn write_info(alloc: Global, time: u32, id: [u8; 16]) -> Result<Vec<u8>, Memory>
    ensures { IfOk result (λ stream. stream.items ≡ info_of time id) }
{
    let mut out = Vec::new(alloc);
    push_fields(
        &mut out,
        &[
            LeNumber::U32(PDB_VC70),
            LeNumber::U32(time),
            LeNumber::U32(AGE),
        ],
    )?;
    out.extend_from_slice(&id)?;
    push_named_streams(&mut out)?;
    push_fields(&mut out, &[LeNumber::U32(FEATURE_VC140)])?;
    Ok(out)
}

/// Appends the table of named streams, which has none.
#[tactic(auto, unfolding(crate::specs::FixedStreams::named_streams))]
fn push_named_streams(out: &mut Vec<u8>) -> Result<(), Memory>
    ensures { OnOk result (out.new.items ≡ out.old.items ++ named_streams) }
{
    push_fields(
        out,
        &[
            LeNumber::U32(0),
            LeNumber::U32(0),
            LeNumber::U32(8),
            LeNumber::U32(0),
            LeNumber::U32(0),
            LeNumber::U32(0),
        ],
    )
}

/// A stream of types or of ids that has none (LLVM, "The PDB TPI and IPI Streams").
///
/// # Errors
///
/// `Memory` alone.
#[tactic(auto, unfolding(crate::specs::FixedStreams::types))]
pub fn write_types(alloc: Global) -> Result<Vec<u8>, Memory>
    ensures { IfOk result (λ stream. stream.items ≡ types) }
{
    let mut out = Vec::new(alloc);
    push_fields(
        &mut out,
        &[
            LeNumber::U32(TYPES_V80),
            LeNumber::U32(TYPES_HEADER_SIZE),
            LeNumber::U32(FIRST_TYPE),
            LeNumber::U32(FIRST_TYPE),
            LeNumber::U32(0),
            LeNumber::U16(NO_STREAM),
            LeNumber::U16(NO_STREAM),
            LeNumber::U32(4),
            LeNumber::U32(HASH_BUCKETS),
        ],
    )?;
    push_fields(
        &mut out,
        &[
            LeNumber::U32(0),
            LeNumber::U32(0),
            LeNumber::U32(0),
            LeNumber::U32(0),
            LeNumber::U32(0),
            LeNumber::U32(0),
        ],
    )?;
    Ok(out)
}
