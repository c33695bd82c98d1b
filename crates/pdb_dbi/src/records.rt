//! Records of contributions, written.

ghost use Rattle.std.specs.Prelude.{◌≡◌, ◌≤◌, ◌++◌, OnOk, length};
ghost use Rattle.pdb_dbi.specs.DbiStream.{STREAM_LIMIT};
ghost use Rattle.pdb_dbi.specs.Contribution.{record_ver60, record_v2, contribution_part};
ghost use Rattle.std.specs.List.{flat_map};

use crate::format::{CONTRIBUTION_V2_SIZE, SECTION_CONTRIBUTIONS_V2, VERSION_SIZE};
use crate::rows::Contribution;
use link_base::{LeNumber, Memory, push_fields};

/// Appends the part of contributions, in the form that names the sections of the objects.
#[tactic(auto, unfolding(crate::specs::Contribution::contribution_part))]
pub(crate) fn push_contributions(out: &mut Vec<u8>, list: &[Contribution]) -> Result<(), Memory>
    ensures { OnOk result (out.new.items ≡ out.old.items ++ contribution_part list.now) }
{
    push_fields(out, &[LeNumber::U32(SECTION_CONTRIBUTIONS_V2)])?;
    push_records(out, list)
}

/// The bytes of the part of contributions.
#[tactic(auto, using(crate::proofs::SizeLemmas::length_contributions))]
pub(crate) fn contributions_len(list: &[Contribution]) -> usize
    requires { length (contribution_part list.now) ≤ STREAM_LIMIT }
    ensures { result ≡ length (contribution_part list.now) }
{
    VERSION_SIZE + CONTRIBUTION_V2_SIZE * list.len()
}

fn push_records(out: &mut Vec<u8>, list: &[Contribution]) -> Result<(), Memory>
    ensures { OnOk result (out.new.items ≡ out.old.items ++ flat_map record_v2 list.now) }
{
    for row in list {
        push_record_v2(out, *row)?;
    }
    Ok(())
}

#[tactic(auto, unfolding(crate::specs::Contribution::record_v2))]
fn push_record_v2(out: &mut Vec<u8>, row: Contribution) -> Result<(), Memory>
    ensures { OnOk result (out.new.items ≡ out.old.items ++ record_v2 row) }
{
    push_record_ver60(out, row)?;
    push_fields(out, &[LeNumber::U32(row.coff)])
}

/// Appends a record that names no section of the object, as a module's record has it.
#[tactic(auto, unfolding(crate::specs::Contribution::record_ver60))]
pub(crate) fn push_record_ver60(out: &mut Vec<u8>, row: Contribution) -> Result<(), Memory>
    ensures { OnOk result (out.new.items ≡ out.old.items ++ record_ver60 row) }
{
    push_fields(
        out,
        &[
            LeNumber::U16(row.section),
            LeNumber::U16(0),
            LeNumber::U32(row.offset),
            LeNumber::U32(row.size),
            LeNumber::U32(row.flags),
            LeNumber::U16(row.module),
            LeNumber::U16(0),
            LeNumber::U32(0),
            LeNumber::U32(0),
        ],
    )
}
