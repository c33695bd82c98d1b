//! The part of modules.

ghost use Rattle.std.specs.Prelude.{◌≡◌, ◌<◌, ◌≤◌, ◌++◌, All, IfOk, OnOk, length, map, replicate, None};
ghost use Rattle.std.specs.List.{flat_map, find, range_with_len, enumerate_from};
ghost use Rattle.pdb_dbi.specs.ModuleInfo.{is_of, no_contribution, first_of, module_header, module_text, padding, padded, module_record, module_part};

use crate::format::NO_STREAM;
use crate::records::push_record_ver60;
use crate::rows::{Contribution, ModuleName};
use link_base::{LeNumber, Memory, push_fields};
use std::alloc::Global;

/// The section of what stands for the contribution of a module that has none.
const NO_SECTION: u16 = 0xffff;

/// The part of modules.
pub(crate) fn module_part(
    alloc: Global,
    modules: &[ModuleName<'_>],
    list: &[Contribution],
) -> Result<Vec<u8>, Memory>
    requires few { length modules.now ≤ 65535 }
    requires modules { All (λ row. row.«module» < length modules.now) list.now }
    ensures { IfOk result (λ part. part.items ≡ module_part list.now modules.now) }
{
    let firsts = first_contributions(alloc, modules.len(), list)?;
    let mut out = Vec::new(alloc);
    for (position, names) in modules.iter().enumerate() {
        let first = firsts[position].unwrap_or(no_contribution(position as u16));
        push_module(&mut out, first, names)?;
    }
    Ok(out)
}

/// The first contribution of each of so many modules, where it has one.
fn first_contributions(
    alloc: Global,
    count: usize,
    list: &[Contribution],
) -> Result<Vec<Option<Contribution>>, Memory>
    requires { All (λ row. row.«module» < count) list.now }
    ensures { IfOk result (λ firsts. firsts.items ≡ map (λ position. find (is_of position) list.now) (range_with_len 0 count)) }
{
    let mut firsts = vec![in alloc; None; count]?;
    for row in list {
        let position = row.module as usize;
        if firsts[position].is_none() {
            firsts[position] = Some(*row);
        }
    }
    Ok(firsts)
}

/// What stands for the contribution of a module that has none.
fn no_contribution(position: u16) -> Contribution
    ensures { result ≡ no_contribution position }
{
    Contribution {
        section: NO_SECTION,
        offset: 0,
        size: 0,
        flags: 0,
        module: position,
        coff: 0,
    }
}

/// Appends the record of a module.
fn push_module(out: &mut Vec<u8>, first: Contribution, names: &ModuleName<'_>) -> Result<(), Memory>
    ensures { OnOk result (out.new.items ≡ out.old.items ++ (module_header first ++ padded (module_text names.now))) }
{
    push_module_header(out, first)?;
    let start = out.len();
    push_module_text(out, names)?;
    let len = out.len() - start;
    push_zeros(out, padding(len))
}

#[tactic(auto, unfolding(crate::specs::ModuleInfo::module_header))]
fn push_module_header(out: &mut Vec<u8>, first: Contribution) -> Result<(), Memory>
    ensures { OnOk result (out.new.items ≡ out.old.items ++ module_header first) }
{
    push_fields(out, &[LeNumber::U32(0)])?;
    push_record_ver60(out, first)?;
    push_fields(
        out,
        &[
            LeNumber::U16(0),
            LeNumber::U16(NO_STREAM),
            LeNumber::U32(0),
            LeNumber::U32(0),
            LeNumber::U32(0),
            LeNumber::U16(0),
            LeNumber::U16(0),
            LeNumber::U32(0),
            LeNumber::U32(0),
            LeNumber::U32(0),
        ],
    )
}

/// Appends the names of a module, each ended by a NUL.
#[tactic(auto, unfolding(crate::specs::ModuleInfo::module_text))]
fn push_module_text(out: &mut Vec<u8>, names: &ModuleName<'_>) -> Result<(), Memory>
    ensures { OnOk result (out.new.items ≡ out.old.items ++ module_text names.now) }
{
    names.name.push_to(out)?;
    out.push(0)?;
    names.file.push_to(out)?;
    out.push(0)?;
    Ok(())
}

/// The zeros that fill so many bytes to a multiple of 4.
fn padding(len: usize) -> usize
    ensures { result ≡ padding len }
{
    (4 - len % 4) % 4
}

pub(crate) fn push_zeros(out: &mut Vec<u8>, count: usize) -> Result<(), Memory>
    ensures { OnOk result (out.new.items ≡ out.old.items ++ replicate count 0) }
{
    let len = out.len().checked_add(count).ok_or(Memory)?;
    out.resize(len, 0)?;
    Ok(())
}
