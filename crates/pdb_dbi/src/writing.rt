//! The stream of debug information, written.

ghost use Rattle.std.specs.Prelude.{◌≡◌, ◌<◌, ◌≤◌, ◌*◌, ◌++◌, All, IfOk, OnOk, length};
ghost use Rattle.link_base.specs.Limits.{SECTION_LIMIT};
ghost use Rattle.link_base.specs.PeFormat.{SIZEOF_SECTION_HEADER};
ghost use Rattle.pdb_dbi.specs.DbiStream.{STREAM_LIMIT, header_front, header_sizes, header_end, dbi_header, file_part, optional_streams, dbi_of};
ghost use Rattle.pdb_dbi.specs.Contribution.{contribution_part};
ghost use Rattle.pdb_dbi.specs.SectionMap.{section_map};

use crate::format::{
    AGE, BUILD_NUMBER, DBI_HEADER_SIZE, DBI_SIGNATURE, DBI_V70, GLOBALS_STREAM, HEADERS_STREAM,
    NO_STREAM, OPTIONAL_STREAMS_SIZE, PUBLICS_STREAM, RECORDS_STREAM,
};
use crate::modules::{module_part, push_zeros};
use crate::records::{contributions_len, push_contributions};
use crate::rows::{Contribution, ModuleName};
use crate::sections::{push_section_map, section_map_len};
use link_base::pe_format::FILE_MACHINE_AMD64;
use link_base::{LeNumber, Memory, push_fields};
use std::alloc::Global;

/// The stream of debug information of an image: its modules, the contributions in their order, and its sections, by their
/// headers as the image has them (LLVM, "The PDB DBI (Debug Info) Stream"). The record of a module has the first of its
/// contributions.
///
/// # Errors
///
/// `Memory` alone.
pub fn write_dbi(
    alloc: Global,
    modules: &[ModuleName<'_>],
    list: &[Contribution],
    headers: &[u8],
) -> Result<Vec<u8>, Memory>
    requires few { length modules.now ≤ 65535 }
    requires sections { length headers.now ≤ SIZEOF_SECTION_HEADER * SECTION_LIMIT }
    requires modules { All (λ row. row.«module» < length modules.now) list.now }
    requires size { length (dbi_of modules.now list.now headers.now) ≤ STREAM_LIMIT }
    ensures { IfOk result (λ stream. stream.items ≡ dbi_of modules.now list.now headers.now) }
{
    let part = module_part(alloc, modules, list)?;
    let contributions = contributions_len(list);
    let sections = section_map_len(headers);
    let files = files_len(modules);
    let behind = contributions + sections + files + OPTIONAL_STREAMS_SIZE;
    let mut out = Vec::with_capacity(alloc, DBI_HEADER_SIZE + part.len() + behind)?;
    push_header(
        &mut out,
        part.len() as u32,
        contributions as u32,
        sections as u32,
        files as u32,
    )?;
    out.extend_from_slice(&part)?;
    push_last_parts(&mut out, modules, list, headers)?;
    Ok(out)
}

/// Appends the header, by the sizes of the parts.
fn push_header(
    out: &mut Vec<u8>,
    modules: u32,
    contributions: u32,
    sections: u32,
    files: u32,
) -> Result<(), Memory>
    ensures { OnOk result (out.new.items ≡ out.old.items ++ dbi_header modules contributions sections files) }
{
    push_header_front(out)?;
    push_header_sizes(out, modules, contributions, sections, files)?;
    push_header_end(out)
}

/// Appends the parts behind that of modules.
fn push_last_parts(
    out: &mut Vec<u8>,
    modules: &[ModuleName<'_>],
    list: &[Contribution],
    headers: &[u8],
) -> Result<(), Memory>
    requires few { length modules.now ≤ 65535 }
    requires sections { length headers.now ≤ SIZEOF_SECTION_HEADER * SECTION_LIMIT }
    ensures { OnOk result (out.new.items ≡ out.old.items ++ (contribution_part list.now ++ (section_map headers.now ++ (file_part modules.now ++ optional_streams)))) }
{
    push_contributions(out, list)?;
    push_section_map(out, headers)?;
    push_files(out, modules)?;
    push_optional_streams(out)
}

/// The bytes of the part of source files.
#[tactic(auto, using(crate::proofs::SizeLemmas::length_files))]
fn files_len(modules: &[ModuleName<'_>]) -> usize
    requires { length modules.now ≤ 65535 }
    ensures { result ≡ length (file_part modules.now) }
{
    4 + 4 * modules.len()
}

#[tactic(auto, unfolding(crate::specs::DbiStream::header_front))]
fn push_header_front(out: &mut Vec<u8>) -> Result<(), Memory>
    ensures { OnOk result (out.new.items ≡ out.old.items ++ header_front) }
{
    push_fields(
        out,
        &[
            LeNumber::U32(DBI_SIGNATURE),
            LeNumber::U32(DBI_V70),
            LeNumber::U32(AGE),
            LeNumber::U16(GLOBALS_STREAM),
            LeNumber::U16(BUILD_NUMBER),
            LeNumber::U16(PUBLICS_STREAM),
            LeNumber::U16(0),
            LeNumber::U16(RECORDS_STREAM),
            LeNumber::U16(0),
        ],
    )
}

/// Appends the sizes of the parts.
#[tactic(auto, unfolding(crate::specs::DbiStream::header_sizes))]
fn push_header_sizes(
    out: &mut Vec<u8>,
    modules: u32,
    contributions: u32,
    sections: u32,
    files: u32,
) -> Result<(), Memory>
    ensures { OnOk result (out.new.items ≡ out.old.items ++ header_sizes modules contributions sections files) }
{
    push_fields(
        out,
        &[
            LeNumber::U32(modules),
            LeNumber::U32(contributions),
            LeNumber::U32(sections),
            LeNumber::U32(files),
            LeNumber::U32(0),
            LeNumber::U32(0),
            LeNumber::U32(OPTIONAL_STREAMS_SIZE as u32),
            LeNumber::U32(0),
        ],
    )
}

#[tactic(auto, unfolding(crate::specs::DbiStream::header_end))]
fn push_header_end(out: &mut Vec<u8>) -> Result<(), Memory>
    ensures { OnOk result (out.new.items ≡ out.old.items ++ header_end) }
{
    push_fields(
        out,
        &[
            LeNumber::U16(0),
            LeNumber::U16(FILE_MACHINE_AMD64),
            LeNumber::U32(0),
        ],
    )
}

/// Appends the part of source files of the modules, which have none.
#[tactic(auto, unfolding(crate::specs::DbiStream::file_part))]
fn push_files(out: &mut Vec<u8>, modules: &[ModuleName<'_>]) -> Result<(), Memory>
    requires { length modules.now ≤ 65535 }
    ensures { OnOk result (out.new.items ≡ out.old.items ++ file_part modules.now) }
{
    push_fields(
        out,
        &[LeNumber::U16(modules.len() as u16), LeNumber::U16(0)],
    )?;
    push_zeros(out, 4 * modules.len())
}

#[tactic(auto, unfolding(crate::specs::DbiStream::optional_streams))]
fn push_optional_streams(out: &mut Vec<u8>) -> Result<(), Memory>
    ensures { OnOk result (out.new.items ≡ out.old.items ++ optional_streams) }
{
    push_fields(
        out,
        &[
            LeNumber::U16(NO_STREAM),
            LeNumber::U16(NO_STREAM),
            LeNumber::U16(NO_STREAM),
            LeNumber::U16(NO_STREAM),
            LeNumber::U16(NO_STREAM),
            LeNumber::U16(HEADERS_STREAM),
            LeNumber::U16(NO_STREAM),
            LeNumber::U16(NO_STREAM),
            LeNumber::U16(NO_STREAM),
            LeNumber::U16(NO_STREAM),
            LeNumber::U16(NO_STREAM),
        ],
    )
}
