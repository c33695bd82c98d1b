//! The contributions of a program database.

ghost use Rattle.std.specs.Prelude.{◌≡◌, ◌≤◌, ◌<◌, ◌+◌, ◌-◌, ◌*◌, IfOk, IfSome, IsTrue, length};
ghost use Rattle.std.specs.Option.{option_copied};
ghost use Rattle.pdb_dbi.specs.Contribution.{record_size, coff_at, contribution_at};
ghost use Rattle.pdb_dbi.specs.DbiReading.{DBI_HEADER_SIZE, has_header, part_place, part_size, part_of, form_of, has_whole_records, record_in, records_of, contributions_of, contributions_in, GivesContributions};

use crate::form::Form;
use crate::format::{DBI_HEADER_SIZE, DBI_SIGNATURE, DBI_STREAM, VERSION_SIZE};
use crate::rows::Contribution;
use link_base::{Memory, PdbKind, field_u32, slice_in, u16_in, u32_in};
use pdb_msf::{Msf, StreamError};
use std::alloc::Global;

/// Where the size of the part of modules stands in the header, and where that of contributions does.
const MODULES_OFFSET: usize = 24;

const CONTRIBUTIONS_OFFSET: usize = 28;

/// Why contributions are not given.
#[derive(Clone, Copy, Debug, PartialEq, Eq)]
pub enum DbiError {
    /// The stream of debug information is malformed.
    Kind(PdbKind),
    /// Want of memory.
    Memory,
}

/// The contributions that a program database lists in stream 3, in their order, of either form (LLVM, "The PDB DBI (Debug
/// Info) Stream"). A record of the first form has 0 for the section of the object.
///
/// # Errors
///
/// `Kind(Header)` where the stream has fewer than 64 bytes, does not begin with four bytes of 255, or where the part of
/// contributions leaves it, begins as neither form, or does not end with a whole record. A file without the stream counts
/// as one in which it is empty.
pub fn contributions(alloc: Global, msf: &Msf<'_>) -> Result<Vec<Contribution>, DbiError>
    ensures { GivesContributions (contributions_of msf.now) result }
{
    match msf.stream(alloc, DBI_STREAM) {
        Ok(stream) => contributions_in(alloc, &stream),
        Err(StreamError::Missing) => Err(DbiError::Kind(PdbKind::Header)),
        Err(StreamError::Memory) => Err(DbiError::Memory),
    }
}

fn contributions_in(alloc: Global, stream: &[u8]) -> Result<Vec<Contribution>, DbiError>
    ensures { GivesContributions (contributions_in stream.now) result }
{
    let Some(part) = contribution_part(stream) else {
        return Err(DbiError::Kind(PdbKind::Header));
    };
    let Some(form) = form_of(part) else {
        return Err(DbiError::Kind(PdbKind::Header));
    };
    if !has_whole_records(form, part) {
        return Err(DbiError::Kind(PdbKind::Header));
    }
    match records_of(alloc, form, part) {
        Ok(list) => Ok(list),
        Err(Memory) => Err(DbiError::Memory),
    }
}

/// The part of contributions, where the header and all of the part are there.
#[tactic(auto, unfolding(crate::specs::DbiReading::part_of, crate::specs::DbiReading::part_place, crate::specs::DbiReading::part_size))]
fn contribution_part(stream: &[u8]) -> Option<&[u8]>
    ensures { option_copied result ≡ part_of stream.now }
{
    if !has_header(stream) {
        return None;
    }
    let place = DBI_HEADER_SIZE + u32_in(stream, MODULES_OFFSET) as usize;
    let size = u32_in(stream, CONTRIBUTIONS_OFFSET) as usize;
    if place + size > stream.len() {
        return None;
    }
    Some(slice_in(stream, place, size))
}

#[tactic(auto, unfolding(crate::specs::DbiReading::has_header))]
fn has_header(stream: &[u8]) -> bool
    ensures test { result ≡ has_header stream.now }
    ensures there { IsTrue result → DBI_HEADER_SIZE ≤ length stream.now }
{
    stream.len() >= DBI_HEADER_SIZE && u32_in(stream, 0) == DBI_SIGNATURE
}

/// The form of the records, by the first word of their part.
fn form_of(part: &[u8]) -> Option<Form>
    ensures form { result ≡ form_of part.now }
    ensures there { IfSome result (λ form. VERSION_SIZE ≤ length part.now) }
{
    match field_u32(part, 0) {
        Some(version) => Form::of_version(version),
        None => None,
    }
}

fn has_whole_records(form: Form, part: &[u8]) -> bool
    requires { VERSION_SIZE ≤ length part.now }
    ensures { result ≡ has_whole_records form part.now }
{
    (part.len() - VERSION_SIZE) % form.record_size() == 0
}

/// The records that stand behind the first word.
fn records_of(alloc: Global, form: Form, part: &[u8]) -> Result<Vec<Contribution>, Memory>
    requires { VERSION_SIZE ≤ length part.now }
    ensures { IfOk result (λ list. list.items ≡ records_of form part.now) }
{
    let count = (part.len() - VERSION_SIZE) / form.record_size();
    let mut list = Vec::with_capacity(alloc, count)?;
    for index in 0..count {
        list.push(record_at(form, part, index))?;
    }
    Ok(list)
}

/// A record by its index.
#[tactic(auto, unfolding(crate::specs::DbiReading::record_in))]
fn record_at(form: Form, part: &[u8], index: usize) -> Contribution
    requires { VERSION_SIZE + record_size form * index + record_size form ≤ length part.now }
    ensures { result ≡ record_in form part.now index }
{
    contribution_at(form, part, VERSION_SIZE + form.record_size() * index)
}

/// The record at a place.
#[tactic(auto, unfolding(crate::specs::Contribution::contribution_at))]
fn contribution_at(form: Form, part: &[u8], place: usize) -> Contribution
    requires { place + record_size form ≤ length part.now }
    ensures { result ≡ contribution_at form part.now place }
{
    Contribution {
        section: u16_in(part, place),
        offset: u32_in(part, place + 4),
        size: u32_in(part, place + 8),
        flags: u32_in(part, place + 12),
        module: u16_in(part, place + 16),
        coff: coff_at(form, part, place),
    }
}

/// The number of the section in the object, which the first form lacks.
fn coff_at(form: Form, part: &[u8], place: usize) -> u32
    requires { place + record_size form ≤ length part.now }
    ensures { result ≡ coff_at form part.now place }
{
    match form {
        Form::Ver60 => 0,
        Form::V2 => u32_in(part, place + 28),
    }
}
