//! The bytes of an object file, in the form of the PE Format's "COFF File Header", "Section Table", "COFF Relocations"
//! and "COFF Symbol Table": the headers, then for each section its data and its relocations, then the symbol records and
//! the string table.

use crate::error::RowError;
use crate::numbers::{TOO_GREAT, number};
use crate::object::{Aux, Form, Object, Relocation, Section, Symbol};
use crate::string_table::{StringTable, len_u32, push_padded};
use link_base::pe_format::{FILE_MACHINE_AMD64, SCN_LNK_NRELOC_OVFL};
use std::alloc::Global;

const SIZEOF_SECTION_HEADER: u32 = 40;

/// The count in a section header that stands for a greater one, which the first relocation holds.
const MANY_RELOCATIONS: u32 = 0xffff;

/// The header of a big object up to the count of sections: its signature, the version and the machine, a time, the class
/// identifier, and four fields that are not used.
const BIG_HEADER: &[u8; 44] = b"\x00\x00\xff\xff\x02\x00\x64\x86\x00\x00\x00\x00\
    \xc7\xa1\xba\xd1\xee\xba\xa9\x4b\xaf\x20\xfa\xf6\x6a\xa4\xdc\xb8\
    \x00\x00\x00\x00\x00\x00\x00\x00\x00\x00\x00\x00\x00\x00\x00\x00";

impl Form {
    fn header_size(self) -> u32 {
        match self {
            Form::Plain => 20,
            Form::Big => 56,
        }
    }

    /// The size of a symbol record and of an auxiliary one.
    fn record_size(self) -> usize {
        match self {
            Form::Plain => 18,
            Form::Big => 20,
        }
    }
}

/// The bytes of the object's file.
pub fn object_file(alloc: Global, object: &Object) -> Result<Vec<u8>, RowError> {
    let mut file = whole_file(alloc, object)?;
    if let Some(len) = object.cut {
        file.truncate(len);
    }
    Ok(file)
}

fn whole_file(alloc: Global, object: &Object) -> Result<Vec<u8>, RowError> {
    let mut strings = StringTable::new(alloc);
    let mut headers = Vec::new(alloc);
    let mut bodies = Vec::new(alloc);
    let mut records = Vec::new(alloc);
    let table = len_u32(object.sections.len())?.saturating_mul(SIZEOF_SECTION_HEADER);
    let start = object.form.header_size().saturating_add(table);
    for section in &object.sections {
        let places = push_body(&mut bodies, start, section, &object.symbols)?;
        push_section_header(alloc, &mut headers, &mut strings, section, places)?;
    }
    for symbol in &object.symbols {
        push_symbol(&mut records, &mut strings, object, symbol)?;
    }
    let mut file = Vec::new(alloc);
    push_file_header(&mut file, object, place_behind(start, &bodies)?)?;
    file.extend_from_slice(&headers)?;
    file.extend_from_slice(&bodies)?;
    file.extend_from_slice(&records)?;
    strings.write(&mut file)?;
    Ok(file)
}

/// Appends the file header. The symbol records stand at this place.
fn push_file_header(file: &mut Vec<u8>, object: &Object, place: u32) -> Result<(), RowError> {
    let sections = len_u32(object.sections.len())?;
    let records = record_count(&object.symbols)?;
    match object.form {
        Form::Plain => {
            file.extend_from_slice(&FILE_MACHINE_AMD64.to_le_bytes())?;
            push_u16(file, sections)?;
            push_u32(file, 0)?;
            push_u32(file, place)?;
            push_u32(file, records)?;
            push_u32(file, 0)
        }
        Form::Big => {
            file.extend_from_slice(BIG_HEADER)?;
            push_u32(file, sections)?;
            push_u32(file, place)?;
            push_u32(file, records)
        }
    }
}

/// The places in the file of a section's data and relocations: 0 where it has none.
#[derive(Clone, Copy)]
struct Places {
    data: u32,
    relocations: u32,
}

/// Appends the section's data and its relocations to what stands from `start` on.
fn push_body(
    bodies: &mut Vec<u8>,
    start: u32,
    section: &Section,
    symbols: &[Symbol],
) -> Result<Places, RowError> {
    let mut places = Places {
        data: 0,
        relocations: 0,
    };
    if section.uninitialised.is_none() {
        places.data = place_behind(start, bodies)?;
        bodies.extend_from_slice(&section.data)?;
    }
    if !section.relocations.is_empty() {
        places.relocations = place_behind(start, bodies)?;
        push_relocations(bodies, &section.relocations, symbols)?;
    }
    Ok(places)
}

/// The place behind bytes that stand from `start` on.
fn place_behind(start: u32, bytes: &[u8]) -> Result<u32, RowError> {
    Ok(len_u32(bytes.len())?.saturating_add(start))
}

/// Appends the relocations, behind a record with their count and its own where the header can't hold it.
fn push_relocations(
    bodies: &mut Vec<u8>,
    relocations: &[Relocation],
    symbols: &[Symbol],
) -> Result<(), RowError> {
    let count = len_u32(relocations.len())?;
    if count >= MANY_RELOCATIONS {
        push_u32(bodies, count.saturating_add(1))?;
        bodies.extend_from_slice(&[0; 6])?;
    }
    for relocation in relocations {
        push_u32(bodies, relocation.offset)?;
        push_u32(bodies, record_of(symbols, relocation.symbol.as_str())?)?;
        bodies.extend_from_slice(&relocation.kind.to_le_bytes())?;
    }
    Ok(())
}

fn push_section_header(
    alloc: Global,
    headers: &mut Vec<u8>,
    strings: &mut StringTable,
    section: &Section,
    places: Places,
) -> Result<(), RowError> {
    let size = match section.uninitialised {
        Some(size) => size,
        None => len_u32(section.data.len())?,
    };
    let relocations = len_u32(section.relocations.len())?;
    let overflow = if relocations >= MANY_RELOCATIONS {
        SCN_LNK_NRELOC_OVFL
    } else {
        0
    };
    strings.push_section_name(alloc, headers, section.name.as_str())?;
    push_u32(headers, 0)?;
    push_u32(headers, 0)?;
    push_u32(headers, size)?;
    push_u32(headers, places.data)?;
    push_u32(headers, places.relocations)?;
    push_u32(headers, 0)?;
    push_u16(headers, relocations.min(MANY_RELOCATIONS))?;
    push_u16(headers, 0)?;
    push_u32(headers, section.flags | overflow)
}

/// Appends a symbol's record and its auxiliary records.
fn push_symbol(
    records: &mut Vec<u8>,
    strings: &mut StringTable,
    object: &Object,
    symbol: &Symbol,
) -> Result<(), RowError> {
    strings.push_symbol_name(records, symbol.name.as_str())?;
    push_u32(records, symbol.value)?;
    match object.form {
        Form::Plain => push_u16(records, plain_number(symbol.section))?,
        Form::Big => push_u32(records, symbol.section)?,
    }
    records.extend_from_slice(&symbol.kind.to_le_bytes())?;
    records.push(symbol.class)?;
    records.push(aux_count(symbol)?)?;
    for aux in &symbol.aux {
        push_aux(records, object, aux)?;
    }
    Ok(())
}

/// The number of a section as a record of a plain object has it: the special ones are 0xFFFF and 0xFFFE there.
fn plain_number(section: u32) -> u32 {
    match section {
        0xffff_ffff => 0xffff,
        0xffff_fffe => 0xfffe,
        _ => section,
    }
}

fn aux_count(symbol: &Symbol) -> Result<u8, RowError> {
    if let Some(count) = symbol.aux_count {
        return Ok(count);
    }
    u8::try_from(symbol.aux.len()).map_err(|_| RowError::Malformed("too many auxiliary records"))
}

fn push_aux(records: &mut Vec<u8>, object: &Object, aux: &Aux) -> Result<(), RowError> {
    match aux {
        Aux::Bytes(bytes) => push_padded(records, bytes, object.form.record_size()),
        Aux::Weak { default, search } => {
            let index = record_of(&object.symbols, default.as_str())?;
            push_u32(records, index)?;
            push_u32(records, *search)?;
            push_padded(records, &[], object.form.record_size().saturating_sub(8))
        }
    }
}

/// The index of a symbol's record: a number stands for itself, a name for the first symbol of that name. Auxiliary
/// records are counted.
fn record_of(symbols: &[Symbol], name: &str) -> Result<u32, RowError> {
    let mut index = 0;
    for symbol in symbols {
        if symbol.name.as_str() == name {
            return Ok(index);
        }
        index = records_behind(index, symbol)?;
    }
    let index = number(name).map_err(|_| RowError::Malformed(
        "a symbol is named that is not there",
    ))?;
    u32::try_from(index).map_err(|_| TOO_GREAT)
}

/// How many records there are.
fn record_count(symbols: &[Symbol]) -> Result<u32, RowError> {
    let mut count = 0;
    for symbol in symbols {
        count = records_behind(count, symbol)?;
    }
    Ok(count)
}

/// The index behind the records of a symbol that begin at this one.
fn records_behind(index: u32, symbol: &Symbol) -> Result<u32, RowError> {
    let aux = len_u32(symbol.aux.len())?;
    Ok(index.saturating_add(aux).saturating_add(1))
}

fn push_u32(out: &mut Vec<u8>, number: u32) -> Result<(), RowError> {
    out.extend_from_slice(&number.to_le_bytes())?;
    Ok(())
}

/// Appends a number that the row or the object gives for a field of two bytes.
fn push_u16(out: &mut Vec<u8>, number: u32) -> Result<(), RowError> {
    let number = u16::try_from(number).map_err(|_| TOO_GREAT)?;
    out.extend_from_slice(&number.to_le_bytes())?;
    Ok(())
}
