//! The lines that describe an object.

use crate::bytes::bytes_of;
use crate::error::RowError;
use crate::numbered::{Part, numbered};
use crate::numbers::{TOO_GREAT, number_at, u8_at, u16_at, u32_at};
use crate::object::{Aux, Object, Relocation, Section, Symbol};
use crate::words::{Word, copy_at, word_at, words_from};
use std::alloc::Global;

/// Adds what a line says to the object.
pub fn add_object_line(
    alloc: Global,
    object: &mut Object,
    keyword: &str,
    words: &[Word],
) -> Result<(), RowError> {
    match keyword {
        "section" => add_section(alloc, object, words),
        "sections" => add_sections(alloc, object, words),
        "symbol" => add_symbol(alloc, object, words),
        "cut" => {
            object.cut = Some(len_at(words, 0)?);
            Ok(())
        }
        "bytes" | "size" | "reloc" | "relocs" => match object.sections.last_mut() {
            Some(section) => add_section_line(alloc, section, keyword, words),
            None => Err(RowError::Malformed("no section stands above")),
        },
        _ => match object.symbols.last_mut() {
            Some(symbol) => add_symbol_line(alloc, symbol, keyword, words),
            None => Err(RowError::Malformed("no symbol stands above")),
        },
    }
}

/// A length or an offset of a file.
pub fn len_at(words: &[Word], index: usize) -> Result<usize, RowError> {
    usize::try_from(number_at(words, index)?).map_err(|_| TOO_GREAT)
}

/// `section NAME FLAGS`
fn add_section(alloc: Global, object: &mut Object, words: &[Word]) -> Result<(), RowError> {
    let section = Section {
        name: copy_at(alloc, words, 0)?,
        flags: u32_at(words, 1)?,
        data: Vec::new(alloc),
        uninitialised: None,
        relocations: Vec::new(alloc),
    };
    object.sections.push(section)?;
    Ok(())
}

/// `sections COUNT NAME FLAGS BYTES`: so many sections that hold the same, where `#` in the name stands for the index of
/// each, from 0.
fn add_sections(alloc: Global, object: &mut Object, words: &[Word]) -> Result<(), RowError> {
    let name = word_at(words, 1)?;
    let flags = u32_at(words, 2)?;
    let data = bytes_of(alloc, words_from(words, 3)?)?;
    let count = len_at(words, 0)?;
    for index in 0..count {
        let section = Section {
            name: numbered(alloc, name, Part { index, count })?,
            flags,
            data: Vec::from_slice(alloc, &data)?,
            uninitialised: None,
            relocations: Vec::new(alloc),
        };
        object.sections.push(section)?;
    }
    Ok(())
}

/// `bytes BYTES`, `size NUMBER`, `reloc OFFSET SYMBOL TYPE` or `relocs COUNT SYMBOL TYPE`
fn add_section_line(
    alloc: Global,
    section: &mut Section,
    keyword: &str,
    words: &[Word],
) -> Result<(), RowError> {
    match keyword {
        "bytes" => section.data.extend_from_slice(&bytes_of(alloc, words)?)?,
        "size" => section.uninitialised = Some(u32_at(words, 0)?),
        "relocs" => add_relocations(alloc, section, words)?,
        _ => section.relocations.push(Relocation {
            offset: u32_at(words, 0)?,
            symbol: copy_at(alloc, words, 1)?,
            kind: u16_at(words, 2)?,
        })?,
    }
    Ok(())
}

/// `relocs COUNT SYMBOL TYPE`: so many fields of four bytes, one behind the other.
fn add_relocations(alloc: Global, section: &mut Section, words: &[Word]) -> Result<(), RowError> {
    let kind = u16_at(words, 2)?;
    for index in 0..u32_at(words, 0)? {
        section.relocations.push(Relocation {
            offset: index.saturating_mul(4),
            symbol: copy_at(alloc, words, 1)?,
            kind,
        })?;
    }
    Ok(())
}

/// `symbol NAME VALUE SECTION TYPE CLASS`, and perhaps a count of auxiliary records.
fn add_symbol(alloc: Global, object: &mut Object, words: &[Word]) -> Result<(), RowError> {
    let aux_count = if words.len() > 5 {
        Some(u8_at(words, 5)?)
    } else {
        None
    };
    let symbol = Symbol {
        name: copy_at(alloc, words, 0)?,
        value: u32_at(words, 1)?,
        section: section_number(words, 2)?,
        kind: u16_at(words, 3)?,
        class: u8_at(words, 4)?,
        aux_count,
        aux: Vec::new(alloc),
    };
    object.symbols.push(symbol)?;
    Ok(())
}

fn section_number(words: &[Word], index: usize) -> Result<u32, RowError> {
    match word_at(words, index)? {
        "undefined" => Ok(0),
        "absolute" => Ok(0xffff_ffff),
        "debug" => Ok(0xffff_fffe),
        _ => u32_at(words, index),
    }
}

/// `aux BYTES`, `weak DEFAULT SEARCH` or `comdat LENGTH SELECTION`, with the number of the section that an associative one
/// goes with.
fn add_symbol_line(
    alloc: Global,
    symbol: &mut Symbol,
    keyword: &str,
    words: &[Word],
) -> Result<(), RowError> {
    let aux = match keyword {
        "aux" => Aux::Bytes(bytes_of(alloc, words)?),
        "weak" => Aux::Weak {
            default: copy_at(alloc, words, 0)?,
            search: u32_at(words, 1)?,
        },
        "comdat" => Aux::Bytes(section_definition(alloc, words)?),
        _ => return Err(RowError::Malformed("no such line")),
    };
    symbol.aux.push(aux)?;
    Ok(())
}

/// The record of "Auxiliary Format 5: Section Definitions": the section's length, counts and a checksum that are zeros, the
/// number of a section, and the selection.
fn section_definition(alloc: Global, words: &[Word]) -> Result<Vec<u8>, RowError> {
    let number = if words.len() > 2 {
        u16_at(words, 2)?
    } else {
        0
    };
    let mut bytes = Vec::new(alloc);
    bytes.extend_from_slice(&u32_at(words, 0)?.to_le_bytes())?;
    bytes.extend_from_slice(&[0; 8])?;
    bytes.extend_from_slice(&number.to_le_bytes())?;
    bytes.push(u8_at(words, 1)?)?;
    Ok(bytes)
}
