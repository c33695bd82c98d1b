//! Names in headers and records, and the table of those that are longer than eight bytes.

use crate::error::RowError;
use std::alloc::Global;

/// The length of a name in a header or a record.
const SHORT_NAME: usize = 8;

/// The names that stand in the table, each with a NUL behind it.
#[derive(Drop)]
pub struct StringTable {
    names: Vec<u8>,
}

impl StringTable {
    pub fn new(alloc: Global) -> StringTable {
        StringTable {
            names: Vec::new(alloc),
        }
    }

    /// Appends the table to a file: its size, which counts its own four bytes, and the names.
    pub fn write(&self, file: &mut Vec<u8>) -> Result<(), RowError> {
        file.extend_from_slice(&self.next_offset()?.to_le_bytes())?;
        file.extend_from_slice(&self.names)?;
        Ok(())
    }

    fn next_offset(&self) -> Result<u32, RowError> {
        Ok(len_u32(self.names.len())?.saturating_add(4))
    }

    fn push(&mut self, name: &str) -> Result<u32, RowError> {
        let offset = self.next_offset()?;
        self.names.extend_from_slice(name.as_bytes())?;
        self.names.push(0)?;
        Ok(offset)
    }

    /// Appends the name field of a section: `/` and an offset in decimal for a longer name.
    pub fn push_section_name(
        &mut self,
        alloc: Global,
        out: &mut Vec<u8>,
        name: &str,
    ) -> Result<(), RowError> {
        if name.len() <= SHORT_NAME {
            return push_padded(out, name.as_bytes(), SHORT_NAME);
        }
        let offset = self.push(name)?;
        let text = format!(in alloc; "/{offset}")?;
        push_padded(out, text.as_bytes(), SHORT_NAME)
    }

    /// Appends the name field of a symbol: a zero and an offset for a longer name.
    pub fn push_symbol_name(&mut self, out: &mut Vec<u8>, name: &str) -> Result<(), RowError> {
        if name.len() <= SHORT_NAME {
            return push_padded(out, name.as_bytes(), SHORT_NAME);
        }
        let offset = self.push(name)?;
        out.extend_from_slice(&[0; 4])?;
        out.extend_from_slice(&offset.to_le_bytes())?;
        Ok(())
    }
}

/// Appends the bytes, with zeros behind them up to this length.
pub fn push_padded(out: &mut Vec<u8>, bytes: &[u8], len: usize) -> Result<(), RowError> {
    let Some(zeros) = len.checked_sub(bytes.len()) else {
        return Err(RowError::Malformed("more bytes than the field holds"));
    };
    out.extend_from_slice(bytes)?;
    for _ in 0..zeros {
        out.push(0)?;
    }
    Ok(())
}

/// A length, count or place as a field of four bytes.
pub fn len_u32(len: usize) -> Result<u32, RowError> {
    u32::try_from(len).map_err(|_| RowError::Malformed("the object is too large"))
}
