//! Bytes of a line: hexadecimal digits as `e8 00` or `e800`, with `*` and a number for so many of them, as `00*4096`,
//! and text in double quotes.

use crate::error::RowError;
use crate::numbers::number;
use crate::words::Word;
use std::alloc::Global;

/// How often bytes are repeated before they are appended, where they are to stand more often.
const AT_ONCE: u64 = 4096;

/// The bytes that these words say.
pub fn bytes_of(alloc: Global, words: &[Word]) -> Result<Vec<u8>, RowError> {
    let mut bytes = Vec::new(alloc);
    for word in words {
        push_bytes(alloc, &mut bytes, word)?;
    }
    Ok(bytes)
}

fn push_bytes(alloc: Global, bytes: &mut Vec<u8>, word: &Word) -> Result<(), RowError> {
    let text = word.text.as_str();
    if word.quoted {
        bytes.extend_from_slice(text.as_bytes())?;
        return Ok(());
    }
    match text.split_once('*') {
        Some((digits, count)) => {
            let repeated = from_digits(alloc, digits)?;
            push_repeated(alloc, bytes, &repeated, number(count)?)
        }
        None => {
            bytes.extend_from_slice(&from_digits(alloc, text)?)?;
            Ok(())
        }
    }
}

/// Appends the bytes so many times: many at once, as far as that goes.
fn push_repeated(
    alloc: Global,
    bytes: &mut Vec<u8>,
    repeated: &[u8],
    count: u64,
) -> Result<(), RowError> {
    if count < AT_ONCE {
        return push_times(bytes, repeated, count);
    }
    let many = repeated.repeat(alloc, AT_ONCE as usize)?;
    push_times(bytes, &many, count / AT_ONCE)?;
    push_times(bytes, repeated, count % AT_ONCE)
}

fn push_times(bytes: &mut Vec<u8>, repeated: &[u8], count: u64) -> Result<(), RowError> {
    for _ in 0..count {
        bytes.extend_from_slice(repeated)?;
    }
    Ok(())
}

/// The bytes that hexadecimal digits say, two for each.
pub fn from_digits(alloc: Global, digits: &str) -> Result<Vec<u8>, RowError> {
    match hex::decode(alloc, digits) {
        Ok(bytes) => Ok(bytes),
        Err(hex::FromHexError::OutOfMemory) => Err(RowError::Memory),
        Err(_) => Err(RowError::Malformed("bytes are wanted")),
    }
}
