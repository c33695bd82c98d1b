//! Numbers of a line: decimal, or hexadecimal behind `0x`.

use crate::error::RowError;
use crate::words::{Word, word_at};

/// Why a number is not taken that its field cannot hold.
pub const TOO_GREAT: RowError = RowError::Malformed("a number is too great");

pub fn number(word: &str) -> Result<u64, RowError> {
    let read = match word.strip_prefix("0x") {
        Some(digits) => u64::from_str_radix(digits, 16),
        None => word.parse::<u64>(),
    };
    read.map_err(|_| RowError::Malformed("a number is wanted"))
}

/// The number at this index of the words, from 0.
pub fn number_at(words: &[Word], index: usize) -> Result<u64, RowError> {
    number(word_at(words, index)?)
}

pub fn u32_at(words: &[Word], index: usize) -> Result<u32, RowError> {
    u32::try_from(number_at(words, index)?).map_err(|_| TOO_GREAT)
}

pub fn u16_at(words: &[Word], index: usize) -> Result<u16, RowError> {
    u16::try_from(number_at(words, index)?).map_err(|_| TOO_GREAT)
}

pub fn u8_at(words: &[Word], index: usize) -> Result<u8, RowError> {
    u8::try_from(number_at(words, index)?).map_err(|_| TOO_GREAT)
}
