//! The words of a line.

use crate::error::RowError;
use std::alloc::Global;

/// A word, and whether it stood in double quotes.
#[derive(Drop)]
pub struct Word {
    pub text: String,
    pub quoted: bool,
}

/// The words of a line. They are split at blanks; one in double quotes may hold blanks, and `\x` with two hexadecimal
/// digits for a byte.
pub fn words_of(alloc: Global, line: &str) -> Result<Vec<Word>, RowError> {
    let mut words = Vec::new(alloc);
    let mut quoted = false;
    for piece in line.split('"') {
        if quoted {
            let text = unescaped(alloc, piece)?;
            words.push(Word { text, quoted })?;
        } else {
            push_plain(alloc, &mut words, piece)?;
        }
        quoted = !quoted;
    }
    // Behind an even number of quotes stands a piece that is not quoted.
    if quoted {
        Ok(words)
    } else {
        Err(RowError::Malformed("a quote is not closed"))
    }
}

fn push_plain(alloc: Global, words: &mut Vec<Word>, piece: &str) -> Result<(), RowError> {
    for word in piece.split_ascii_whitespace() {
        let text = String::from_str(alloc, word)?;
        words.push(Word {
            text,
            quoted: false,
        })?;
    }
    Ok(())
}

/// The text with the bytes that its escapes stand for.
fn unescaped(alloc: Global, text: &str) -> Result<String, RowError> {
    let mut bytes = Vec::new(alloc);
    let mut escaped = false;
    for part in text.split("\\x") {
        if escaped {
            push_escaped(alloc, &mut bytes, part)?;
        } else {
            bytes.extend_from_slice(part.as_bytes())?;
        }
        escaped = true;
    }
    match String::from_utf8(bytes) {
        Ok(text) => Ok(text),
        Err(_) => Err(RowError::Malformed("a word is not UTF-8")),
    }
}

/// Appends what follows `\x`: a byte by two digits, and text.
fn push_escaped(alloc: Global, bytes: &mut Vec<u8>, part: &str) -> Result<(), RowError> {
    let Some((digits, rest)) = part.split_at_checked(2) else {
        return Err(RowError::Malformed("two digits belong behind \\x"));
    };
    let byte = crate::bytes::from_digits(alloc, digits)?;
    bytes.extend_from_slice(&byte)?;
    bytes.extend_from_slice(rest.as_bytes())?;
    Ok(())
}

/// The word at this index, from 0.
pub fn word_at(words: &[Word], index: usize) -> Result<&str, RowError> {
    let word = words
        .get(index)
        .ok_or(RowError::Malformed("a word is missing"))?;
    Ok(word.text.as_str())
}

/// A copy of the word at this index, from 0.
pub fn copy_at(alloc: Global, words: &[Word], index: usize) -> Result<String, RowError> {
    let word = word_at(words, index)?;
    Ok(String::from_str(alloc, word)?)
}

/// The words from this index on.
pub fn words_from(words: &[Word], index: usize) -> Result<&[Word], RowError> {
    words
        .get(index..)
        .ok_or(RowError::Malformed("a word is missing"))
}
