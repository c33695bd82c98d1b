//! Words of a line that makes several parts alike: `#` stands for the index of each, from 0, and `#+` for the next one's,
//! which is 0 behind the last.

use crate::error::RowError;
use crate::words::Word;
use std::alloc::Global;

/// The index of a part, and how many there are.
#[derive(Clone, Copy)]
pub struct Part {
    pub index: usize,
    pub count: usize,
}

impl Part {
    fn next(self) -> usize {
        let next = self.index.saturating_add(1);
        if next < self.count { next } else { 0 }
    }
}

/// The text as it reads for this part.
pub fn numbered(alloc: Global, text: &str, part: Part) -> Result<String, RowError> {
    let Some((before, behind)) = text.split_once('#') else {
        return Ok(String::from_str(alloc, text)?);
    };
    let (index, behind) = match behind.strip_prefix('+') {
        Some(behind) => (part.next(), behind),
        None => (part.index, behind),
    };
    Ok(format!(in alloc; "{before}{index}{behind}")?)
}

/// The words as they read for this part.
pub fn numbered_words(alloc: Global, words: &[Word], part: Part) -> Result<Vec<Word>, RowError> {
    let mut all = Vec::new(alloc);
    for word in words {
        let text = numbered(alloc, word.text.as_str(), part)?;
        all.push(Word {
            text,
            quoted: word.quoted,
        })?;
    }
    Ok(all)
}
