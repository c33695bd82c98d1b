//! The lines of a row.

use crate::row::{Action, Contents, Row, RowFile, Step};
use row_files::{
    Form, Library, Object, RowError, Word, add_library_line, add_object_line, bytes_of, copy_at,
    len_at, number_at, words_from, words_of,
};
use std::alloc::Global;

/// Adds what a line says to the row. Lines are counted from 1.
pub fn add_line(alloc: Global, row: &mut Row, line: usize, text: &str) -> Result<(), RowError> {
    let (keyword, rest) = match text.split_once(' ') {
        Some(split) => split,
        None => (text, ""),
    };
    if keyword == "line" || keyword == "torn" {
        let printed = printed_bytes(alloc, rest.trim(), keyword == "line")?;
        row.steps.push(Step {
            line,
            action: Action::Printed(printed),
        })?;
        return Ok(());
    }
    let words = words_of(alloc, rest)?;
    if let Some(action) = action_of(alloc, keyword, &words)? {
        row.steps.push(Step { line, action })?;
        return Ok(());
    }
    if let Some(contents) = contents_of(alloc, keyword, &words)? {
        let name = copy_at(alloc, &words, 0)?;
        row.files.push(RowFile {
            line,
            name,
            contents,
        })?;
        return Ok(());
    }
    match row.files.last_mut() {
        Some(file) => add_file_line(alloc, file, keyword, &words),
        None => Err(RowError::Malformed("no such line, or no file stands above")),
    }
}

/// What is printed: the text, which may stand in double quotes, and the line's end where it was printed whole.
fn printed_bytes(alloc: Global, text: &str, whole: bool) -> Result<Vec<u8>, RowError> {
    let text = match text.strip_prefix('"') {
        Some(quoted) => quoted.trim_end_matches('"'),
        None => text,
    };
    let mut printed = Vec::from_slice(alloc, text.as_bytes())?;
    if whole {
        printed.push(b'\n')?;
    }
    Ok(printed)
}

/// The step that a line says, if it says one.
fn action_of(alloc: Global, keyword: &str, words: &[Word]) -> Result<Option<Action>, RowError> {
    let action = match keyword {
        "run" => Action::Run(arguments(alloc, words)?),
        "fail-call" => Action::FailCall(number_at(words, 0)?),
        "fail-put" => Action::FailPut(number_at(words, 0)?),
        "status" => Action::Status(number_at(words, 0)?),
        "at" => Action::At {
            name: copy_at(alloc, words, 0)?,
            offset: len_at(words, 1)?,
            bytes: bytes_of(alloc, words_from(words, 2)?)?,
        },
        "length" => Action::Size {
            name: copy_at(alloc, words, 0)?,
            len: len_at(words, 1)?,
        },
        "gone" => Action::Gone(copy_at(alloc, words, 0)?),
        "kept" => Action::Kept(copy_at(alloc, words, 0)?),
        "same" => Action::Same(copy_at(alloc, words, 0)?, copy_at(alloc, words, 1)?),
        "starts" => Action::Starts(copy_at(alloc, words, 0)?, copy_at(alloc, words, 1)?),
        "copy" => Action::Copy(copy_at(alloc, words, 0)?, copy_at(alloc, words, 1)?),
        _ => return Ok(None),
    };
    Ok(Some(action))
}

/// The arguments of a run.
fn arguments(alloc: Global, words: &[Word]) -> Result<Vec<String>, RowError> {
    let mut arguments = Vec::new(alloc);
    for word in words {
        arguments.push(word.text.clone()?)?;
    }
    Ok(arguments)
}

/// The file that a line begins, if it begins one.
fn contents_of(alloc: Global, keyword: &str, words: &[Word]) -> Result<Option<Contents>, RowError> {
    let contents = match keyword {
        "object" => Contents::Object(Object::new(alloc, Form::Plain)),
        "big" => Contents::Object(Object::new(alloc, Form::Big)),
        "library" => Contents::Library(Library::new(alloc)),
        "file" => Contents::Plain(bytes_of(alloc, words_from(words, 1)?)?),
        _ => return Ok(None),
    };
    Ok(Some(contents))
}

/// Adds what a line says to the file above it.
fn add_file_line(
    alloc: Global,
    file: &mut RowFile,
    keyword: &str,
    words: &[Word],
) -> Result<(), RowError> {
    match &mut file.contents {
        Contents::Object(object) => add_object_line(alloc, object, keyword, words),
        Contents::Library(library) => add_library_line(alloc, library, keyword, words),
        Contents::Plain(bytes) => {
            if keyword != "bytes" {
                return Err(RowError::Malformed("no such line"));
            }
            bytes.extend_from_slice(&bytes_of(alloc, words)?)?;
            Ok(())
        }
    }
}
