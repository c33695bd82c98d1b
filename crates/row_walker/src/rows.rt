//! The rows of a text.

use crate::error::FailedLine;
use crate::line::add_line;
use crate::row::Row;
use row_files::RowError;
use std::alloc::{AllocError, Global};

/// The rows of the text, in their order. A line `row TITLE` begins each; blank lines and those that begin with `#` say
/// nothing.
pub fn rows_of(alloc: Global, text: &str) -> Result<Vec<Row>, AllocError> {
    let mut rows = Vec::new(alloc);
    let mut number: usize = 0;
    for line in text.lines() {
        number = number.saturating_add(1);
        add_text_line(alloc, &mut rows, number, line.trim())?;
    }
    Ok(rows)
}

fn add_text_line(
    alloc: Global,
    rows: &mut Vec<Row>,
    number: usize,
    line: &str,
) -> Result<(), AllocError> {
    if line.is_empty() || line.starts_with('#') {
        return Ok(());
    }
    if let Some(title) = line.strip_prefix("row ") {
        rows.push(Row::new(alloc, String::from_str(alloc, title)?))?;
        return Ok(());
    }
    if rows.is_empty() {
        let title = String::from_str(alloc, "before the first row")?;
        rows.push(Row::new(alloc, title))?;
    }
    match rows.last_mut() {
        Some(row) => add_row_line(alloc, row, number, line),
        None => Ok(()),
    }
}

/// Adds a line to the row, unless an earlier line of it could not be read.
fn add_row_line(alloc: Global, row: &mut Row, number: usize, line: &str) -> Result<(), AllocError> {
    if row.unread.is_some() {
        return Ok(());
    }
    match add_line(alloc, row, number, line) {
        Ok(()) => Ok(()),
        Err(RowError::Memory) => Err(AllocError),
        Err(error) => {
            row.unread = Some(FailedLine {
                line: number,
                error,
            });
            Ok(())
        }
    }
}
