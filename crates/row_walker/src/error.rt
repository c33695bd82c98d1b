//! Why a row is not right.

use row_files::RowError;
use std::alloc::{AllocError, Global};

/// A line of the input, counted from 1, and why it is not met.
#[derive(Debug, Drop)]
pub struct FailedLine {
    pub line: usize,
    pub error: RowError,
}

impl FailedLine {
    /// What is printed of the line.
    pub fn text(&self, alloc: Global) -> Result<String, AllocError> {
        let line = self.line;
        match &self.error {
            RowError::Malformed(text) => format!(in alloc; "line {line}: {text}"),
            RowError::Wrong(text) => format!(in alloc; "line {line}: {text}"),
            RowError::Memory => Err(AllocError),
        }
    }
}
