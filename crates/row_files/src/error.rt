//! Why a line of a row is not met.

use link_base::Memory;
use std::alloc::{AllocError, AllocFailed};

/// Why a line of a row is not met.
#[derive(Debug, Drop)]
pub enum RowError {
    /// The line is malformed, or stands where it has no meaning.
    Malformed(&'static str),
    /// What was expected, and what came.
    Wrong(String),
    /// Memory was refused.
    Memory,
}

impl From<Memory> for RowError {
    fn from(_error: Memory) -> RowError {
        RowError::Memory
    }
}

impl From<AllocError> for RowError {
    fn from(_error: AllocError) -> RowError {
        RowError::Memory
    }
}

impl<T: Drop> From<AllocFailed<T>> for RowError {
    fn from(_error: AllocFailed<T>) -> RowError {
        RowError::Memory
    }
}
