//! A row: files, and steps that are taken over them one after the other.

use crate::error::FailedLine;
use row_files::{Library, Object};
use std::alloc::Global;

/// A worked example of the whole linker.
#[derive(Drop)]
pub struct Row {
    pub title: String,
    pub files: Vec<RowFile>,
    pub steps: Vec<Step>,
    /// The first line that could not be read: the row is then not run.
    pub unread: Option<FailedLine>,
}

impl Row {
    pub fn new(alloc: Global, title: String) -> Row {
        Row {
            title,
            files: Vec::new(alloc),
            steps: Vec::new(alloc),
            unread: None,
        }
    }
}

/// A file as the row gives it.
#[derive(Drop)]
pub struct RowFile {
    pub line: usize,
    pub name: String,
    pub contents: Contents,
}

/// What a file holds: bytes as they stand, or an object or a library that is made of its parts.
#[derive(Drop)]
pub enum Contents {
    Plain(Vec<u8>),
    Object(Object),
    Library(Library),
}

/// What is done or expected, by the line of the input that says it.
#[derive(Drop)]
pub struct Step {
    pub line: usize,
    pub action: Action,
}

#[derive(Drop)]
pub enum Action {
    /// The read or write with this number fails in the next run.
    FailCall(u64),
    /// The put with this number fails in the next run.
    FailPut(u64),
    /// The linker is run on these words.
    Run(Vec<String>),
    /// The last run ended with this status.
    Status(u64),
    /// The last run printed these bytes.
    Printed(Vec<u8>),
    /// A file holds these bytes at an offset.
    At {
        name: String,
        offset: usize,
        bytes: Vec<u8>,
    },
    /// A file has so many bytes.
    Size {
        name: String,
        len: usize,
    },
    /// There is no such file.
    Gone(String),
    /// A file is as the row gives it.
    Kept(String),
    /// Two files hold the same bytes.
    Same(String, String),
    /// The first file holds the first bytes of the second.
    Starts(String, String),
    /// A copy of the first file is given under the second name from here on.
    Copy(String, String),
}
