//! A resource, and what is wrong with an entry.

use link_base::{ResFault, ResName};

/// A resource. Its texts and its data borrow from the file that it was read from.
#[derive(Clone, Copy)]
pub struct Resource<'a> {
    pub kind: ResName<'a>,
    pub name: ResName<'a>,
    pub language: u16,
    pub body: &'a [u8],
}

/// What is wrong with an entry of a resource file, and the offset at which the entry begins.
#[derive(Clone, Copy, Debug, PartialEq, Eq)]
pub struct ResError {
    pub kind: ResFault,
    pub at: u32,
}
