//! A library as a row describes it: members, and the names that its directory lists for them.

use crate::object::Object;
use std::alloc::Global;

/// The parts of a library.
#[derive(Drop)]
pub struct Library {
    /// The members that each line makes, in their order.
    pub groups: Vec<Vec<Member>>,
}

impl Library {
    pub fn new(alloc: Global) -> Library {
        Library {
            groups: Vec::new(alloc),
        }
    }
}

#[derive(Drop)]
pub struct Member {
    pub name: String,
    pub object: Object,
    /// The names that the directory lists for it.
    pub listed: Vec<String>,
}
