//! The sections that pieces go to, numbered in the order in which they are met.

use link_base::Name;

/// What tells sections apart.
#[derive(PartialEq, Eq, Hash, Drop)]
pub(crate) struct Home<'a> {
    pub name: Name<'a>,
    pub attributes: u32,
}
