//! Resources: reads compiled resource files, and merges what they hold into the resource tree of an image. It takes the
//! bytes of a file and gives its resources, takes resources and gives the tree, and finds a resource in the tree of any
//! mapped image. Its contracts promise that the items of a file are what the format says of its bytes, up to the first
//! malformed entry, and each byte of the tree; that what is found in a tree is what went in, and nothing else, is a law.
//! Which resources go into an image, and where the tree stands in it, are left to others.
#![tactic(auto)]

mod entry;
mod laws;
mod leaves;
mod lookup;
mod merge;
mod names;
mod order;
mod parts;
mod reader;
mod resource;
mod rows;
mod runs;
mod tables;

pub use laws::{a_tree_has_its_length, resources_are_found_in_their_tree};
pub use link_base::{ResFault, ResName};
pub use lookup::find_resource;
pub use merge::{tree, tree_length};
pub use reader::Resources;
pub use resource::{ResError, Resource};
