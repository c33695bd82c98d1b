//! The resource files of a link: what they hold together. It takes the files that `file_search` finds and that begin as
//! resource files do, has `res_merge` read their entries, and gives the resources, file after file, to `lib_search`, which
//! opens the inputs of a link. Its contracts promise that the resources are those of the files, in their order, and that no
//! two of them have one type, name and language; or that the first fault is told. That no module of a link has resources
//! beside them, and the tree of them all, are left to others.
#![tactic(auto)]

mod files;
mod key;

pub use files::{ResourceFiles, begins_resources};
