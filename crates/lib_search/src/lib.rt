//! The modules of a link: its inputs, and the members of libraries that define what these ask for; and the resources of its
//! resource files. It takes files that `file_search` finds and reads, opens them by `module_view`, `lib_reader` and
//! `resource_files`, and gives the modules, the table of their names and the resources to the crates that plan a link. Its
//! contract promises that the modules are those that the search of libraries joins, in its order, and the resources those of
//! the files, or that its first fault is told. What names mean is left to `symbol_table`.
#![tactic(auto)]

mod alternates;
mod asked;
mod library;
mod link_list;
mod loading;
mod open;
mod opened_files;
mod search;
mod searched;

pub use asked::asked_names;
pub use link_list::{LinkList, complete};
