//! A module of a link: an object file or a short import that was opened, and the lists that a link reads of it, of its symbols
//! and of its directives. It takes the bytes of a file, which `coff_object`, `short_import` and `directives` read, and gives
//! modules to symbol resolution and to layout. Its contracts promise that a file is refused exactly for the first error of a
//! table, and that each list holds what the format says, in order. What names and directives mean across modules is left to
//! others.
#![tactic(auto)]

mod aux_faults;
mod comdat_choice;
mod definition;
mod directive_list;
mod error;
mod first_bytes;
mod import;
mod input_module;
mod laws;
mod open_import;
mod opening;
mod reference;
mod sections;
mod symbols;

pub use coff_aux::Comdat;
pub use comdat_choice::ComdatChoice;
pub use definition::{Common, Definition, Place};
pub use error::ModuleError;
pub use input_module::{Module, Origin};
pub use laws::modules_are_shared;
pub use opening::open_module;
pub use reference::{Reference, Weak};
