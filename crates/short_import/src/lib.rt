//! Reads short imports: the members of an import library that each name one symbol of a DLL. It takes the
//! member's bytes and gives the symbol, the DLL, and how the loader finds it there, to the crates that link.
//! Its contract promises that each field is what the format says of the bytes, and that a member is refused
//! exactly where it is malformed, for the first fault. What such a member defines, and the limit of a name's
//! length, are left to others. No call takes memory.
#![tactic(auto)]

mod constants;
mod decoration;
mod fault;
mod fields;
mod import;
mod texts;

pub use import::{Import, ImportBy, ImportKind};
pub use link_base::ImpFault;
