//! The lines that say what is wrong with an input: `fault`, a number, a name and the operands of the refusal. It takes a
//! `Fault` of `link_base` and gives the line to the program that prints it. Its contracts promise each line byte by byte.
//! What each refusal means, and when it comes, is left to the crates that refuse.
#![tactic(auto)]

mod diagnostic;
mod line;
mod operands;
mod words;

pub use diagnostic::fault_line;
pub use line::{push_escaped, push_hex_address, push_number};
