//! Directives: options for the linker that a compiler writes into an object, in sections named `.drectve`.
//! Takes the bytes of such a section, and gives what each option says, up to the first malformed one.
//! `value_of` reads one value, which the command line shares. The contracts say exactly which directives,
//! by the grammar in `specs/`. What a directive does to a link is left to the crates above.
#![tactic(auto)]

mod attributes;
mod exports;
mod form;
mod item;
mod names;
mod number;
mod reader;
mod text;
mod values;
mod words;

pub use item::{BadDirective, Directive, Export, ExportForm};
pub use names::{is_word, lookup};
pub use number::{decimal_up_to, number_up_to};
pub use reader::Directives;
pub use text::{begins_option, is_text, split_at_byte};
pub use values::value_of;
