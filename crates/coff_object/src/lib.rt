//! The object files that a link reads (PE Format, "COFF File Header (Object and Image)" and the tables after it), and big
//! objects, which have room for more sections. It takes a file's bytes from the crates that read and search files, reads
//! records at their places by `coff_records`, and gives sections, relocations and symbols, as views of these bytes, to those
//! that make a module of an object. Its contracts promise that an object opens exactly where no kind of fault stands, and
//! that each field is the number at its place. It tells too which form a file has that is not read as an object
//! (`form_shown`). What a section's or a symbol's auxiliary records mean is left to the crates above.
#![tactic(auto)]

mod error;
mod fault;
mod forms;
mod long_texts;
mod object;
mod section;
mod section_fault;
mod symbol;
mod symbol_fault;
mod well_formed;

pub use coff_records::{Relocation, Relocations, SymbolRecord, Symbols, is_big_object};
pub use error::ObjError;
pub use forms::form_shown;
pub use long_texts::LongTexts;
pub use object::Object;
pub use section::Section;
pub use symbol::Symbol;
