//! The records of an object file, plain or big, read at their places (PE Format, "COFF File Header (Object and Image)" and the
//! tables after it). It takes a file's bytes, which may be anything, and gives `coff_object` the numbers of the header, section
//! headers, relocations, symbol records and the texts of the string table. Its contracts promise that each is what stands at
//! its place, where the file is known to hold it, and say of any bytes whether it does. What is wrong with an object, and
//! which fault counts, is left to `coff_object`.
#![tactic(auto)]

mod file;
mod header;
mod offsets;
mod ranges;
mod relocation;
mod section_data;
mod section_header;
mod section_names;
mod strings;
mod symbol_record;
mod symbols;

pub use file::{CoffFile, is_truncated};
pub use header::is_big_object;
pub use relocation::{
    Relocation, Relocations, relocation_at, relocation_count, relocations_leave, relocations_place,
};
pub use section_data::{body_leaves, data_in};
pub use section_header::SectionHeader;
pub use section_names::{lacks_section_name, name_offset, section_name, section_name_start};
pub use strings::{string_table, table_leaves, texts_end};
pub use symbol_record::SymbolRecord;
pub use symbols::{Symbols, next_start};
