//! Files as rows of worked examples describe them, line by line: bytes, objects and libraries. It takes the words of a line,
//! and gives the bytes of the file that the lines say, in the forms of the PE Format. Its contracts promise that it ends. What
//! is done with the files is left to `row_walker`.
#![tactic(auto)]

mod archive;
mod bytes;
mod error;
mod library;
mod library_lines;
mod numbered;
mod numbers;
mod object;
mod object_layout;
mod object_lines;
mod string_table;
mod words;

pub use archive::library_file;
pub use bytes::bytes_of;
pub use error::RowError;
pub use library::Library;
pub use library_lines::add_library_line;
pub use numbers::number_at;
pub use object::{Form, Object};
pub use object_layout::object_file;
pub use object_lines::{add_object_line, len_at};
pub use words::{Word, copy_at, words_from, words_of};
