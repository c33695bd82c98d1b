//! Runs the linker: it takes the words of the command line, reads the inputs and writes the outputs by `link_files`, has
//! `link_plan` and `link_image` decide and make what is written, and prints one line. Its contract promises that the
//! status, the line and the files are those of the expected outcome, and that the image loads as planned at every
//! permitted base. The real files and the program around it are left to `link_files` and `vicealoe`.
#![tactic(auto)]

mod answer;
mod generate;
mod laws;
mod lines;
mod link;
mod linked;
mod linker;
mod show;
mod show_symbol;
mod shown_file;
mod status;
mod sums;
mod write;

pub use laws::one_outcome;
pub use linker::run;
pub use status::Status;
