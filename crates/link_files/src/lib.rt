//! The outside of a link: files that are read and written by name, and a sink that takes the output.
//! In memory they are told to contracts as they stand and fail where that is planned, for tests and theorems;
//! over the system they tell nothing. The linker takes any of them by the traits. Each call's contract says what
//! stands after it: a failure is answered exactly where the object's own count of failures rose. And a gate, which the
//! parts of a work pass that threads share.
#![tactic(auto)]

mod fault_plan;
mod file_map;
mod files;
mod gate;
mod host_files;
mod host_sink;
mod mem_files;
mod mem_sink;
mod never_fails;
mod outputs;
mod sink;

pub use files::{FileError, Files, WriteError};
pub use gate::{Gate, OpenGate};
pub use host_files::HostFiles;
pub use host_sink::HostSink;
pub use mem_files::MemFiles;
pub use mem_sink::MemSink;
pub use never_fails::NeverFails;
pub use outputs::{Output, OutputError, write_outputs};
pub use sink::{PutError, Sink};
