//! Images as a loader sees them: which file is an image, and the image as it stands in memory at a base.
//! It takes the bytes of a file and a base; it gives the memory with base relocations applied, and the directories and
//! sections of the headers, to what shows images.
//! Its contracts promise that a file is refused by the first of the tests that fails, that each byte of the memory is that
//! of the definitions, and that an image of no byte besides those that it loads is settled by its memory.
//! Imports are not bound, and pages are not protected.
#![tactic(auto)]

mod copying;
mod directories;
mod error;
mod file_judging;
mod headers;
mod judging;
mod laws;
mod loaded;
mod raising;
mod section_header;

pub use error::{LengthRange, ShowError};
pub use judging::header_fault;
pub use laws::{loaded_images_are_shared, one_file_loads_a_memory};
pub use loaded::Loaded;
