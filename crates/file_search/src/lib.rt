//! Files of a link: the inputs and the default libraries, by the names under which they are looked for. It takes the options
//! of the command line from `link_words`, files from `link_files` by `input_arena`, and the directives of modules from
//! `module_view`; to `lib_search` it gives the files that were read, and the names of the default libraries that are searched.
//! Its contracts promise that a file is that of the first name under which one is there, that inputs are read in the order of
//! the words, and that default libraries are those that are named, each once, and not ruled out. What is in a file is left to
//! the crates above.
#![tactic(auto)]

mod default_libraries;
mod find;
mod found;
mod library_name;
mod read;

pub use default_libraries::DefaultLibraries;
pub use find::find_file;
pub use found::FoundFile;
pub use read::read_inputs;
