//! Reads libraries: the archive of members, and its directory of the names that the members define. It takes
//! the file's bytes and gives the listings and the members, as views of them, to the crates that link. Its
//! contracts promise that a library is refused exactly where it is malformed, for the first fault of the walk
//! along its first members, and that listings and members are what the format says of the bytes. What a member
//! is, an object or a short import, is left to others. No call takes memory.
#![tactic(auto)]

mod constants;
mod error;
mod first_directory;
mod header;
mod library;
mod listings;
mod long_name;
mod member_fault;
mod member_name;
mod second_directory;
mod texts;
mod walk;

pub use error::LibError;
pub use library::{Library, Member, begins_library};
pub use link_base::LibFault;
pub use listings::Listings;
