//! The import library of a link: through which other links import what it exports. It takes the exports of a link, as
//! `link_exports` gives them, has `implib` say how long the library is and write it, and gives its bytes, or the fault that
//! they are too many, to the crate that makes the image. Its contracts promise which exports it lists, in which order and how
//! the loader is to find each, and each byte of the file; that what it lists is found in it, and read back, are laws of
//! `implib`. Under which name it is written is left to others.
#![tactic(auto)]

mod library;
mod rows;

pub use library::link_library;
