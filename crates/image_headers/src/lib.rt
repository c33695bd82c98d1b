//! The headers of an image, by the options of a link: how it may be loaded, and its directories. It takes the options of
//! `link_words` and the directories from the crate that makes images, and gives headers to `image_writer`, which writes them. Its
//! contract promises each field. Where the directories stand is left to others.
#![tactic(auto)]

mod headers;

pub use headers::{Directories, headers_of};
