//! The resources of an image: those of the resource files of a link, as one tree. It takes what the files hold, as `res_merge`
//! reads it, has `res_merge` say how long the tree is and write it, and gives the size and the bytes to the crates that lay
//! out and write the image. Its contracts promise the size and each byte of the tree, and that there is none without a
//! resource; that a search finds each resource in it, and no other, is a law of `res_merge`. Where the tree stands is left to
//! those crates.
#![tactic(auto)]

mod resources;

pub use resources::LinkResources;
