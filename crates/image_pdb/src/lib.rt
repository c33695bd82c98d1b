//! The program database of an image. It takes the modules, the pieces and the public symbols of a link with the sections of its
//! image and their places, has the rows made by `debug_rows` and the file by `pdb_file`, and gives the bytes to the crate that
//! makes images. Its contract promises the file of the one database of that image, or that it would be too large, with its
//! size. The identifier of the image and its section headers are left to others.
#![tactic(auto)]

mod rows;
mod writing;

pub use writing::image_pdb;
