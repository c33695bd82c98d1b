//! The inputs of a link in one arena: each file is read once, straight to where it stays, so that views of its bytes
//! live as long as the arena. It takes the files of `link_files`, and gives slices to the crates that open them as
//! modules and libraries. Its contracts promise that a slice equals its file, and that an input is refused exactly
//! where it is not there, is too large, or makes the inputs too large together; the total of their bytes is counted.
//! What a file means is left to the crates above.
#![tactic(auto)]

mod error;
mod inputs;

pub use error::LoadError;
pub use inputs::Inputs;
