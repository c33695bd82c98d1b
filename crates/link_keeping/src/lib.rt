//! What of the pieces of a link is kept, where each of them stands, and which of them stand in a section even where they have no
//! bytes. It takes the pieces with their fields and the places of the entry, the exports and what a loader looks for, has `reach`
//! say what a path comes to from the roots and `link_folding` which functions are equal, and tells `link_plan`. The contract
//! promises that what is kept is what is reached and stands at its own place, and that a piece is marked exactly where the
//! definitions say that something means it. What is made of the pieces that are kept is left to `link_plan`.
#![tactic(auto)]

mod keeping;
mod named;
mod roots;

pub use keeping::{KeptNodes, kept_nodes};
pub use named::name_meant;
