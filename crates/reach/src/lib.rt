//! Live marking of pieces, as garbage collection of sections wants it: which pieces are kept, where some are roots and
//! some lead to others. It takes pieces by their numbers, the edges among them and the roots, and tells the crate that
//! plans which pieces to lay out. Its contract promises that a piece is kept exactly where a path of edges comes to it
//! from a root. Which pieces are roots, and what leads to what, is left to others.
#![tactic(auto)]

mod graph;
mod live;
mod marking;
mod rows;

pub use graph::Graph;
pub use live::kept;
