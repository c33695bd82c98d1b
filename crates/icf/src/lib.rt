//! Identical COMDAT folding (ICF): which functions are equal. It takes the pieces of a link, what their relocations mean, and
//! the candidates, each with its associative children; it tells the crate that plans a link, for each candidate, the first
//! that it folds with, whose place it may have.
//! Its contract promises the greatest relation under which related candidates are alike: candidates with equal answers are
//! alike, and every other relation with that property lies inside. Which functions are candidates, and what becomes of a
//! folded one, is left to others.
#![tactic(auto)]

mod candidate;
mod contents;
mod field;
mod fields;
mod first_equal;
mod folding;
mod owners;
mod rounds;

pub use candidate::FoldCandidate;
pub use folding::fold;
