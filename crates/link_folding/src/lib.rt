//! Which functions of a link fold (`/OPT:ICF`). It takes the pieces of a link with their fields, and what is kept of them;
//! `icf` tells which candidates are alike. It gives the crate that plans a link the piece at whose place each piece stands.
//! Its contract promises the places that the greatest folding gives. What becomes of a piece that stands at another's place is
//! left to others.
#![tactic(auto)]

mod candidates;
mod folded;

pub use folded::folded_places;
