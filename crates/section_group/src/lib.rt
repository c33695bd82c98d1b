//! Output sections: which section each input section, common and synthetic section goes to, and in which order.
//! It takes the pieces of a link, in any order, with those that are live, and the given merges (/MERGE); it gives sections
//! with their names, flags and pieces to address assignment and to the writers.
//! Its contracts promise that the sections are the one grouping of the input: each live piece with bytes or a name stands
//! in exactly one section, the pieces ascend by their keys inside it, and the sections by theirs.
//! Addresses are left to `address_layout`, contents to the writers.
#![tactic(auto)]

mod bad_merge;
mod content;
mod cut;
mod gather;
mod grouping;
mod homes;
mod key;
mod laws;
mod order;
mod owners;
mod parts;
mod piece;
mod places;
mod renames;
mod sections;
mod targets;

pub use grouping::group;
pub use laws::one_grouping;
pub use piece::{GroupError, OutSection, Piece};
