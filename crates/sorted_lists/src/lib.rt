//! Lists in order, for the crates whose tables stand sorted: the list that has the items of another, each as often, and in
//! which none comes before the one before it. It has the definition and its lemmas for those who sort, and no code. Its law
//! says that the list is the only one where items that tie are one. By which keys items compare is left to others.
#![tactic(auto)]

mod laws;

pub use laws::one_sorted_list;
