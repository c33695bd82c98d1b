//! Tests of the crates that write maps, PDBs and resources. Each compares public calls with values from outside. It serves no
//! other crate.
#![tactic(auto)]

#[cfg(test)]
mod tests;
