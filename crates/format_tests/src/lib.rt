//! Tests of calls that no link of the whole program reaches: files of the system that fail, and the imports and exports of a mapped
//! image. Each compares public calls with values from outside. It serves no other crate.
#![tactic(auto)]

#[cfg(test)]
mod tests;
