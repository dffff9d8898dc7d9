//! Tests of the layers below a table: terms and their text, split keys, node lists, counters, fixes and traversals.
//!
//! They are a crate of their own because a crate with tests is proved twice, with them and without.
#![tactic(auto)]

#[cfg(test)]
mod tests;
