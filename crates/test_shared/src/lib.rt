//! Tests of a node that threads share: of what no contract says about locks and threads.
//!
//! They have a crate of their own because a crate with tests is proved twice, with them and without.
#![tactic(auto)]

#[cfg(test)]
mod tests;
