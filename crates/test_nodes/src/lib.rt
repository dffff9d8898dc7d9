//! Tests of `ownership::World` (processes and tables without calls) and of `node_core::Node` (the store). Most are
//! tables of rows: a call or a step, and the answer that the rules of docs/calls.md want.
//!
//! They have a crate of their own, since a crate with tests is proved twice, with them and without.
#![tactic(auto)]

#[cfg(test)]
mod tests;
