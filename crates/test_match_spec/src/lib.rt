//! Tests of match specifications: rows of text, long and deep terms, and random terms compared with a plain reading of
//! the rules.
//!
//! They are a crate of their own because a crate with tests is proved twice, with them and without.
#![tactic(auto)]

#[cfg(test)]
mod tests;
