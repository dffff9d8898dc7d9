//! Tests of scripts: long scripts, each syntax fault of a line, and devices that are slow or fail.
//!
//! They have a crate of their own because a crate with tests is proved twice, with them and without.
#![tactic(auto)]

#[cfg(test)]
mod tests;
