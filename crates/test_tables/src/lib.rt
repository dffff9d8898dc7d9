//! Tests of plain rows, of split rows, and of tables over both: long runs compared with plain models, sizes past powers
//! of two, and calls that run out of memory.
//!
//! They are a crate of their own because a crate with tests is proved twice, with them and without.
#![tactic(auto)]

#[cfg(test)]
mod tests;
