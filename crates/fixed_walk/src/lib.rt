//! Tables with fixes: while a process fixes a table, deleted keys keep their slots, and traversals are exact.
//!
//! A slot without objects is a tombstone of a deleted key. Public names call it *held*.
//!
//! *Guarantee.* A contract sees the table's content, which buckets of its rows are ready, and the number of fixes of
//! each process. There are tombstones only while a process fixes the table. If the table is fixed before and after a
//! call, the call keeps all keys that have slots, and their order. So a traversal by `first` and `next`
//! returns no key twice, and each key that has objects at each of its calls, however the table changes and grows.
//!
//! *Mechanism.* The calls on objects are those of `Table`; they leave tombstones if the table is fixed. A map has the
//! number of fixes of each process that has some; the first fix of a table makes it. A traversal remembers only the
//! last key, and continues after its slot in the order of places.
//!
//! *Weakness.* Each call of a traversal visits the tombstones before its result, and over `SplitRows` reads the places
//! without a slot too. The last release removes all tombstones with `Rows::purge`, and takes as long as this does.
//!
//! *Limits.* A process has at most 4,294,967,295 fixes of a table. A traversal need not end: other processes may
//! insert keys ahead of it without limit.
#![tactic(auto)]

// The modules: a table with its fixes (`walked`), the counts of `fixes`, the box of these counts, which the first fix
// makes (`lazy_fixes`), faults (`fault`) and `laws`.
mod fault;
mod fixes;
pub mod laws;
mod lazy_fixes;
mod walked;

pub use fault::{Badarg, FixFault};
pub use walked::Walked;
