//! Rows: slots (a key with its objects) with distinct keys, in hash buckets or in insertion order. The contract of each
//! call states its exact effect on the slots.
//!
//! *Guarantee.* No call reorders the slots that remain, and growth changes no slot. A call that runs out of memory
//! changes no slot. In a ready bucket of n keys, tombstones included, a search visits at most n + 2 nodes.
//!
//! *Weakness.* Keys of equal hashes share a bucket at every size, so a bad hasher makes searches long. `clear` visits
//! all nodes. So does `purge` after a `clear`, or if more slots became tombstones than the tombstone log had room for.
//! A traversal also reads free places and the places of dummies.
//!
//! *Mechanism.* `SplitRows` is a split-ordered list (Shalev and Shavit): one list of nodes, sorted by split keys. A
//! bucket is a part of the list that starts at a sentinel, its dummy. The directory has the place of each dummy.
//! The hints are a cache: for each *interval*, at most a quarter of a bucket, they give the place of its first item. A
//! hint may also say that the interval is empty, or be unknown. A search starts at a hint, or without one at the dummy
//! of the nearest ready bucket. That is the key's bucket or an ancestor of it. An insertion refreshes the hint of its
//! interval if that hint is unknown.
//!
//! A doubling moves no node. If it makes intervals half as wide, it keeps the old hints as previous hints, and each
//! insertion rehashes a few of them. An insertion also halves the intervals if they have more than two nodes on average.
//! So searches stay short while buckets wait to become ready.
//!
//! The directory is written when buckets become ready. The order of the slots is that of their places, and a traversal
//! reads the places forward. `PlainRows` keeps the slots in insertion order, in one bucket.
//!
//! A *tombstone* is a slot without objects: its key was deleted while the table is fixed. Public names call it
//! *held*.
//!
//! *Limits.* `SplitRows` has 2 to 1,048,576 buckets. A place that becomes free is used again.
#![tactic(auto)]

// The modules: the trait of `rows`, the results of a search (`entry`) and of a `growth`, a lent key (`key_ref`), and
// the two kinds of rows: `plain`, in insertion order, and `split`, in hash buckets.
mod entry;
mod growth;
mod key_ref;
mod plain;
mod rows;
mod split;

pub use entry::{Place, SlotEntry};
pub use growth::{Growth, MAX_BUCKETS, Readying};
pub use key_ref::KeyRef;
pub use plain::PlainRows;
pub use rows::Rows;
pub use split::SplitRows;
