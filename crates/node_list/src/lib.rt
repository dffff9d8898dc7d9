//! A list of nodes, sorted by split keys, under stable place numbers; each call states its exact effect on the list.
//!
//! *Guarantee.* Split keys never fall along the list, and a new node comes after the nodes with an equal split key. A
//! node keeps its place until it is removed, whatever is inserted or removed elsewhere. An insertion with reserved
//! capacity takes no memory and succeeds. A search reads the nodes from its start up to the item that it finds or the
//! first node with a greater split key, and counts each.
//!
//! *Weakness.* A search and an insertion visit each node from their start to their goal. So a caller starts them close
//! to the goal: at the dummy of a bucket. A free place is used again. `next_item_at` reads each place without an item,
//! so a scan of all items reads each place that was ever used. It starts at the first-item bound, below which no place
//! has an item. A removal raises this bound by at most 64 places. So if items are removed in the order of places, each
//! is found at once. But if an item before a long gap is inserted and removed again and again, scans read that gap
//! each time.
//!
//! *Mechanism.* The nodes are linked in one direction by place numbers. A dummy takes 8 bytes: its split key without
//! the last bit, which is 0, and its link. An item takes 72 bytes in a slab: the same header, whose last bit is 1, its key
//! packed in 16 bytes, and its chain in 48. Dummies have the even places, and items the odd ones. A search that passes a
//! node reads its header, and compares keys only if split keys are equal. `next_item_at` reads the slab forward. Places of
//! the slab without an item form a *free list*: each leads to the next, the first is used next, and no place is returned
//! to the slab. When memory is reserved, new places join that list, all but the last. This one is *spare*: the slab has
//! memory for it, and gets it with its item, which is thus the first that is written there. So a refusal of memory changes
//! no node.
//!
//! *Limits.* A call that takes a place requires that a node of the list has it. So a caller must keep track of the
//! places of its nodes.
//!
//! *Words.* A split key is the number by which the list is sorted. The `term` of an item is its key in the table,
//! packed. The `chain` has the objects with this key: a single one in place, several in a block of memory.
#![tactic(auto)]

// The modules: the `list`, its `nodes`, and the `items` among them with the first-item bound (`first_item`). A node as it
// is removed and stored (`node`), its header (`packed`, `header`, `link`), and how a search reads it (`reader`). The
// operations `find`, `insert` and `unlink`. The objects of an item (`chain`), and the counter of visited nodes (`steps`).
mod chain;
mod find;
mod first_item;
mod header;
mod insert;
mod items;
mod link;
mod list;
mod node;
mod nodes;
mod packed;
mod reader;
mod steps;
mod unlink;

pub use chain::Chain;
pub use link::Link;
pub use list::{At, NodeList};
pub use steps::Steps;
