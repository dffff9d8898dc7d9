//! The header of a node, unpacked: all that a search reads of a node that it passes. `PackedHeader` is its form in
//! memory.
use crate::link::Link;

/// The header of a node: its split key and the link to the next node. A search reads only this of each node that it
/// passes; the items are in another array.
#[derive(Clone, Copy)]
pub struct NodeHeader {
    /// The number by which the list is sorted.
    pub split_key: u64,
    /// The place of the next node.
    pub next: Link,
}
