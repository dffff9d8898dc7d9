//! A node with all its parts, as it is removed and as it is stored. It is an item (a key with its objects) or a dummy
//! (the first node of a bucket).
ghost use Rattle.std.specs.Prelude.{◌≡◌, true};
ghost use Rattle.node_list.specs.inside.PackedHeader.{Fits, is_free, next_in};

use crate::chain::Chain;
use crate::link::Link;
use crate::packed::PackedHeader;
use packed_term::Packed;
use std::alloc::Global;

/// An item: a key of the table with its objects. The field `term` is the key, and not an object. The objects are in the
/// field `chain`.
#[derive(Drop)]
pub struct Item {
    /// The key of the item, packed. It is a term, but not one of the objects.
    pub term: Packed,
    /// The objects with this key.
    pub chain: Chain,
}

/// An item as it is stored, in 72 bytes: its header, its key and its objects. A free place has a key and a chain that
/// nobody reads.
#[derive(Drop)]
pub struct StoredItem {
    /// The split key without its last bit, the link and the tag.
    pub header: PackedHeader,
    /// The key with its objects.
    pub item: Item,
}

impl StoredItem {
    /// Returns a free place, whose link leads to the next free place.
    #[inline(always)]
    pub fn free(alloc: Global, next: Link) -> StoredItem
        requires { Fits next }
        ensures next { next_in result.header ≡ next }
        ensures free { is_free result.header ≡ true }
    {
        StoredItem {
            header: PackedHeader::free(next),
            item: Item {
                term: Packed::from(0),
                chain: Chain::new(alloc),
            },
        }
    }
}

/// A list node as it is removed: its split key, the link to the next node, and its item. A dummy has no item; it marks
/// the start of a bucket.
#[derive(Drop)]
pub struct ListNode {
    /// The number by which the list is sorted.
    pub split_key: u64,
    /// The place of the next node.
    pub next: Link,
    /// The key with its objects, or `None` for a dummy.
    pub item: Option<Item>,
}
