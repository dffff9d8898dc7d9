//! The first-item bound, an index below which there is no item: a scan of all items starts there. An item that is
//! inserted below the bound lowers it. A removal may raise it, by a short scan.
ghost use Rattle.std.specs.Prelude.{◌≡◌, is_some};
ghost use Rattle.slab.specs.Slab.{get};
ghost use Rattle.node_list.specs.inside.FreeList.{HasNoItemBetween, live_node};

use crate::node::StoredItem;
use slab::Slab;

/// The greatest number of places that one removal scans for the next item, so that no removal takes long. Any number
/// gives correct results.
const MAX_SCAN: usize = 64;

/// Returns the first-item bound after a removal: the first place with an item at or after `first_item_bound`, the bound
/// before it. The scan ends after `MAX_SCAN` places or at the place `end`. If it finds no item, the bound is the place
/// where it ends.
pub fn bound_after_remove(nodes: &Slab<StoredItem>, first_item_bound: usize, end: usize) -> usize
    ensures { HasNoItemBetween first_item_bound result nodes.now }
{
    // The place where the scan ends.
    let end = first_item_bound.saturating_add(MAX_SCAN).min(end);
    for at in first_item_bound..end {
        if has_item(nodes, at) {
            return at;
        }
    }
    end
}

/// Checks whether the place has an item. A free place and a place past the end have none.
#[inline(always)]
pub fn has_item(nodes: &Slab<StoredItem>, at: usize) -> bool
    ensures { result ≡ is_some (live_node (get nodes.now at)) }
{
    match nodes.get(at) {
        Some(stored) => !stored.header.is_free(),
        None => false,
    }
}
