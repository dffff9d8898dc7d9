//! Node lists, the sorted lists of a table's items (keys with their objects) and dummies (the starts of buckets). Each
//! check runs on a new list.
use self::nodes::{Check, new_list_passes};
use std::process::Abort;

// Chains: the objects of one key.
mod chains;
// Links: the place of the next node, in one word.
mod links;
// Checks of one node list.
mod nodes;

/// Checks that nodes are sorted by their split keys, and items of one split key by their insertion.
#[test]
fn nodes_are_in_split_order(rt: HostRuntime) {
    assert!(rt; new_list_passes(rt.alloc(), Check::SplitOrder) == Ok(true));
    assert!(rt; new_list_passes(rt.alloc(), Check::EqualKeys) == Ok(true));
}

/// Checks that an item is read at its place, its objects can be changed, and it can be unlinked.
#[test]
fn items_are_read_changed_and_unlinked(rt: HostRuntime) {
    assert!(rt; new_list_passes(rt.alloc(), Check::ReadItem) == Ok(true));
    assert!(rt; new_list_passes(rt.alloc(), Check::ChangedChain) == Ok(true));
    assert!(rt; new_list_passes(rt.alloc(), Check::UnlinkedItem) == Ok(true));
}

/// Checks `next_item_at`, which finds the first item at or after a place.
#[test]
fn items_are_found_by_their_places(rt: HostRuntime) {
    assert!(rt; new_list_passes(rt.alloc(), Check::PlacesOfItems) == Ok(true));
    assert!(rt; new_list_passes(rt.alloc(), Check::PlacesOfUnlinked) == Ok(true));
    assert!(rt; new_list_passes(rt.alloc(), Check::OnlyDummies) == Ok(true));
}

#[test]
fn lists_hold_many_nodes(rt: HostRuntime) {
    assert!(rt; new_list_passes(rt.alloc(), Check::ManyNodes) == Ok(true));
    assert!(rt; new_list_passes(rt.alloc(), Check::MuchCapacity) == Ok(true));
}
