//! Items found by their places, with `next_item_at`: the first item at or after a place.
use super::{add_dummy, add_item, adds_and_unlinks, unlinks_first_of_two};
use node_list::{At, NodeList};
use std::alloc::{AllocError, Global};

/// Returns the first place for which `next_item_at` does not return the wanted place. The index in `wanted` is the
/// place.
fn first_place_mismatch(list: &NodeList, wanted: &[Option<At>]) -> Option<usize> {
    for (start, wanted_place) in wanted.iter().enumerate() {
        if list.next_item_at(start) != *wanted_place {
            return Some(start);
        }
    }
    None
}

/// Inserts a dummy, two items, a dummy and an item. The dummies get the places 2 and 4, and the items 1, 3 and 5,
/// whatever their keys.
fn add_five_nodes(list: &mut NodeList, alloc: Global) -> Result<(), AllocError> {
    add_dummy(list, 4)?;
    add_item(list, alloc, 4, 1)?;
    add_item(list, alloc, 2, 2)?;
    add_dummy(list, 2)?;
    add_item(list, alloc, 3, 3)?;
    Ok(())
}

/// The place of the first item that `add_five_nodes` inserts.
const FIRST_ITEM: Option<At> = Some(1);

/// The place of the second item that `add_five_nodes` inserts.
const SECOND_ITEM: Option<At> = Some(3);

/// The place of the third item that `add_five_nodes` inserts.
const THIRD_ITEM: Option<At> = Some(5);

/// What `next_item_at` returns from the places 0 to 6 after `add_five_nodes`: the head, an item, a dummy, an item, a
/// dummy, an item, and past the end.
pub(super) const PLACES_OF_FIVE: [Option<At>; 7] = [
    FIRST_ITEM,
    FIRST_ITEM,
    SECOND_ITEM,
    SECOND_ITEM,
    THIRD_ITEM,
    THIRD_ITEM,
    None,
];

/// Inserts five nodes. Returns whether `next_item_at` finds the wanted items, and nothing from a place past the end.
pub(super) fn finds_places(
    list: &mut NodeList,
    alloc: Global,
    wanted: &[Option<At>],
) -> Result<bool, AllocError> {
    add_five_nodes(list, alloc)?;
    Ok(first_place_mismatch(list, wanted) == None && list.next_item_at(usize::MAX) == None)
}

/// The place of the only item that `unlinks_first_of_two` leaves.
const ONLY_ITEM: Option<At> = Some(3);

/// What `next_item_at` returns from the places 0 to 6, if only the place 3 has an item: the second that
/// `unlinks_first_of_two` inserts.
pub(super) const PLACE_OF_SECOND: [Option<At>; 7] = [
    ONLY_ITEM, ONLY_ITEM, ONLY_ITEM, ONLY_ITEM, None, None, None,
];

/// Returns whether `next_item_at` skips the places of unlinked items, also after a dummy is inserted.
pub(super) fn skips_unlinked_items(
    list: &mut NodeList,
    alloc: Global,
    wanted: &[Option<At>],
) -> Result<bool, AllocError> {
    let skips = unlinks_first_of_two(list, alloc)? && first_place_mismatch(list, wanted) == None;
    Ok(adds_and_unlinks(list, alloc)? && skips && first_place_mismatch(list, wanted) == None)
}
