//! The order of nodes, in short and long lists: by split key, and of equal split keys by insertion.
use super::{
    Visits, add_dummy, add_item, count_visited, first_visits_mismatch, search_for, second_place,
};
use ets_term::Term;
use node_list::{At, NodeList};
use std::alloc::{AllocError, Global};

/// The split key of the dummy of bucket 0, which is the head.
const DUMMY_0: u64 = 0;

/// The split key of the dummy of bucket 1.
const DUMMY_1: u64 = 4_294_967_296;

/// The split key of the dummy of bucket 2.
const DUMMY_2: u64 = 2_147_483_648;

/// The split key of the dummy of bucket 3.
const DUMMY_3: u64 = 6_442_450_944;

/// The split key of an item of hash 3.
const ITEM_OF_HASH_3: u64 = 6_442_450_945;

/// Inserts the dummies of the buckets 1 to 3, and an item of hash 3, after the dummy of bucket 0.
fn add_in_split_order(list: &mut NodeList, alloc: Global) -> Result<(), AllocError> {
    add_dummy(list, (DUMMY_1 / 2) as u32)?;
    add_item(list, alloc, (ITEM_OF_HASH_3 / 2) as u32, 3)?;
    add_dummy(list, (DUMMY_2 / 2) as u32)?;
    add_dummy(list, (DUMMY_3 / 2) as u32)?;
    Ok(())
}

/// Each row is a split key, in ascending order, and how many nodes a search for it visits: those up to the split key,
/// and the next one. No node follows the last.
pub(super) const SPLIT_ORDER: [(u64, Visits); 5] = [
    (DUMMY_0, Visits(2)),
    (DUMMY_2, Visits(3)),
    (DUMMY_1, Visits(4)),
    (DUMMY_3, Visits(5)),
    (ITEM_OF_HASH_3, Visits(5)),
];

/// Inserts three dummies and an item. Returns whether searches visit the wanted numbers of nodes, so that the five
/// nodes are sorted by their split keys.
pub(super) fn has_split_order(
    list: &mut NodeList,
    alloc: Global,
    wanted: &[(u64, Visits)],
) -> Result<bool, AllocError> {
    add_in_split_order(list, alloc)?;
    Ok(first_visits_mismatch(list, wanted) == None && list.len() == 5)
}

/// Inserts two items of split key 5 and one of split key 7. Returns the places of the first two.
fn add_equal_keys(list: &mut NodeList, alloc: Global) -> Result<(At, At), AllocError> {
    let first = add_item(list, alloc, 2, 1)?;
    let second = add_item(list, alloc, 2, 2)?;
    add_item(list, alloc, 3, 1)?;
    Ok((first, second))
}

/// Returns whether two items of one split key are in the order of insertion, and searches for items visit 3 or all 4
/// nodes of the list. The head is one of them.
pub(super) fn finds_equal_keys(list: &mut NodeList, alloc: Global) -> Result<bool, AllocError> {
    let (first, second) = add_equal_keys(list, alloc)?;
    Ok(
        second_place(list) == Some(first)
            && search_for(list, 5, Term::Int(2)) == (Some(second), 3)
            && search_for(list, 5, Term::Int(3)) == (None, 4)
            && search_for(list, 9, Term::Int(1)) == (None, 4),
    )
}

/// How many nodes a long list has, the head included: enough for its memory to grow many times.
const NODES: u32 = 2_100;

/// The greatest number of an item of a long list. The item with the number N has the split key 2N + 1.
const LAST: u32 = 2_099;

/// Inserts the items from `LAST` down to 1, each after the head.
fn add_many_nodes(list: &mut NodeList, alloc: Global) -> Result<(), AllocError> {
    for number in 1..NODES {
        add_item(list, alloc, NODES - number, 1)?;
    }
    Ok(())
}

/// Returns whether the nodes of a long list are in the order of their split keys. A search for item `number` visits the
/// head and the items up to it, and the next one if there is one.
fn has_keys_in_order(list: &NodeList) -> bool {
    for number in 0..LAST {
        let number = u64::from(number);
        if count_visited(list, 2 * number + 1) != number + 2 {
            return false;
        }
    }
    count_visited(list, 2 * u64::from(LAST) + 1) == u64::from(NODES)
}

/// Returns whether a list of `NODES` nodes has them in order.
pub(super) fn has_many_nodes(list: &mut NodeList, alloc: Global) -> Result<bool, AllocError> {
    add_many_nodes(list, alloc)?;
    Ok(list.len() == NODES as usize && has_keys_in_order(list))
}
