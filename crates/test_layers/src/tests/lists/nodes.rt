//! Checks of one node list. Each inserts nodes into a new list, which has the head only, and then reads, searches or
//! changes the list.
ghost use Rattle.std.specs.Prelude.{◌≡◌, ◌+◌, ◌*◌, [], ◌∷◌, Some, IfOk};
ghost use Rattle.std.specs.Borrow.{sem};
ghost use Rattle.ets_term.specs.declared.term.Term.TheVariants.{Int};
ghost use Rattle.node_list.specs.Cells.{new_cell, new_item};
ghost use Rattle.node_list.specs.Places.{IsFresh, HasItem, IsPlaceOf};
ghost use Rattle.node_list.specs.Changes.{put_cell};

use self::order::{SPLIT_ORDER, finds_equal_keys, has_many_nodes, has_split_order};
use self::places::{PLACE_OF_SECOND, PLACES_OF_FIVE, finds_places, skips_unlinked_items};
use super::chains::{are_numbers, pops_number};
use ets_term::{Integer, Term};
use node_list::{At, Chain, NodeList, Steps};
use packed_term::{Object, Packed};
use std::alloc::{AllocError, Global};

// The order of nodes.
mod order;
// Items found by their places.
mod places;

/// Searches from the head for the item with a split key and a term. Returns its place, and how many nodes the search
/// visits, which `Steps` counts.
fn search(list: &NodeList, key: u64, term: &Term) -> (Option<At>, u64) {
    let mut steps = Steps::new();
    let head = list.head();
    let found = list.find(head, key, term, &mut steps);
    (found, steps.count())
}

/// Searches as `search` does, for a term that it then drops.
fn search_for(list: &NodeList, key: u64, term: Term) -> (Option<At>, u64) {
    let found = search(list, key, &term);
    drop(term);
    found
}

/// Returns how many nodes a search for a missing item visits: those up to its split key, and the next one. No item has
/// the term `Pid(0)`.
fn count_visited(list: &NodeList, key: u64) -> u64 {
    search_for(list, key, Term::Pid(0)).1
}

/// Inserts a dummy with this split key, without its last bit. Returns its place.
fn add_dummy(list: &mut NodeList, reversed: u32) -> Result<At, AllocError> {
    let head = list.head();
    list.insert_dummy(head, reversed)
}

/// Inserts an item with this split key, without its last bit. Its term and its only object are `number`. Returns its
/// place.
fn add_item(
    list: &mut NodeList,
    alloc: Global,
    reversed: u32,
    number: i64,
) -> Result<At, AllocError>
    ensures cells { IfOk result (λ at. list.new.cells
        ≡ put_cell (new_cell at (2 * reversed + 1) (Some (new_item (Int number) (Int number ∷ [])))) list.old.cells) }
    ensures fresh { IfOk result (λ at. IsFresh at list.old.cells) }
{
    list.reserve(1)?;
    let head = list.head();
    let chain = Chain::one(alloc, Object::from(number));
    Ok(list.insert_item(head, reversed, Packed::from(number), chain))
}

/// How many nodes a search visits.
#[derive(Clone, Copy)]
struct Visits(u64);

/// Returns the first split key for which a search does not visit the wanted number of nodes. None means that all
/// searches do.
fn first_visits_mismatch(list: &NodeList, wanted: &[(u64, Visits)]) -> Option<u64> {
    for (key, nodes) in wanted {
        if count_visited(list, *key) != nodes.0 {
            return Some(*key);
        }
    }
    None
}

/// Returns the place after the head.
fn second_place(list: &NodeList) -> Option<At> {
    list.after(list.head())
}

/// Returns whether the node at a place is an item with this number as its term and as its chain.
fn is_item(list: &NodeList, at: At, number: i64) -> bool
    requires { IsPlaceOf at list.now.cells }
{
    match list.item(at) {
        Some((term, chain)) => {
            term.as_integer() == Some(Integer::from(number))
                && are_numbers(chain.as_slice(), &[number])
        }
        None => false,
    }
}

/// Returns whether the head has the split key 0 and no item.
fn has_head(list: &NodeList) -> bool {
    let head = list.head();
    list.split_key(head) == 0 && list.item(head).is_none()
}

/// Inserts an item of split key 5 and number 1. Returns whether it is read at its place, with its split key.
fn reads_item(list: &mut NodeList, alloc: Global) -> Result<bool, AllocError> {
    let at = add_item(list, alloc, 2, 1)?;
    list.reveal_invariant();
    Ok(list.split_key(at) == 5 && is_item(list, at, 1) && has_head(list))
}

/// Pushes 2 and 3 to the chain of 1. Returns whether 3 is popped, and 1 and 2 remain.
fn pushes_and_pops(chain: &mut Chain) -> Result<bool, AllocError> {
    chain.push(Object::from(2))?;
    chain.push(Object::from(3))?;
    Ok(pops_number(chain, 3) && are_numbers(chain.as_slice(), &[1, 2]))
}

/// Inserts an item. Returns whether terms can be pushed to its chain and popped.
fn changes_chain(list: &mut NodeList, alloc: Global) -> Result<bool, AllocError> {
    let at = add_item(list, alloc, 2, 1)?;
    pushes_and_pops(list.chain_mut(at))
}

/// Unlinks the item at a place. Returns whether it had this number as its term and as its chain.
fn unlinks(list: &mut NodeList, at: At, number: i64) -> bool
    requires { HasItem at list.old.cells }
{
    let head = list.head();
    let (term, chain) = list.unlink(head, at);
    let same = term.as_integer() == Some(Integer::from(number))
        && are_numbers(chain.as_slice(), &[number]);
    drop(term);
    drop(chain);
    same
}

/// Returns whether searches visit the wanted numbers of nodes, and the list has two nodes: the head and a dummy.
fn has_two_nodes(list: &NodeList, wanted: &[(u64, Visits)]) -> bool {
    first_visits_mismatch(list, wanted) == None && list.len() == 2
}

/// Inserts a dummy and item 1, and unlinks item 1. Returns whether only the head and the dummy remain, and the next
/// item gets the same place.
fn unlinks_item(
    list: &mut NodeList,
    alloc: Global,
    wanted: &[(u64, Visits)],
) -> Result<bool, AllocError> {
    add_dummy(list, 4)?;
    let at = add_item(list, alloc, 2, 1)?;
    let unlinked = unlinks(list, at, 1) && has_two_nodes(list, wanted);
    Ok(add_item(list, alloc, 4, 1)? == at && unlinked)
}

/// Inserts the items 1 and 2, and unlinks item 1, so that only the second place of an item has one. Returns whether item 1 was
/// unlinked.
fn unlinks_first_of_two(list: &mut NodeList, alloc: Global) -> Result<bool, AllocError> {
    let first = add_item(list, alloc, 4, 1)?;
    add_item(list, alloc, 2, 2)?;
    Ok(unlinks(list, first, 1))
}

/// Inserts a dummy and item 3, and unlinks the item. Returns whether item 3 was unlinked.
fn adds_and_unlinks(list: &mut NodeList, alloc: Global) -> Result<bool, AllocError> {
    add_dummy(list, 3)?;
    let last = add_item(list, alloc, 3, 3)?;
    Ok(unlinks(list, last, 3))
}

/// Returns whether a list of the head and then a dummy has no item at any place, and a refused `reserve` changes
/// nothing.
fn holds_only_dummies(list: &mut NodeList) -> Result<bool, AllocError> {
    let head_is_not_an_item = list.next_item_at(0) == None;
    add_dummy(list, 4)?;
    let dummy_is_not_an_item = list.next_item_at(0) == None && list.next_item_at(2) == None;
    let is_refused = list.reserve(usize::MAX).is_err();
    Ok(
        head_is_not_an_item
            && dummy_is_not_an_item
            && is_refused
            && count_visited(list, 4) == 2
            && count_visited(list, 8) == 2
            && list.len() == 2,
    )
}

/// Returns whether capacity for more and more nodes can be reserved, and the list then still has only the head.
fn reserves_much_capacity(list: &mut NodeList) -> Result<bool, AllocError> {
    list.reserve(5_000)?;
    list.reserve(100_000)?;
    Ok(list.len() == 1)
}

/// Each row is a split key below or above that of an unlinked item, and how many nodes a search for it visits.
const UNLINKED: [(u64, Visits); 2] = [(4, Visits(2)), (8, Visits(2))];

/// What a test checks on a new list.
#[derive(Clone, Copy)]
pub enum Check {
    /// Dummies and an item that are inserted out of order.
    SplitOrder,
    /// Two items of one split key.
    EqualKeys,
    /// An item that is read at its place.
    ReadItem,
    /// Terms that are pushed to the chain of an item, and popped.
    ChangedChain,
    /// An item that is unlinked, and whose place another item gets.
    UnlinkedItem,
    /// Items that are found by their places.
    PlacesOfItems,
    /// Places whose items are unlinked.
    PlacesOfUnlinked,
    /// Dummies without items.
    OnlyDummies,
    /// More than 2,000 nodes, in order.
    ManyNodes,
    /// Capacity for many nodes.
    MuchCapacity,
}

/// Returns whether a list of the head alone passes a check.
fn list_passes(list: &mut NodeList, alloc: Global, check: Check) -> Result<bool, AllocError> {
    match check {
        Check::SplitOrder => has_split_order(list, alloc, &SPLIT_ORDER),
        Check::EqualKeys => finds_equal_keys(list, alloc),
        Check::ReadItem => reads_item(list, alloc),
        Check::ChangedChain => changes_chain(list, alloc),
        Check::UnlinkedItem => unlinks_item(list, alloc, &UNLINKED),
        Check::PlacesOfItems => finds_places(list, alloc, &PLACES_OF_FIVE),
        Check::PlacesOfUnlinked => skips_unlinked_items(list, alloc, &PLACE_OF_SECOND),
        Check::OnlyDummies => holds_only_dummies(list),
        Check::ManyNodes => has_many_nodes(list, alloc),
        Check::MuchCapacity => reserves_much_capacity(list),
    }
}

/// Builds a list, and returns whether it passes a check.
pub fn new_list_passes(alloc: Global, check: Check) -> Result<bool, AllocError> {
    let mut list = NodeList::new(alloc)?;
    let passed = list_passes(&mut list, alloc, check);
    drop(list);
    passed
}
