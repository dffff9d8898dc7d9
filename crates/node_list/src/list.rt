//! The list of nodes, with its public operations. A node is an item (a key with its objects) or a dummy (the first node
//! of a bucket). Contracts see the nodes in their order, as *cells*. The objects of an item are its *chain*.
ghost use Rattle.std.specs.Prelude.{◌≡◌, ℕ, ◌+◌, ◌*◌, ◌-◌, ◌^◌, ◌<◌, ◌≤◌, Some, None, [], ◌∷◌, length, IfOk, OnOk, OnErr, IsOk, MatchOption, option_map};
ghost use Rattle.std.specs.Borrow.{sem};

use crate::chain::Chain;
use crate::find::find_from;
use crate::insert::{insert_dummy_from, insert_item_from};
use crate::link::Link;
use crate::node::{Item, ListNode};
use crate::nodes::Nodes;
use crate::reader::CountingReader;
use crate::steps::Steps;
use crate::unlink::{delete_from, unlink_from};
use ets_term::Term;
use packed_term::Packed;
use std::alloc::{AllocError, Global};
use std::marker::Model;

/// The place of a node: its number. The node keeps it until the node is removed.
pub type At = usize;

/// The place of the first node of every list.
const HEAD: At = 0;

/// A list of nodes, sorted by split keys. A contract sees its `cells`, the nodes from first to last, and its
/// `capacity`: how many nodes fit without allocation.
#[derive(Drop)]
pub struct NodeList {
    nodes: Nodes,
}

// The value that contracts see of this type (`view`), and what is true of its fields between calls (`invariant`).
impl Model for NodeList {
    ghost use Rattle.std.specs.Prelude.{Some};
    ghost use Rattle.node_list.specs.ListState.{ListState, list_state_code};

    ghost Value = { ListState };

    ghost coded = { list_state_code };

    ghost use Rattle.node_list.specs.inside.Walks.{cells_from, ListInvariant};

    ghost view = { λ s. record { cells = cells_from s.nodes (Some 0); capacity = s.nodes.capacity } };

    ghost invariant = { λ s. ListInvariant s.nodes };
}

impl NodeList {
    ghost use Rattle.node_list.specs.Cells.{new_cell, new_item, Sorted, StartsWithDummy};
    ghost use Rattle.node_list.specs.Places.{first_place, HasDistinctPlaces, from, cells_after, item_at, split_key_at, place_after, IsFresh, IsPlaceOf, HasSplitKeyAtMost, HasItem, IsNextItem};
    ghost use Rattle.node_list.specs.Search.{place_of, visited_cells};
    ghost use Rattle.node_list.specs.Changes.{put_cell, without};
    ghost use Rattle.node_list.specs.ListState.{HasRoom};
    ghost use Rattle.node_list.specs.Lending.{LendsChainAt};
    ghost use Rattle.node_list.specs.Ticks.{ticks};

    /// Creates a list of one node, the dummy with split key 0.
    pub fn new(alloc: Global) -> Result<NodeList, AllocError>
        ensures { IfOk result (λ l. l.cells ≡ new_cell 0 0 None ∷ []) }
    {
        let mut nodes = Nodes::new(alloc);
        // The first dummy has the place 0, so it is at `HEAD`.
        let _head = nodes.push_dummy(0, Link::none())?;
        Ok(NodeList { nodes })
    }

    /// Returns the place of the first node, the dummy with split key 0. The contract also says that the list is sorted
    /// and that no place occurs twice.
    #[inline]
    pub fn head(&self) -> At
        ensures first { first_place self.now.cells ≡ Some result }
        ensures place { result < 2 ^ 32 - 1 }
        ensures dummy { StartsWithDummy self.now.cells }
        ensures sorted { Sorted self.now.cells }
        ensures apart { HasDistinctPlaces self.now.cells }
    {
        // The borrow gives the proof the invariant of the nodes.
        let _nodes = &self.nodes;
        HEAD
    }

    /// Gives a proof the invariant of every list. It does nothing at run time.
    #[inline]
    pub fn reveal_invariant(&self)
        ensures dummy { StartsWithDummy self.now.cells }
        ensures sorted { Sorted self.now.cells }
        ensures apart { HasDistinctPlaces self.now.cells }
        ensures few { length self.now.cells < 2 ^ 32 - 1 }
        ensures places { (at : ℕ) → IsPlaceOf at self.now.cells → at < 2 ^ 32 - 1 }
    {
        // These calls change nothing. Their contracts give the proof the invariant.
        let _head = self.head();
        let _len = self.len();
        self.nodes.reveal_invariant();
    }

    /// Returns the number of nodes: dummies and items.
    #[inline]
    pub fn len(&self) -> usize
        ensures value { result ≡ length self.now.cells }
        ensures few { result < 2 ^ 32 - 1 }
    {
        self.nodes.len()
    }

    /// Reserves capacity for `additional` insertions, which then take no memory. If memory is refused, returns an
    /// error, and no node changes.
    pub fn reserve(&mut self, additional: usize) -> Result<(), AllocError>
        ensures room { OnOk result (HasRoom self.new additional) }
        ensures cells { self.new.cells ≡ self.old.cells }
        ensures capacity { self.old.capacity ≤ self.new.capacity }
        ensures succeeds { HasRoom self.old additional → IsOk result }
    {
        self.nodes.reserve(additional)
    }

    /// Inserts a dummy after all nodes whose split keys are at most its own, and returns its place. `reversed` is its
    /// split key without the last bit, which is 0. `start` must be the place of a node whose split key is at most the
    /// dummy's. If memory is refused, returns an error and changes nothing.
    pub fn insert_dummy(&mut self, start: At, reversed: u32) -> Result<At, AllocError>
        requires start { HasSplitKeyAtMost (2 * reversed) start self.old.cells }
        ensures cells { IfOk result (λ at. self.new.cells ≡ put_cell (new_cell at (2 * reversed) None) self.old.cells) }
        ensures fresh { IfOk result (λ at. IsFresh at self.old.cells) }
        ensures place { IfOk result (λ at. at < 2 ^ 32 - 1) }
        ensures len { OnOk result (length self.new.cells ≡ length self.old.cells + 1) }
        ensures capacity { OnOk result (self.new.capacity ≡ self.old.capacity + 1) }
        ensures err { OnErr result (self.new ≡ self.old) }
    {
        let at = insert_dummy_from(&mut self.nodes, start, reversed)?;
        Ok(at)
    }

    /// Inserts an item after all nodes whose split keys are at most its own, and returns its place. `reversed` is its
    /// split key without the last bit, which is 1. `term` is the item's key, packed, and `start` must be the place of a
    /// node whose split key is at most the item's. Capacity for the item must be reserved.
    #[inline(always)]
    pub fn insert_item(&mut self, start: At, reversed: u32, term: Packed, chain: Chain) -> At
        requires room { HasRoom self.old 1 }
        requires start { HasSplitKeyAtMost (2 * reversed + 1) start self.old.cells }
        ensures cells { self.new.cells
            ≡ put_cell (new_cell result (2 * reversed + 1) (Some (new_item term chain))) self.old.cells }
        ensures fresh { IsFresh result self.old.cells }
        ensures place { result < 2 ^ 32 - 1 }
        ensures len { length self.new.cells ≡ length self.old.cells + 1 }
        ensures capacity { self.new.capacity ≡ self.old.capacity }
    {
        insert_item_from(&mut self.nodes, start, reversed, Item { term, chain })
    }

    /// Returns the place of the first item from `start` on with this split key and the key `term`, or `None` if no item
    /// has both. Adds the number of nodes that it reads to `steps`. It reads up to the item found or the first node
    /// with a greater split key, or else to the end.
    #[inline(always)]
    pub fn find(&self, start: At, split_key: u64, term: &Term, steps: &mut Steps) -> Option<At>
        requires { IsPlaceOf start self.now.cells }
        ensures found { result ≡ place_of split_key term.now (from start self.now.cells) }
        ensures ticks { steps.new
            ≡ ticks (length (visited_cells split_key term.now (from start self.now.cells))) steps.old }
    {
        let nodes = CountingReader::new(&self.nodes);
        find_from(nodes, start, split_key, term, steps)
    }

    /// Removes the item at `at` and returns its key and chain. `start` must be the place of a node before the item.
    pub fn unlink(&mut self, start: At, at: At) -> (Packed, Chain)
        requires { HasItem at (cells_after start self.old.cells) }
        ensures item { item_at at self.old.cells ≡ Some (new_item result.0 result.1) }
        ensures cells { self.new.cells ≡ without at self.old.cells }
        ensures len { length self.new.cells + 1 ≡ length self.old.cells }
        ensures capacity { self.new.capacity ≡ self.old.capacity }
    {
        let ListNode {
            split_key: _,
            next: _,
            item,
        } = unlink_from(&mut self.nodes, start, at);
        match item {
            Some(Item { term, chain }) => (term, chain),
            // A dummy has no item, but the node at `at` is an item.
            None => unreachable!(),
        }
    }

    /// Removes the item at `at`, drops it without moving it and returns the number of terms in its chain. `start` must
    /// be the place of a node before the item.
    pub fn delete_item(&mut self, start: At, at: At) -> usize
        requires { HasItem at (cells_after start self.old.cells) }
        ensures count { option_map (λ item. length item.chain) (item_at at self.old.cells) ≡ Some result }
        ensures cells { self.new.cells ≡ without at self.old.cells }
        ensures len { length self.new.cells + 1 ≡ length self.old.cells }
        ensures capacity { self.new.capacity ≡ self.old.capacity }
    {
        delete_from(&mut self.nodes, start, at)
    }

    /// Returns the place of the node after the node at `at`, or `None` if that node is the last.
    pub fn after(&self, at: At) -> Option<At>
        requires { IsPlaceOf at self.now.cells }
        ensures { result ≡ place_after at self.now.cells }
    {
        self.nodes.header(at).next.get()
    }

    /// Returns the split key of the node at a place.
    pub fn split_key(&self, at: At) -> u64
        requires { IsPlaceOf at self.now.cells }
        ensures { split_key_at at self.now.cells ≡ Some result }
    {
        self.nodes.header(at).split_key
    }

    /// Returns the key (a term) and the chain of the item at a place, or `None` for a dummy.
    #[inline]
    pub fn item(&self, at: At) -> Option<(&Packed, &Chain)>
        requires { IsPlaceOf at self.now.cells }
        ensures { MatchOption result (item_at at self.now.cells ≡ None)
            (λ found. item_at at self.now.cells ≡ Some (new_item found.0.now found.1.now)) }
    {
        match self.nodes.item(at) {
            Some(item) => Some((&item.term, &item.chain)),
            None => None,
        }
    }

    /// Returns the first place at or after `start` that has an item, or `None` if no such place exists. The order is
    /// that of places, not of split keys.
    #[inline]
    pub fn next_item_at(&self, start: At) -> Option<At>
        ensures { IsNextItem start result self.now.cells }
    {
        self.nodes.next_item_at(start)
    }

    /// Borrows the chain of the item at a place for a change.
    // `lends`: when the borrow ends, the item has the chain that the borrower wrote, and the rest is as before.
    pub fn chain_mut(&mut self, at: At) -> &mut Chain
        requires { HasItem at self.old.cells }
        ensures* lends { sem 𝓛 (LendsChainAt at self.entry result) }
        ensures value { option_map (λ item. item.chain) (item_at at self.old.cells) ≡ Some result.now }
    {
        self.nodes.chain_mut(at)
    }
}
