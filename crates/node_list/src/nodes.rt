//! The nodes of a list by place. A dummy (the first node of a bucket) is a header of 8 bytes, and an item a header with
//! a key and its objects. Dummies have the even places, and items the odd ones.
ghost use Rattle.std.specs.Prelude.{◌≡◌, ℕ, ◌+◌, ◌<◌, ◌≤◌, ◌-◌, ◌^◌, [], Some, None, IsOk, OnOk, OnErr, IfOk, option_copied};
ghost use Rattle.std.specs.Borrow.{sem};
ghost use Rattle.slab.specs.Slab.{get, slab_len, ContainsKey, HasRoomFor, SameValues, Updates};
ghost use Rattle.node_list.specs.inside.FreeList.{item_node};
ghost use Rattle.node_list.specs.inside.Slots.{HasHeader, HasChain, HasChainLength, HasItemOrNone, ChangesLink, HasItemIn, IsNextItemIn};
ghost use Rattle.node_list.specs.inside.PackedHeader.{Fits};
ghost use Rattle.node_list.specs.inside.NodeLending.{LendsChainIn};
ghost use Rattle.node_list.specs.inside.Woven.{dummy_node};

use crate::chain::Chain;
use crate::header::NodeHeader;
use crate::items::Items;
use crate::link::Link;
use crate::node::{Item, ListNode};
use crate::packed::PackedHeader;
use std::alloc::{AllocError, Global};
use std::marker::Model;

/// The greatest number of dummies, so that the place of each fits a link.
const MAX_DUMMIES: usize = 1073741823;

/// Nodes by place. A contract sees one slab of nodes: the dummies and the items in turn. Its `capacity` is the number
/// of dummies and of places of items, with the free places and the spare one.
#[derive(Drop)]
pub struct Nodes {
    /// The headers of the dummies. A dummy is never removed.
    dummies: Vec<PackedHeader>,
    /// The items, and the places that are free for items.
    items: Items,
}

// The value that contracts see of this type (`view`), and what is true of its fields between calls (`invariant`).
impl Model for Nodes {
    ghost use Rattle.slab.specs.Slab.{Slab as Slots, slab_code};
    ghost use Rattle.node_list.specs.declared.node.ListNode.{ListNode};
    ghost use Rattle.node_list.specs.contracts.node.ListNode as node;

    ghost Value = { Slots ListNode };

    ghost coded = { slab_code node.the_row.coded };

    ghost use Rattle.node_list.specs.inside.Woven.{woven, NodesInvariant};

    ghost view = { λ s. woven s.dummies.items s.items };

    ghost invariant = { λ s. NodesInvariant s.dummies.items };
}

impl Nodes {
    /// Returns no nodes. This takes no memory.
    pub fn new(alloc: Global) -> Nodes
        ensures empty { result.slots ≡ [] }
    {
        Nodes {
            dummies: Vec::new(alloc),
            items: Items::new(alloc),
        }
    }

    /// Reserves capacity for `additional` more items. If memory is refused, returns an error, and no node changes.
    pub fn reserve(&mut self, additional: usize) -> Result<(), AllocError>
        ensures room { OnOk result (HasRoomFor self.new additional) }
        ensures succeeds { HasRoomFor self.old additional → IsOk result }
        ensures capacity { self.old.capacity ≤ self.new.capacity }
        ensures values { SameValues self.old self.new }
        ensures len { slab_len self.new ≡ slab_len self.old }
    {
        self.items.reserve(additional)
    }

    /// Adds a dummy and returns its place. `reversed` is its split key without the last bit. If memory is refused, or a
    /// link has no bits for the place, returns an error and changes nothing.
    pub fn push_dummy(&mut self, reversed: u32, next: Link) -> Result<usize, AllocError>
        requires fits { Fits next }
        ensures was_vacant { IfOk result (λ at. get self.old at ≡ None) }
        ensures updates { IfOk result (λ at. Updates self.old self.new at (Some (dummy_node reversed next))) }
        ensures len { OnOk result (slab_len self.new ≡ slab_len self.old + 1) }
        ensures in_range { IfOk result (λ at. at < 2 ^ 31 - 1) }
        ensures first { IfOk result (λ at. self.old.slots ≡ [] → at ≡ 0) }
        ensures capacity { OnOk result (self.new.capacity ≡ self.old.capacity + 1) }
        ensures err { OnErr result (self.new ≡ self.old) }
    {
        let index = self.dummies.len();
        if index >= MAX_DUMMIES {
            return Err(AllocError);
        }
        self.dummies.push(PackedHeader::new(reversed, next))?;
        Ok(2 * index)
    }

    /// Inserts an item at a free place, or else at the spare place, and returns the place. There must be one of them.
    /// `reversed` is the item's split key without the last bit.
    #[inline(always)]
    pub fn insert_item(&mut self, reversed: u32, next: Link, item: Item) -> usize
        requires room { HasRoomFor self.old 1 }
        requires fits { Fits next }
        ensures was_vacant { get self.old result ≡ None }
        ensures updates { Updates self.old self.new result (Some (item_node reversed next item)) }
        ensures len { slab_len self.new ≡ slab_len self.old + 1 }
        ensures in_range { result < 2 ^ 31 - 1 }
        ensures capacity { self.new.capacity ≡ self.old.capacity }
    {
        2 * self.items.insert_reserved(reversed, next, item) + 1
    }

    /// Removes the item at a place and returns its node.
    pub fn remove(&mut self, at: usize) -> ListNode
        requires { HasItemIn self.old at }
        ensures value { get self.old at ≡ Some result }
        ensures fits { Fits result.next }
        ensures updates { Updates self.old self.new at None }
        ensures len { slab_len self.new + 1 ≡ slab_len self.old }
        ensures capacity { self.new.capacity ≡ self.old.capacity }
    {
        self.items.remove(at / 2)
    }

    /// Removes the item at a place, drops it without moving it and returns the number of terms in its chain.
    pub fn discard(&mut self, at: usize) -> usize
        requires { HasItemIn self.old at }
        ensures count { HasChainLength self.old at result }
        ensures updates { Updates self.old self.new at None }
        ensures len { slab_len self.new + 1 ≡ slab_len self.old }
        ensures capacity { self.new.capacity ≡ self.old.capacity }
    {
        self.items.discard(at / 2)
    }

    /// Returns the header of the node at a place: its split key and its link.
    #[inline(always)]
    pub fn header(&self, at: usize) -> NodeHeader
        requires { ContainsKey self.now at }
        ensures { HasHeader self.now at result }
    {
        if at % 2 == 1 {
            self.items.header(at / 2)
        } else {
            self.dummies[at / 2].header(0)
        }
    }

    /// Returns the item at a place, or `None` for a dummy.
    #[inline(always)]
    pub fn item(&self, at: usize) -> Option<&Item>
        requires { ContainsKey self.now at }
        ensures { HasItemOrNone self.now at (option_copied result) }
    {
        if at % 2 == 1 {
            Some(self.items.item(at / 2))
        } else {
            None
        }
    }

    /// Returns the first place at or after `start` that has an item, or `None` if no such place exists.
    #[inline]
    pub fn next_item_at(&self, start: usize) -> Option<usize>
        ensures { IsNextItemIn start result self.now }
    {
        match self.items.next_item_at(start / 2) {
            Some(at) => {
                self.items.reveal_invariant();
                Some(2 * at + 1)
            }
            None => None,
        }
    }

    /// Returns the number of nodes, items and dummies.
    #[inline]
    pub fn len(&self) -> usize
        ensures value { result ≡ slab_len self.now }
        ensures few { result < 2 ^ 32 - 1 }
    {
        self.dummies.len() + self.items.len()
    }

    /// Gives a proof the bound of all places of nodes. It does nothing at run time.
    #[inline]
    pub fn reveal_invariant(&self)
        ensures { (at : ℕ) → ContainsKey self.now at → at < 2 ^ 31 - 1 }
    {
        self.items.reveal_invariant();
    }

    /// Sets the link of the node at a place to `next`. Its split key and its item stay.
    #[inline(always)]
    pub fn set_next(&mut self, at: usize, next: Link)
        requires has { ContainsKey self.old at }
        requires fits { Fits next }
        ensures { ChangesLink self.old self.new at next }
    {
        if at % 2 == 1 {
            self.items.set_next(at / 2, next);
        } else {
            let header = &mut self.dummies[at / 2];
            *header = header.with_next(next);
        }
    }

    /// Borrows the chain of the item at a place for a change.
    // `lends`: when the borrow ends, the item has the chain that the borrower wrote, and the rest is as before.
    #[inline(always)]
    pub fn chain_mut(&mut self, at: usize) -> &mut Chain
        requires { HasItemIn self.old at }
        ensures* lends { sem 𝓛 (LendsChainIn at self.entry result) }
        ensures value { HasChain self.old at result.now }
    {
        self.items.chain_mut(at / 2)
    }
}
