//! The items of a list by index, in a slab: each with its header, its key and its objects. Places without an item form
//! the *free list*: each leads to the next.
ghost use Rattle.std.specs.Prelude.{◌≡◌, ℕ, ◌+◌, ◌<◌, ◌≤◌, ◌-◌, ◌^◌, [], Some, None, IsOk, OnOk, OnErr, option_map};
ghost use Rattle.std.specs.Borrow.{sem};
ghost use Rattle.slab.specs.Slab.{get, slab_len, with_value, ContainsKey, HasRoomFor, SameValues, Updates};
ghost use Rattle.node_list.specs.inside.FreeList.{item_node};
ghost use Rattle.node_list.specs.inside.Slots.{HasHeader, HasChain, HasChainLength, HasItemOrNone, ChangesLink, IsNextItemIn};
ghost use Rattle.node_list.specs.inside.PackedHeader.{Fits};
ghost use Rattle.node_list.specs.inside.ItemLending.{LendsItemChain};

use crate::chain::Chain;
use crate::first_item::{bound_after_remove, has_item};
use crate::header::NodeHeader;
use crate::link::Link;
use crate::node::{Item, ListNode, StoredItem};
use crate::packed::PackedHeader;
use slab::Slab;
use std::alloc::{AllocError, Global};
use std::marker::Model;
use std::mem;

/// The greatest number of places, so that the place of each item in the list fits a link.
const MAX_PLACES: usize = 1073741823;

/// Items by index. A contract sees one slab of nodes, each of which is an item. Its `capacity` is the number of places,
/// with the free places and the spare one. A place that is added to the slab stays in it. Places without an item form the
/// free list.
#[derive(Drop)]
pub struct Items {
    /// The items, and the free places.
    nodes: Slab<StoredItem>,
    /// The first-item bound: no place below it has an item.
    first_item_bound: usize,
    /// No place from this one on is in the slab.
    end: usize,
    /// The first free place. The header of each free place has the link to the next.
    free_head: Link,
    /// Whether a place is spare: the slab has capacity for it, and a link has bits for it, but it is not in the slab yet.
    /// So a new place is written once, with its item. A new free place is written twice.
    spare: bool,
    /// The number of items.
    len: usize,
    /// The allocator takes no memory of its own.
    alloc: Global,
}

// The value that contracts see of this type (`view`), and what is true of its fields between calls (`invariant`).
impl Model for Items {
    ghost use Rattle.slab.specs.Slab.{Slab as Slots, slab_code};
    ghost use Rattle.node_list.specs.declared.node.ListNode.{ListNode};
    ghost use Rattle.node_list.specs.contracts.node.ListNode as node;

    ghost Value = { Slots ListNode };

    ghost coded = { slab_code node.the_row.coded };

    ghost use Rattle.node_list.specs.inside.FreeList.{items_view, ItemsInvariant};

    ghost view = { λ s. items_view s.nodes s.spare };

    ghost invariant = { λ s. ItemsInvariant s.nodes s.spare s.first_item_bound s.end s.free_head s.len };
}

impl Items {
    /// Returns a slab without items. This takes no memory.
    pub fn new(alloc: Global) -> Items
        ensures empty { result.slots ≡ [] }
        ensures capacity { result.capacity ≡ 0 }
    {
        Items {
            nodes: Slab::new(alloc),
            first_item_bound: 0,
            end: 0,
            free_head: Link::none(),
            spare: false,
            len: 0,
            alloc,
        }
    }

    /// Reserves capacity for `additional` more items. If memory is refused, returns an error, and no item changes.
    pub fn reserve(&mut self, additional: usize) -> Result<(), AllocError>
        ensures room { OnOk result (HasRoomFor self.new additional) }
        ensures succeeds { HasRoomFor self.old additional → IsOk result }
        ensures capacity { self.old.capacity ≤ self.new.capacity }
        ensures values { SameValues self.old self.new }
        ensures len { slab_len self.new ≡ slab_len self.old }
    {
        // Each round adds one place. The first round reserves the memory for all of them. The last place stays spare, so
        // the place for a single item is written once, with the item.
        while self.free_len() < additional {
            self.add_place(additional - self.free_len())?;
        }
        Ok(())
    }

    /// Returns the number of places without an item: those of the slab, and the spare one.
    #[inline]
    fn free_len(&self) -> usize
        ensures { slab_len self.now + result ≡ self.now.capacity }
    {
        let free = self.nodes.len() - self.len;
        if self.spare { free + 1 } else { free }
    }

    /// Adds a place, which is spare. If a place is spare already, it first puts that one at the front of the free list,
    /// because at most one place is spare. If the slab has capacity for fewer than `more` further places, it grows by at
    /// least `more`. If memory is refused, returns an error and adds no place.
    fn add_place(&mut self, more: usize) -> Result<(), AllocError>
        requires { 0 < more }
        ensures room { OnOk result (self.new.capacity ≡ self.old.capacity + 1) }
        ensures err { OnErr result (self.new.capacity ≡ self.old.capacity) }
        ensures values { SameValues self.old self.new }
        ensures len { slab_len self.new ≡ slab_len self.old }
    {
        if self.spare {
            let free = StoredItem::free(self.alloc, self.free_head);
            let place = self.nodes.insert_reserved(free);
            self.spare = false;
            self.free_head = Link::to(place);
            self.end = self.end.max(place + 1);
        }
        reserve_place(&mut self.nodes, more)?;
        self.spare = true;
        Ok(())
    }

    /// Inserts an item at the first free place, or else at the spare place, and returns that place. There must be one of
    /// them. `reversed` is the item's split key without the last bit.
    #[inline(always)]
    pub fn insert_reserved(&mut self, reversed: u32, next: Link, item: Item) -> usize
        requires room { HasRoomFor self.old 1 }
        requires fits { Fits next }
        ensures was_vacant { get self.old result ≡ None }
        ensures updates { Updates self.old self.new result (Some (item_node reversed next item)) }
        ensures len { slab_len self.new ≡ slab_len self.old + 1 }
        ensures in_range { result < 2 ^ 30 - 1 }
        ensures capacity { self.new.capacity ≡ self.old.capacity }
    {
        let header = PackedHeader::new(reversed, next);
        let stored = StoredItem { header, item };
        let at = match self.free_head.get() {
            Some(at) => {
                // The old header, of the free place: its link leads to the next free place.
                let free = write_at(&mut self.nodes, at, stored);
                self.free_head = free.next();
                at
            }
            None => {
                // No place is free, so one is spare. The slab gets it with the item, so it is written once.
                let at = self.nodes.insert_reserved(stored);
                self.spare = false;
                self.end = self.end.max(at + 1);
                at
            }
        };
        self.len += 1;
        self.first_item_bound = self.first_item_bound.min(at);
        at
    }

    /// Removes the item at a place and returns its node. The place becomes the first of the free list.
    pub fn remove(&mut self, at: usize) -> ListNode
        requires { ContainsKey self.old at }
        ensures value { get self.old at ≡ Some result }
        ensures fits { Fits result.next }
        ensures updates { Updates self.old self.new at None }
        ensures len { slab_len self.new + 1 ≡ slab_len self.old }
        ensures capacity { self.new.capacity ≡ self.old.capacity }
    {
        let free = StoredItem::free(self.alloc, self.free_head);
        let StoredItem { header, item } = replace_at(&mut self.nodes, at, free);
        self.free_head = Link::to(at);
        self.len -= 1;
        self.first_item_bound = bound_after_remove(&self.nodes, self.first_item_bound, self.end);
        let NodeHeader { split_key, next } = header.header(1);
        ListNode {
            split_key,
            next,
            item: Some(item),
        }
    }

    /// Removes the item at a place, drops it and returns the number of terms in its chain. The item is not moved: a free
    /// place is written over it. The place becomes the first of the free list.
    pub fn discard(&mut self, at: usize) -> usize
        requires { ContainsKey self.old at }
        ensures count { HasChainLength self.old at result }
        ensures updates { Updates self.old self.new at None }
        ensures len { slab_len self.new + 1 ≡ slab_len self.old }
        ensures capacity { self.new.capacity ≡ self.old.capacity }
    {
        let count = self.nodes[at].item.chain.len();
        let free = StoredItem::free(self.alloc, self.free_head);
        let _header = write_at(&mut self.nodes, at, free);
        self.free_head = Link::to(at);
        self.len -= 1;
        self.first_item_bound = bound_after_remove(&self.nodes, self.first_item_bound, self.end);
        count
    }

    /// Returns the header of the item at a place: its split key and its link.
    #[inline(always)]
    pub fn header(&self, at: usize) -> NodeHeader
        requires { ContainsKey self.now at }
        ensures { HasHeader self.now at result }
    {
        self.nodes[at].header.header(1)
    }

    /// Returns the item at a place.
    #[inline(always)]
    pub fn item(&self, at: usize) -> &Item
        requires { ContainsKey self.now at }
        ensures { HasItemOrNone self.now at (Some result.now) }
    {
        &self.nodes[at].item
    }

    /// Returns the first place at or after `start` that has an item, or `None` if no such place exists. It reads the
    /// places in order, from the first-item bound if `start` is below the bound.
    #[inline]
    pub fn next_item_at(&self, start: usize) -> Option<usize>
        ensures { IsNextItemIn start result self.now }
    {
        for at in start.max(self.first_item_bound)..self.end {
            if has_item(&self.nodes, at) {
                return Some(at);
            }
        }
        None
    }

    /// Returns the number of items.
    #[inline]
    pub fn len(&self) -> usize
        ensures value { result ≡ slab_len self.now }
        ensures few { result < 2 ^ 30 }
    {
        self.len
    }

    /// Gives a proof the bound of all places of items. It does nothing at run time.
    #[inline]
    pub fn reveal_invariant(&self)
        ensures { (at : ℕ) → ContainsKey self.now at → at < 2 ^ 30 - 1 }
    {
        // The borrow gives the proof the invariant.
        let _nodes = &self.nodes;
    }

    /// Sets the link of the item at a place to `next`. Its split key, its key and its objects stay.
    #[inline(always)]
    pub fn set_next(&mut self, at: usize, next: Link)
        requires has { ContainsKey self.old at }
        requires fits { Fits next }
        ensures { ChangesLink self.old self.new at next }
    {
        let stored = &mut self.nodes[at];
        stored.header = stored.header.with_next(next);
    }

    /// Borrows the chain of the item at a place for a change.
    // `lends`: when the borrow ends, the item has the chain that the borrower wrote, and the rest is as before.
    #[inline(always)]
    pub fn chain_mut(&mut self, at: usize) -> &mut Chain
        requires { ContainsKey self.old at }
        ensures* lends { sem 𝓛 (LendsItemChain at self.entry result) }
        ensures value { HasChain self.old at result.now }
    {
        &mut self.nodes[at].item.chain
    }
}

/// Returns by how many places the slab grows: the greater of `additional` and `len`, the present number of places.
/// Such a growth at least doubles the capacity, so its cost is constant per place, on average.
fn extra_capacity(len: usize, additional: usize) -> usize
    ensures { additional ≤ result }
{
    additional.max(len)
}

/// Reserves capacity for one more place. If the slab has capacity for fewer than `more` further places, it grows by at
/// least `more`. Returns an error if memory is refused or a link has no bits for the place. The slab may then keep a new
/// capacity, but no place is added.
fn reserve_place(nodes: &mut Slab<StoredItem>, more: usize) -> Result<(), AllocError>
    requires some { 0 < more }
    ensures room { OnOk result (HasRoomFor nodes.new 1) }
    ensures fits { OnOk result (nodes.new.vacant_key < 2 ^ 30 - 1) }
    ensures nodes { nodes.new ≡ record nodes.old { capacity = nodes.new.capacity } }
{
    let len = nodes.len();
    if nodes.capacity() - len < more {
        nodes.reserve_exact(extra_capacity(len, more))?;
    }
    // The place that the slab gives out next.
    if nodes.vacant_key() >= MAX_PLACES {
        return Err(AllocError);
    }
    Ok(())
}

/// Replaces what is at a place and returns what was there.
#[inline(always)]
fn replace_at(nodes: &mut Slab<StoredItem>, at: usize, stored: StoredItem) -> StoredItem
    requires { ContainsKey nodes.old at }
    ensures value { get nodes.old at ≡ Some result }
    ensures now { nodes.new ≡ with_value nodes.old at stored }
{
    mem::replace(&mut nodes[at], stored)
}

/// Writes a place, drops what was there and returns its header.
#[inline(always)]
fn write_at(nodes: &mut Slab<StoredItem>, at: usize, stored: StoredItem) -> PackedHeader
    requires { ContainsKey nodes.old at }
    ensures value { option_map (λ s. s.header) (get nodes.old at) ≡ Some result }
    ensures now { nodes.new ≡ with_value nodes.old at stored }
{
    let place = &mut nodes[at];
    let header = place.header;
    *place = stored;
    header
}
