//! The queue of the tables that may have a pending growth step. The dirty table need not be in the queue, so several
//! changes of one table in a row leave the queue as it is.
ghost use Rattle.std.specs.Prelude.{◌≡◌, ◌≤◌, ◌<◌, ℕ, [], length, drop, slice_get, OnOk, None, Some, true};
ghost use Rattle.node_core.specs.inside.PendingTables.{Ascends, IsAmong, AreBelow, HasRoomFor};

use std::alloc::{AllocError, Global};
use std::collections::VecDeque;
use std::marker::Model;

/// A step of another table than the dirty one may follow one of this number of calls. A step of a large table takes
/// about half as long as a line of a script, so four calls take about an eighth longer.
const CALLS_PER_TURN: u8 = 4;

/// The tables that may have a pending growth step: a queue of identifiers in ascending order, each once, and the dirty
/// table, which was borrowed for a change last. Capacity is reserved before, so that adding a table takes no memory.
#[derive(Drop)]
pub struct PendingTables {
    queue: VecDeque<u32>,
    dirty: Option<u32>,
    /// Counts the calls after which only other tables than the dirty one had a pending step. No contract sees it.
    calls: u8,
}

impl Model for PendingTables {
    ghost use Rattle.std.specs.VecDeque.{deque_capacity};
    ghost use Rattle.node_core.specs.inside.PendingTables.{PendingTablesState, pending_tables_code, Ascends};

    ghost Value = { PendingTablesState };

    ghost coded = { pending_tables_code };

    ghost view = { λ s. record {
      queue = s.queue.items;
      dirty = s.dirty;
      capacity = deque_capacity s.queue;
    } };

    ghost invariant = { λ s. Ascends s.queue.items };
}

impl PendingTables {
    /// Makes an empty queue without a dirty table.
    pub fn new(alloc: Global) -> PendingTables
        ensures { result.queue ≡ [] }
    {
        PendingTables {
            queue: VecDeque::new(alloc),
            dirty: None,
            calls: 0,
        }
    }

    /// Gives a proof the invariant that the queue ascends. It does nothing at run time.
    pub fn reveal_invariant(&self)
        ensures { Ascends self.now.queue }
    {
        let _ = self.queue.len();
    }

    /// Returns the length of the queue.
    pub fn len(&self) -> usize
        ensures { result ≡ length self.now.queue }
    {
        self.queue.len()
    }

    /// Returns whether no table is queued and none is dirty.
    #[inline(always)]
    pub fn is_empty(&self) -> bool
        ensures queue { result ≡ true → self.now.queue ≡ [] }
        ensures dirty { result ≡ true → self.now.dirty ≡ None }
    {
        self.dirty.is_none() && self.queue.len() == 0
    }

    /// Returns the identifier at an index of the queue, or `None` past its end.
    pub fn get(&self, index: usize) -> Option<u32>
        ensures { result ≡ slice_get self.now.queue index }
    {
        self.queue.get(index).copied()
    }

    /// Returns the identifier of the dirty table, or `None` if no table is dirty.
    pub fn dirty_table(&self) -> Option<u32>
        ensures { result ≡ self.now.dirty }
    {
        self.dirty
    }

    /// Sets the dirty table, and returns the identifier of the previous one, if any.
    pub fn set_dirty(&mut self, id: u32) -> Option<u32>
        ensures before { result ≡ self.old.dirty }
        ensures rest { self.new ≡ record self.old { dirty = Some id } }
    {
        self.dirty.replace(id)
    }

    /// Clears the dirty table.
    pub fn clear_dirty(&mut self)
        ensures { self.new ≡ record self.old { dirty = None } }
    {
        self.dirty = None;
    }

    /// Counts a call after which the dirty table had no pending step but others may have one. Returns whether a step of
    /// another table may follow the call.
    pub fn is_turn_of_others(&mut self) -> bool
        ensures { self.new ≡ self.old }
    {
        if self.is_empty() {
            return false;
        }
        self.calls = self.calls.wrapping_add(1);
        self.calls % CALLS_PER_TURN == 1
    }

    /// Reserves capacity for `len` identifiers in all.
    pub fn reserve(&mut self, len: usize) -> Result<(), AllocError>
        ensures same { self.new.queue ≡ self.old.queue }
        ensures dirty { self.new.dirty ≡ self.old.dirty }
        ensures more { self.old.capacity ≤ self.new.capacity }
        ensures ok { OnOk result (len ≤ self.new.capacity) }
    {
        self.queue.reserve(len.saturating_sub(self.queue.len()))
    }

    /// Inserts an identifier in order, unless the queue has it. Capacity must have been reserved.
    #[inline(never)]
    pub fn insert(&mut self, id: u32)
        requires { HasRoomFor self.old id }
        ensures new { IsAmong self.new.queue id }
        ensures old { (other : ℕ) → IsAmong self.old.queue other
            → IsAmong self.new.queue other }
        ensures below { (bound : ℕ) → AreBelow self.old.queue bound → id < bound
            → AreBelow self.new.queue bound }
        ensures dirty { self.new.dirty ≡ self.old.dirty }
        ensures capacity { self.old.capacity ≤ self.new.capacity }
    {
        if let Err(index) = self.queue.binary_search(&id) {
            if self.queue.insert(index, id).is_err() {
                unreachable!()
            }
        }
    }

    /// Removes the first identifier of the queue, if any.
    pub fn pop_front(&mut self)
        ensures rest { self.new.queue ≡ drop 1 self.old.queue }
        ensures dirty { self.new.dirty ≡ self.old.dirty }
        ensures capacity { self.new.capacity ≡ self.old.capacity }
    {
        let _ = self.queue.pop_front();
    }
}
