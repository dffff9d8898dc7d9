//! A removal first rehashes the interval of its item: it splits the hint from before the last doubling. Then it
//! replaces the interval's hint if the item is the first. `remove` returns the objects; `delete` drops them without
//! moving them.

ghost use Rattle.std.specs.Prelude.{◌≡◌, ◌+◌, ◌/◌, ◌^◌, Some, None, length, get_or, option_map};
ghost use Rattle.node_list.specs.Cells.{new_item};
ghost use Rattle.node_list.specs.Changes.{without};
ghost use Rattle.node_list.specs.Places.{HasItem, cells_after, item_at, split_key_at};
ghost use Rattle.bucket_table.specs.inside.SplitIndex.{RowsInvariant, KeepsDirectory};

use super::SplitIndex;
use ets_term::KeyHash;
use node_list::{At, Chain};
use packed_term::Packed;

impl<H: KeyHash + Copy + Drop> SplitIndex<H> {
    /// Removes the item at a place and returns its key and objects.
    pub fn remove(&mut self, at: At) -> (Packed, Chain)
        requires rows { RowsInvariant H.hash self.old }
        requires item { HasItem at self.old.list.cells }
        ensures rows { RowsInvariant H.hash self.new }
        ensures keeps { KeepsDirectory self.old self.new }
        ensures item { item_at at self.old.list.cells ≡ Some (new_item result.0 result.1) }
        ensures cells { self.new.list.cells ≡ without at self.old.list.cells }
    {
        let split_key = self.rehash_at(at);
        let start = self.start_before(split_key, at);
        self.remove_after_rehash(split_key, start, at)
    }

    /// Removes the item at a place, drops its objects without moving them, and returns their number.
    pub fn delete(&mut self, at: At) -> usize
        requires rows { RowsInvariant H.hash self.old }
        requires item { HasItem at self.old.list.cells }
        ensures rows { RowsInvariant H.hash self.new }
        ensures keeps { KeepsDirectory self.old self.new }
        ensures count { option_map (λ item. length item.chain) (item_at at self.old.list.cells) ≡ Some result }
        ensures cells { self.new.list.cells ≡ without at self.old.list.cells }
    {
        let split_key = self.rehash_at(at);
        let start = self.start_before(split_key, at);
        self.delete_after_rehash(split_key, start, at)
    }

    /// Removes an item, drops its objects and returns their number. `start` is a node before the item.
    pub fn delete_after(&mut self, start: At, at: At) -> usize
        requires rows { RowsInvariant H.hash self.old }
        requires item { HasItem at (cells_after start self.old.list.cells) }
        ensures rows { RowsInvariant H.hash self.new }
        ensures keeps { KeepsDirectory self.old self.new }
        ensures count { option_map (λ item. length item.chain) (item_at at self.old.list.cells) ≡ Some result }
        ensures cells { self.new.list.cells ≡ without at self.old.list.cells }
        ensures len { length self.new.list.cells + 1 ≡ length self.old.list.cells }
    {
        self.list.reveal_invariant();
        let split_key = self.rehash_at(at);
        self.delete_after_rehash(split_key, start, at)
    }

    /// Rehashes the interval of the item at a place, and returns the item's split key.
    fn rehash_at(&mut self, at: At) -> u64
        requires rows { RowsInvariant H.hash self.old }
        requires item { HasItem at self.old.list.cells }
        ensures rows { RowsInvariant H.hash self.new }
        ensures keeps { KeepsDirectory self.old self.new }
        ensures list { self.new.list ≡ self.old.list }
        ensures key { split_key_at at self.old.list.cells ≡ Some result }
        ensures rehashed { get_or self.new.hints.previous (result / 2 ^ self.new.hints.interval_bits / 2) None
            ≡ None }
    {
        let split_key = self.list.split_key(at);
        self.hints.rehash_interval(&self.list, split_key);
        split_key
    }

    /// Returns a node before the item at a place, which has this split key.
    fn start_before(&self, split_key: u64, at: At) -> At
        requires rows { RowsInvariant H.hash self.now }
        requires item { HasItem at self.now.list.cells }
        requires key { split_key_at at self.now.list.cells ≡ Some split_key }
        ensures { HasItem at (cells_after result self.now.list.cells) }
    {
        self.list.reveal_invariant();
        self.search_start(split_key)
    }

    /// Removes an item whose interval is rehashed, and returns its key and objects. `start` is a node before the item.
    fn remove_after_rehash(&mut self, split_key: u64, start: At, at: At) -> (Packed, Chain)
        requires rows { RowsInvariant H.hash self.old }
        requires item { HasItem at (cells_after start self.old.list.cells) }
        requires key { split_key_at at self.old.list.cells ≡ Some split_key }
        requires rehashed { get_or self.old.hints.previous (split_key / 2 ^ self.old.hints.interval_bits / 2) None
            ≡ None }
        ensures rows { RowsInvariant H.hash self.new }
        ensures keeps { KeepsDirectory self.old self.new }
        ensures item { item_at at self.old.list.cells ≡ Some (new_item result.0 result.1) }
        ensures cells { self.new.list.cells ≡ without at self.old.list.cells }
    {
        self.list.reveal_invariant();
        let interval = self.hints.interval_of(split_key);
        // The hint is used only if the item is the first of its interval.
        let hint = self.hints.hint_after_removal(&self.list, interval, at);
        let slot = self.list.unlink(start, at);
        self.hints.current.replace_first(interval, at, hint);
        slot
    }

    /// Removes an item whose interval is rehashed, and returns the number of its objects. `start` is a node before the
    /// item.
    fn delete_after_rehash(&mut self, split_key: u64, start: At, at: At) -> usize
        requires rows { RowsInvariant H.hash self.old }
        requires item { HasItem at (cells_after start self.old.list.cells) }
        requires key { split_key_at at self.old.list.cells ≡ Some split_key }
        requires rehashed { get_or self.old.hints.previous (split_key / 2 ^ self.old.hints.interval_bits / 2) None
            ≡ None }
        ensures rows { RowsInvariant H.hash self.new }
        ensures keeps { KeepsDirectory self.old self.new }
        ensures count { option_map (λ item. length item.chain) (item_at at self.old.list.cells) ≡ Some result }
        ensures cells { self.new.list.cells ≡ without at self.old.list.cells }
        ensures len { length self.new.list.cells + 1 ≡ length self.old.list.cells }
    {
        self.list.reveal_invariant();
        let interval = self.hints.interval_of(split_key);
        // The hint is used only if the item is the first of its interval.
        let hint = self.hints.hint_after_removal(&self.list, interval, at);
        let count = self.list.delete_item(start, at);
        self.hints.current.replace_first(interval, at, hint);
        count
    }
}
