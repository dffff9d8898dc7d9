//! The trait of rows: all slots of a table, in hash buckets or in insertion order. A slot is a key with its objects, a
//! tombstone is a slot without objects, and a place is the index of a slot.
ghost use Rattle.std.specs.Prelude.{◌≡◌, ◌≤◌, ◌+◌, ℕ, Bool, false, List, [], ◌∷◌, Option, Some, None, IsSome, IsOk, IfOk, OnOk, OnErr, MatchOption, length, position, not, option_copied, option_map, slice_get, get_or};
ghost use Rattle.bucket_table.specs.Lent.{key_of_ref, slot_of_ref};
ghost use Rattle.ets_term.specs.declared.term.Term.{Term};
ghost use Rattle.bucket_table.specs.Slots.{Slot, objects_of, with_objects, Enters, without_tombstones, slots_behind};
ghost use Rattle.bucket_table.specs.Rows.{HasDistinctKeys, without, EnterAll, AreNew, without_objects};
ghost use Rattle.bucket_table.specs.Entries.{IsEntry, HasOneObject, objects_in, with_objects_in, with_element_in};
ghost use Rattle.bucket_table.specs.Walks.{IsFirstPlace, IsNextPlace, ComesBefore};
ghost use Rattle.bucket_table.specs.Buckets.{IsGrown};
ghost use Rattle.bucket_table.specs.Readying.{IsReadied};

use crate::entry::{Place, SlotEntry};
use crate::growth::{Growth, Readying};
use crate::key_ref::KeyRef;
use ets_term::Term;
use node_list::Chain;
use packed_term::{Object, Packed};
use std::alloc::AllocError;

/// A list of slots with distinct keys. No call reorders the slots that remain. A call that runs out of memory changes
/// no slot.
pub trait Rows: Drop {
    /// The slots, in their order.
    ghost slots: { Self → List Slot };

    /// The key of the slot at a place, or `None` if no slot is there.
    ghost key_at: { Self → ℕ → Option Term };

    /// The number of slots that can be inserted without an allocation.
    ghost room: { Self → ℕ };

    /// The hash of a key.
    ghost hash_of: { Self → Term → ℕ };

    /// For each bucket, whether it is ready.
    ghost readiness: { Self → List Bool };

    /// The greatest number of buckets, which `grow` does not exceed.
    ghost most_buckets: { ℕ };

    /// Returns the objects of the key's slot: an empty slice for a tombstone. Returns `None` if the key has no slot.
    fn get(&self, key: &Term) -> Option<&[Object]>
        ensures { option_copied result ≡ objects_of (slots self.now) key.now };

    /// Inserts a slot for each pair of a key and its objects. The keys must be distinct and must not have slots. If
    /// memory runs out, no slot is inserted and the argument is dropped.
    fn put(&mut self, rows: Vec<(Term, Chain)>) -> Result<(), AllocError>
        requires distinct { HasDistinctKeys rows.items }
        requires new { AreNew (slots self.old) rows.items }
        ensures ok { OnOk result (EnterAll (slots self.old) rows.items (slots self.new)) }
        ensures err { OnErr result (slots self.new ≡ slots self.old) }
        ensures hash { hash_of self.new ≡ hash_of self.old }
        ensures buckets { readiness self.new ≡ readiness self.old };

    /// Replaces the objects of the key's slot and returns the old objects. Returns `None` if the key has no slot.
    fn replace(&mut self, key: &Term, objects: Chain) -> Option<Chain>
        ensures objects { result ≡ objects_of (slots self.old) key.now }
        ensures now { slots self.new ≡ with_objects (slots self.old) key.now objects }
        ensures hash { hash_of self.new ≡ hash_of self.old }
        ensures buckets { readiness self.new ≡ readiness self.old };

    /// Removes the key's slot and returns its objects. Returns `None` if the key has no slot.
    fn remove(&mut self, key: &Term) -> Option<Chain>
        ensures objects { result ≡ objects_of (slots self.old) key.now }
        ensures now { slots self.new ≡ without (slots self.old) key.now }
        ensures hash { hash_of self.new ≡ hash_of self.old }
        ensures buckets { readiness self.new ≡ readiness self.old };

    /// Removes all objects. If `hold` is true, each slot remains as a tombstone. Otherwise slots with objects are
    /// removed, and slots that were tombstones before remain.
    fn clear(&mut self, hold: bool)
        ensures now { slots self.new ≡ without_objects hold (slots self.old) }
        ensures hash { hash_of self.new ≡ hash_of self.old }
        ensures buckets { readiness self.new ≡ readiness self.old };

    /// Removes all tombstones. `SplitRows` finds them by the hashes in its tombstone log. It scans all slots after a
    /// `clear`, or if the log overflowed. The log has room for one hash per sixteen nodes, if memory allows.
    fn purge(&mut self)
        ensures now { slots self.new ≡ without_tombstones (slots self.old) }
        ensures hash { hash_of self.new ≡ hash_of self.old }
        ensures buckets { readiness self.new ≡ readiness self.old };

    /// Returns the number of slots, tombstones included.
    fn len(&self) -> usize
        ensures { result ≡ length (slots self.now) };

    /// Reveals to a proof that the keys are distinct. It does nothing at run time.
    fn reveal_invariant(&self)
        ensures { HasDistinctKeys (slots self.now) };

    /// Returns the key and the objects of the first slot, if there is one. Takes no place, unlike `slot_at`: the place
    /// is that of `first_place`.
    fn first_at(&self) -> Option<(KeyRef<'_>, &[Object])>
        ensures { option_map slot_of_ref result ≡ slice_get (slots self.now) 0 };

    /// Takes a key instead of a place. Returns the key and the objects of the slot after this key's slot. The outer
    /// `None` means that the key has no slot, and the inner `None` that its slot is the last.
    fn next_at(&self, key: &Term) -> Option<Option<(KeyRef<'_>, &[Object])>>
        ensures { option_map (option_map slot_of_ref) result
            ≡ option_map (λ slots. slice_get slots 0) (slots_behind (slots self.now) key.now) };

    /// Returns the place of the key's slot, if it has one.
    fn find(&self, key: &Term) -> Option<Place>
        ensures { MatchOption result (objects_of (slots self.now) key.now ≡ None)
            (λ place. (key_at self.now place ≡ Some key.now) × IsSome (objects_of (slots self.now) key.now)) };

    /// Returns the place of the key's slot. If it has no slot, returns the key's hash, for `put_at`.
    fn entry(&self, key: &Term) -> SlotEntry
        ensures { IsEntry (slots self.now) (hash_of self.now) (key_at self.now) key.now result };

    /// Returns the place of the first slot, if there is one.
    fn first_place(&self) -> Option<Place>
        ensures { IsFirstPlace (key_at self.now) (slots self.now) result };

    /// Returns the place of the slot after the slot at `place`, if there is one. `SplitRows` reads the places
    /// after `place` until one has a slot.
    fn next_place(&self, place: Place) -> Option<Place>
        requires { IsSome (key_at self.now place) }
        ensures { IsNextPlace (key_at self.now) (slots self.now) (key_at self.now place) result };

    /// Returns the key and the objects of the slot at a place.
    fn slot_at(&self, place: Place) -> (KeyRef<'_>, &[Object])
        requires { IsSome (key_at self.now place) }
        ensures key { key_at self.now place ≡ Some (key_of_ref result.0) }
        ensures objects { objects_of (slots self.now) (key_of_ref result.0) ≡ Some result.1.now };

    /// Returns the objects of the slot at a place.
    fn objects_at(&self, place: Place) -> &[Object]
        requires { IsSome (key_at self.now place) }
        ensures { objects_in (slots self.now) (key_at self.now place) ≡ Some result.now };

    /// Replaces the objects of the slot at a place and returns the old objects.
    fn replace_at(&mut self, place: Place, objects: Chain) -> Chain
        requires { IsSome (key_at self.old place) }
        ensures objects { objects_in (slots self.old) (key_at self.old place) ≡ Some result }
        ensures now { slots self.new ≡ with_objects_in (slots self.old) (key_at self.old place) objects }
        ensures place { key_at self.new place ≡ key_at self.old place }
        ensures places { (other : ℕ) → key_at self.new other ≡ key_at self.old other }
        ensures room { room self.old ≤ room self.new }
        ensures hash { hash_of self.new ≡ hash_of self.old }
        ensures buckets { readiness self.new ≡ readiness self.old };

    /// Replaces the only object of the slot at a place and returns the old one.
    fn replace_one_at(&mut self, place: Place, object: Object) -> Object
        requires { HasOneObject (slots self.old) (key_at self.old place) }
        ensures objects { objects_in (slots self.old) (key_at self.old place) ≡ Some (result ∷ []) }
        ensures now { slots self.new ≡ with_objects_in (slots self.old) (key_at self.old place) (object ∷ []) }
        ensures places { (other : ℕ) → key_at self.new other ≡ key_at self.old other }
        ensures room { room self.old ≤ room self.new }
        ensures hash { hash_of self.new ≡ hash_of self.old }
        ensures buckets { readiness self.new ≡ readiness self.old };

    /// Sets the element at `index`, counted from 0, of the only object of the slot at a place. Changes nothing if the
    /// object is not a tuple or has no such element.
    fn set_element_at(&mut self, place: Place, index: usize, value: Packed)
        requires { HasOneObject (slots self.old) (key_at self.old place) }
        ensures now { slots self.new ≡ with_element_in (slots self.old) (key_at self.old place) index value }
        ensures places { (other : ℕ) → key_at self.new other ≡ key_at self.old other }
        ensures room { room self.old ≤ room self.new }
        ensures hash { hash_of self.new ≡ hash_of self.old }
        ensures buckets { readiness self.new ≡ readiness self.old };

    /// Removes the slot at a place, drops its objects and returns their number. `SplitRows` drops them without moving
    /// them. The slots before it keep their places.
    fn delete_at(&mut self, place: Place) -> usize
        requires { IsSome (key_at self.old place) }
        ensures count { option_map length (objects_in (slots self.old) (key_at self.old place)) ≡ Some result }
        ensures now { (key : Term) → key_at self.old place ≡ Some key → slots self.new ≡ without (slots self.old) key }
        ensures before { (removed : Term) → key_at self.old place ≡ Some removed
            → (other : ℕ) (key : Term) → key_at self.old other ≡ Some key
            → ComesBefore (slots self.old) key removed
            → key_at self.new other ≡ Some key }
        ensures hash { hash_of self.new ≡ hash_of self.old }
        ensures buckets { readiness self.new ≡ readiness self.old };

    /// Reserves memory for `additional` slots. `put_at` then takes memory only for its copy of the key.
    fn reserve(&mut self, additional: usize) -> Result<(), AllocError>
        ensures room { OnOk result (additional ≤ room self.new) }
        ensures now { slots self.new ≡ slots self.old }
        ensures places { (place : ℕ) → key_at self.new place ≡ key_at self.old place }
        ensures hash { hash_of self.new ≡ hash_of self.old }
        ensures buckets { readiness self.new ≡ readiness self.old };

    /// Inserts a slot for a key that has no slot, with a copy of the key. Takes the key's hash, as `entry` returned it,
    /// instead of a place. The rows choose the place. If memory runs out, no slot is inserted, and the objects are
    /// dropped.
    fn put_at(&mut self, hash: u32, key: &Term, objects: Chain) -> Result<(), AllocError>
        requires new { objects_of (slots self.old) key.now ≡ None }
        requires hash { hash ≡ hash_of self.old key.now }
        ensures ok { OnOk result (Enters (slots self.old) key.now objects (slots self.new)) }
        ensures err { OnErr result (slots self.new ≡ slots self.old) }
        ensures room { room self.old ≤ room self.new + 1 }
        ensures hash { hash_of self.new ≡ hash_of self.old }
        ensures buckets { readiness self.new ≡ readiness self.old };

    /// Doubles the number of buckets. Returns `AtMost`, and changes nothing, if the number is already the greatest.
    fn grow(&mut self) -> Result<Growth, AllocError>
        ensures content { slots self.new ≡ slots self.old }
        ensures hash { hash_of self.new ≡ hash_of self.old }
        ensures ok { IfOk result (λ growth. IsGrown most_buckets (readiness self.old) growth (readiness self.new)) }
        ensures err { OnErr result (readiness self.new ≡ readiness self.old) };

    /// Makes a bucket ready. Changes nothing if the bucket was ready before or no bucket has this number, and returns
    /// which.
    fn ready(&mut self, bucket: u32) -> Result<Readying, AllocError>
        ensures content { slots self.new ≡ slots self.old }
        ensures hash { hash_of self.new ≡ hash_of self.old }
        ensures ok { IfOk result (λ readying. IsReadied bucket (readiness self.old) readying (readiness self.new)) }
        ensures err { OnErr result (readiness self.new ≡ readiness self.old) };

    /// Returns the number of buckets.
    fn buckets(&self) -> u32
        ensures { result ≡ length (readiness self.now) };

    /// Returns whether a bucket is ready. It is `false` if no bucket has this number.
    fn is_ready(&self, bucket: u32) -> bool
        ensures { result ≡ get_or (readiness self.now) bucket false };

    /// Returns the lowest bucket that is not ready, if there is one.
    fn first_unready(&self) -> Option<u32>
        ensures { result ≡ position not (readiness self.now) };
}
