//! Rows in insertion order, over a map that keeps this order. They have one bucket, which is always ready, so no step
//! of growth changes them. The place of a slot is its index in the map.
ghost use Rattle.std.specs.Prelude.{◌≡◌, ◌<◌, ◌≤◌, ◌+◌, true, not, [], ◌∷◌, ◌++◌, None, IsOk, OnOk, OnErr, option_map, slice_get};
ghost use Rattle.indexmap.specs.IndexMap.{spare};
ghost use Rattle.bucket_table.specs.Slots.{has_objects, objects_of};

use crate::entry::{Place, SlotEntry};
use crate::growth::{Growth, Readying};
use crate::key_ref::KeyRef;
use crate::rows::Rows;
use ets_term::Term;
use indexmap::IndexMap;
use node_list::Chain;
use packed_term::{Object, Packed};
use std::alloc::{AllocError, Global};
use std::mem;

/// Rows in insertion order, in one bucket that is always ready. A removal moves the later slots, so its time grows
/// with their number.
#[derive(Drop)]
pub struct PlainRows {
    /// From each key to its objects, in insertion order.
    slots: IndexMap<Term, Chain>,
}

impl PlainRows {
    /// Creates rows without slots.
    pub fn new(alloc: Global) -> PlainRows
        ensures { ⟦<PlainRows as Rows>⟧.slots result ≡ [] }
    {
        PlainRows {
            slots: IndexMap::new(alloc),
        }
    }

    /// Appends a slot for a key that has no slot. If memory runs out, changes no slot.
    fn push(&mut self, key: Term, objects: Chain) -> Result<(), AllocError>
        requires { objects_of self.old.slots.entries key ≡ None }
        ensures ok { OnOk result (self.new.slots.entries ≡ self.old.slots.entries ++ (key, objects) ∷ []) }
        ensures err { OnErr result (self.new.slots.entries ≡ self.old.slots.entries) }
        ensures succeeds { 0 < spare self.old.slots → IsOk result }
        ensures room { spare self.old.slots ≤ spare self.new.slots + 1 }
    {
        self.slots.insert(key, objects)?;
        Ok(())
    }
}

// The trait `Rows` documents these values and methods. The place of a slot is its index in the map. A method that takes
// a place requires a slot there, so its `None` is unreachable. `entry` gives each key the hash 0, which `put_at` does
// not use.
impl Rows for PlainRows {
    ghost slots = { λ s. s.slots.entries };

    ghost key_at = { λ s place. option_map (λ slot. slot.0) (slice_get s.slots.entries place) };

    ghost room = { λ s. spare s.slots };

    ghost hash_of = { λ s key. 0 };

    ghost readiness = { λ s. true ∷ [] };

    ghost most_buckets = { 1 };

    fn get(&self, key: &Term) -> Option<&[Object]> {
        let objects = self.slots.get(key)?;
        Some(objects.as_slice())
    }

    fn put(&mut self, rows: Vec<(Term, Chain)>) -> Result<(), AllocError> {
        self.slots.reserve(rows.len())?;
        for (key, objects) in rows {
            self.push(key, objects)?;
        }
        Ok(())
    }

    fn replace(&mut self, key: &Term, objects: Chain) -> Option<Chain> {
        let chain = self.slots.get_mut(key)?;
        Some(mem::replace(chain, objects))
    }

    fn remove(&mut self, key: &Term) -> Option<Chain> {
        self.slots.shift_remove(key)
    }

    fn clear(&mut self, hold: bool) {
        let alloc = *self.slots.allocator();
        if hold {
            self.slots.retain(
                |_key: &Term, objects: &mut Chain| -> bool
                    ensures { (result ≡ true) × (objects.new ≡ []) }
                {
                    *objects = Chain::new(alloc);
                    true
                },
            );
        } else {
            self.slots.retain(
                |_key: &Term, objects: &mut Chain| -> bool
                    ensures { (result ≡ not (has_objects objects.old)) × (objects.new ≡ objects.old) }
                { objects.len() == 0 },
            );
        }
    }

    fn purge(&mut self) {
        self.slots.retain(
            |_key: &Term, objects: &mut Chain| -> bool
                ensures { (result ≡ has_objects objects.old) × (objects.new ≡ objects.old) }
            { objects.len() > 0 },
        );
    }

    fn len(&self) -> usize {
        self.slots.len()
    }

    fn reveal_invariant(&self) {
        // The call changes nothing. It gives the proof the invariant of the map.
        let _ = self.slots.len();
    }

    fn first_at(&self) -> Option<(KeyRef<'_>, &[Object])> {
        let (key, objects) = self.slots.get_index(0)?;
        Some((KeyRef::Plain(key), objects.as_slice()))
    }

    fn next_at(&self, key: &Term) -> Option<Option<(KeyRef<'_>, &[Object])>> {
        let Some(place) = self.slots.get_index_of(key) else {
            return None;
        };
        match self.slots.as_slice().get_index(place + 1) {
            Some((key, objects)) => Some(Some((KeyRef::Plain(key), objects.as_slice()))),
            None => Some(None),
        }
    }

    fn find(&self, key: &Term) -> Option<Place> {
        match self.slots.get_index_of(key) {
            Some(place) => Some(place),
            None => None,
        }
    }

    fn entry(&self, key: &Term) -> SlotEntry {
        match self.slots.get_index_of(key) {
            Some(place) => SlotEntry::Occupied(place),
            None => SlotEntry::Vacant(0),
        }
    }

    fn first_place(&self) -> Option<Place> {
        if self.slots.len() > 0 { Some(0) } else { None }
    }

    fn next_place(&self, place: Place) -> Option<Place> {
        let slots = self.slots.len();
        let next = place + 1;
        if next < slots { Some(next) } else { None }
    }

    fn slot_at(&self, place: Place) -> (KeyRef<'_>, &[Object]) {
        self.reveal_invariant();
        match self.slots.get_index(place) {
            Some((key, objects)) => (KeyRef::Plain(key), objects.as_slice()),
            None => unreachable!(),
        }
    }

    fn objects_at(&self, place: Place) -> &[Object] {
        match self.slots.get_index(place) {
            Some((_, objects)) => objects.as_slice(),
            None => unreachable!(),
        }
    }

    fn replace_at(&mut self, place: Place, objects: Chain) -> Chain {
        match self.slots.get_index_mut(place) {
            // `own` holds the objects that the slot has now.
            Some(own) => mem::replace(own, objects),
            None => unreachable!(),
        }
    }

    fn replace_one_at(&mut self, place: Place, object: Object) -> Object {
        match self.slots.get_index_mut(place) {
            // `own` holds the only object of the slot.
            Some(own) => own.replace(0, object),
            None => unreachable!(),
        }
    }

    #[inline]
    fn set_element_at(&mut self, place: Place, index: usize, value: Packed) {
        match self.slots.get_index_mut(place) {
            // `own` holds the only object of the slot.
            Some(own) => own.set_element(index, value),
            None => unreachable!(),
        }
    }

    fn delete_at(&mut self, place: Place) -> usize {
        self.reveal_invariant();
        match self.slots.shift_remove_index(place) {
            Some(slot) => slot.1.len(),
            None => unreachable!(),
        }
    }

    fn reserve(&mut self, additional: usize) -> Result<(), AllocError> {
        self.slots.reserve(additional)
    }

    fn put_at(&mut self, _hash: u32, key: &Term, objects: Chain) -> Result<(), AllocError> {
        let own_key = key.try_clone(*self.slots.allocator())?;
        self.push(own_key, objects)
    }

    fn grow(&mut self) -> Result<Growth, AllocError> {
        Ok(Growth::AtMost)
    }

    fn ready(&mut self, bucket: u32) -> Result<Readying, AllocError> {
        if bucket == 0 {
            Ok(Readying::AlreadyReady)
        } else {
            Ok(Readying::NotABucket)
        }
    }

    fn buckets(&self) -> u32 {
        1
    }

    fn is_ready(&self, bucket: u32) -> bool {
        bucket == 0
    }

    fn first_unready(&self) -> Option<u32> {
        None
    }
}
