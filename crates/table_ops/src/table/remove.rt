//! The calls that delete or take objects without a pattern. `hold` keeps an emptied slot as a tombstone, a slot without
//! objects, and the purge removes all tombstones.
ghost use Rattle.std.specs.Prelude.{◌≡◌, OnOk, OnErr};
ghost use Rattle.table_ops.specs.Content.{objects_under};
ghost use Rattle.table_ops.specs.Drop.{without_those, without_held, has_key, every_object, DeletesObject};
ghost use Rattle.table_ops.specs.Results.{Returns};

use super::Table;
use super::lookup::append_clones;
use crate::object::key_of;
use crate::refusal::Refusal;
use bucket_table::Rows;
use ets_term::{Items, Term};
use std::alloc::AllocError;

impl<R: Rows> Table<R> {
    /// Deletes the objects of a key (stdlib manual, ets:delete/2). The slot stays as a tombstone if `hold`
    /// is true.
    pub fn delete_key(&mut self, key: &Term, hold: bool)
        ensures content { self.new.content ≡ without_those hold (has_key key.now) self.old.content }
        ensures buckets { self.new.buckets ≡ self.old.buckets }
    {
        let Some(place) = self.inner.find(key) else {
            return;
        };
        let count = self.inner.delete_objects_at(hold, place);
        self.count -= count;
    }

    /// Removes and returns the objects of a key, oldest first, or nothing if it has none (stdlib manual, ets:take/2).
    /// The slot stays as a tombstone if `hold` is true.
    pub fn take(&mut self, key: &Term, hold: bool) -> Result<Items<Term>, AllocError>
        ensures objects { Returns result (objects_under self.old.content.slots key.now) }
        ensures content { OnOk result
            (self.new.content ≡ without_those hold (has_key key.now) self.old.content) }
        ensures err { OnErr result (self.new.content ≡ self.old.content) }
        ensures buckets { self.new.buckets ≡ self.old.buckets }
    {
        let Some(place) = self.inner.find(key) else {
            return Ok(Items::new(self.inner.alloc));
        };
        let objects = self.inner.rows.objects_at(place);
        // Unpacks the objects before it deletes them, so that a refusal of memory changes nothing.
        let mut taken = Vec::with_capacity(self.inner.alloc, objects.len())?;
        append_clones(self.inner.alloc, &mut taken, objects)?;
        let taken_count = self.inner.delete_objects_at(hold, place);
        self.count -= taken_count;
        Ok(Items::from_vec(taken))
    }

    /// Deletes all objects that equal `object` (stdlib manual, ets:delete_object/2). Refuses with `Badarg` if the term
    /// is not an object. A slot that loses its last object stays as a tombstone if `hold` is true.
    pub fn delete_object(&mut self, object: &Term, hold: bool) -> Result<(), Refusal>
        ensures content { DeletesObject hold object.now self.old.content result self.new.content }
        ensures buckets { self.new.buckets ≡ self.old.buckets }
    {
        let Some(key) = key_of(self.inner.keypos, object) else {
            return Err(Refusal::Badarg);
        };
        let Some(place) = self.inner.find(key) else {
            return Ok(());
        };
        let count = self.inner.remove_object_at(hold, place, object);
        self.count -= count;
        Ok(())
    }

    /// Deletes all objects (stdlib manual, ets:delete_all_objects/1). All slots stay as tombstones if
    /// `hold` is true.
    pub fn delete_all(&mut self, hold: bool)
        ensures content { self.new.content ≡ without_those hold every_object self.old.content }
        ensures buckets { self.new.buckets ≡ self.old.buckets }
    {
        self.inner.rows.clear(hold);
        self.count = 0;
    }

    /// Removes all tombstones.
    pub fn purge(&mut self)
        ensures content { self.new.content ≡ without_held self.old.content }
        ensures buckets { self.new.buckets ≡ self.old.buckets }
    {
        self.inner.rows.purge();
    }
}
