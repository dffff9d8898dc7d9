//! Lookups, insertions, updates and deletions in a table with fixes. In a fixed table, a key that loses its last object
//! keeps its slot as a tombstone, which an insertion of the key fills again.
ghost use Rattle.std.specs.Prelude.{◌≡◌, None, option_copied, OnOk, OnErr};
ghost use Rattle.counters.specs.declared.elements.ElementSpecs.TheVariants as elements;
ghost use Rattle.table_ops.specs.Content.{objects_under, is_present};
ghost use Rattle.table_ops.specs.Drop.{has_key, every_object, DeletesObject};
ghost use Rattle.table_ops.specs.Results.{Returns};
ghost use Rattle.table_ops.specs.Put.{Inserts, InsertsNew};
ghost use Rattle.table_ops.specs.Read.{all_objects, lookup_element, lookup_element_or};
ghost use Rattle.table_ops.specs.Refusals.{RefinesChange, ReturnsOrBadarg};
ghost use Rattle.table_ops.specs.Update.{UpdatesCounter, UpdatesElement};
ghost use Rattle.fixed_walk.specs.Fixes.{is_fixed};
ghost use Rattle.fixed_walk.specs.TableState.{on_content, after_delete};

use super::Walked;
use bucket_table::Rows;
use counters::{ElementSpecs, Ops};
use ets_term::{Items, Position, Term};
use packed_term::Object;
use std::alloc::AllocError;
use table_ops::Refusal;

/// The calls on objects. Each does and refuses what the same method of `Table` does. If the table is fixed, a slot that
/// loses its last object stays as a tombstone.
#[tactic(auto, using(crate::proofs::TombstoneLaws::no_tombstones))]
impl<R: Rows> Walked<R> {
    /// Returns the objects of a key, oldest first (stdlib manual, ets:lookup/2).
    pub fn lookup(&self, key: &Term) -> &[Object]
        ensures { result.now ≡ objects_under self.now.content.slots key.now }
    {
        self.table.lookup(key)
    }

    /// Returns whether a key has an object (stdlib manual, ets:member/2).
    pub fn member(&self, key: &Term) -> bool
        ensures { result ≡ is_present self.now.content.slots key.now }
    {
        self.table.member(key)
    }

    /// Returns a copy of the element at `position` of the key's object; in a bag, the list of these elements (stdlib
    /// manual, ets:lookup_element/3).
    pub fn lookup_element(&self, key: &Term, position: Position) -> Result<Term, Refusal>
        ensures { ReturnsOrBadarg (lookup_element self.now.content.kind position
            (objects_under self.now.content.slots key.now)) result }
    {
        self.table.lookup_element(key, position)
    }

    /// Returns what `lookup_element` returns, but a copy of `default` if the key has no object (stdlib manual,
    /// ets:lookup_element/4).
    pub fn lookup_element_or(
        &self,
        key: &Term,
        position: Position,
        default: &Term,
    ) -> Result<Term, Refusal>
        ensures { ReturnsOrBadarg (lookup_element_or self.now.content.kind position default.now
            (objects_under self.now.content.slots key.now)) result }
    {
        self.table.lookup_element_or(key, position, default)
    }

    /// Returns copies of all objects, in the order of the slots (stdlib manual, ets:tab2list/1).
    pub fn objects(&self) -> Result<Items<Term>, AllocError>
        ensures { Returns result (all_objects self.now.content.slots) }
    {
        self.table.objects()
    }

    /// Inserts objects, or none of them if one is refused (stdlib manual, ets:insert/2). An object whose key has a
    /// tombstone is inserted in this slot.
    pub fn insert(&mut self, objects: &[Term]) -> Result<(), Refusal>
        ensures { RefinesChange (on_content (Inserts objects.now) self.old) self.old result self.new }
    {
        self.table.insert(objects)
    }

    /// Inserts objects if none of their keys has an object, and returns whether it did (stdlib manual,
    /// ets:insert_new/2).
    pub fn insert_new(&mut self, objects: &[Term]) -> Result<bool, Refusal>
        ensures { RefinesChange (on_content (InsertsNew objects.now) self.old) self.old result self.new }
    {
        self.table.insert_new(objects)
    }

    /// Updates counters of a key's object, or of the Default if the key has none, and returns the new values (stdlib
    /// manual, ets:update_counter/3 and /4).
    #[inline(always)]
    pub fn update_counter(
        &mut self,
        key: &Term,
        ops: &Ops,
        default: Option<&Term>,
    ) -> Result<Term, Refusal>
        ensures { RefinesChange
            (on_content (UpdatesCounter key.now ops.now (option_copied default.entry)) self.old)
            self.old result self.new }
    {
        self.table.update_counter(key, ops, default)
    }

    /// Sets elements of a key's object, or of the Default if the key has none, and returns whether it did (stdlib
    /// manual, ets:update_element/3 and /4).
    pub fn update_element(
        &mut self,
        key: &Term,
        specs: &ElementSpecs,
        default: Option<&Term>,
    ) -> Result<bool, Refusal>
        ensures { RefinesChange
            (on_content (UpdatesElement key.now specs.now (option_copied default.entry)) self.old)
            self.old result self.new }
    {
        self.table.update_element(key, specs, default)
    }

    /// Sets one element of a key's object to a copy of a value, as `update_element` does without a Default.
    #[inline(always)]
    pub fn update_one_element(
        &mut self,
        key: &Term,
        position: Position,
        value: &Term,
    ) -> Result<bool, Refusal>
        ensures { RefinesChange
            (on_content (UpdatesElement key.now
            (elements.One (record { position = position; value = value.now })) None) self.old)
            self.old result self.new }
    {
        self.table.update_one_element(key, position, value)
    }

    /// Deletes the objects of a key (stdlib manual, ets:delete/2).
    pub fn delete_key(&mut self, key: &Term)
        ensures { self.new ≡ after_delete (has_key key.now) self.old }
    {
        let hold = self.fixes.is_fixed();
        self.table.delete_key(key, hold);
    }

    /// Removes and returns the objects of a key, oldest first (stdlib manual, ets:take/2).
    pub fn take(&mut self, key: &Term) -> Result<Items<Term>, AllocError>
        ensures objects { Returns result (objects_under self.old.content.slots key.now) }
        ensures ok { OnOk result (self.new ≡ after_delete (has_key key.now) self.old) }
        ensures err { OnErr result (self.new ≡ self.old) }
    {
        let hold = self.fixes.is_fixed();
        self.table.take(key, hold)
    }

    /// Deletes all objects that equal `object` (stdlib manual, ets:delete_object/2).
    pub fn delete_object(&mut self, object: &Term) -> Result<(), Refusal>
        ensures { on_content (DeletesObject (is_fixed self.old.fixes) object.now)
            self.old result self.new }
    {
        let hold = self.fixes.is_fixed();
        self.table.delete_object(object, hold)
    }

    /// Deletes all objects (stdlib manual, ets:delete_all_objects/1).
    pub fn delete_all(&mut self)
        ensures { self.new ≡ after_delete every_object self.old }
    {
        let hold = self.fixes.is_fixed();
        self.table.delete_all(hold);
    }
}
