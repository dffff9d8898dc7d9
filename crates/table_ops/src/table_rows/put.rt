//! The insertion of one object by the kind of the table. Its result is an `Undo`, which says how to undo the insertion.
//! An entry is the result of the search for the key: the place (index) of the key's slot, or the hash of a missing key.
ghost use Rattle.std.specs.Prelude.{◌≡◌, ◌||◌, None, IsSome, nat_lt};
ghost use Rattle.bucket_table.specs.Slots.{objects_of, has_objects};
ghost use Rattle.bucket_table.specs.Entries.{IsEntry};
ghost use Rattle.table_ops.specs.declared.kind.Kind.TheVariants.{Set, Bag, DuplicateBag};
ghost use Rattle.table_ops.specs.Update.{is_set};
ghost use Rattle.table_ops.specs.Content.{objects_under};
ghost use Rattle.table_ops.specs.Invariants.{FitsKind};
ghost use Rattle.table_ops.specs.inside.TableRows.{ChangesSlotsOnly};
ghost use Rattle.table_ops.specs.inside.Undo.{ForKey, PutsOne, PutsAt};

use super::TableRows;
use crate::kind::Kind;
use crate::object::contains;
use crate::refusal::Refusal;
use crate::undo::Undo;
use bucket_table::{Place, Rows, SlotEntry};
use ets_term::Term;
use node_list::Chain;
use packed_term::Object;

impl<R: Rows> TableRows<R> {
    /// Inserts a copy of one object and returns how to undo it. `entry` is the result of the search for its key, and
    /// `count` is the number of objects of the table.
    pub(crate) fn put(
        &mut self,
        count: usize,
        entry: SlotEntry,
        key: &Term,
        object: &Term,
    ) -> Result<Undo, Refusal>
        requires entry { IsEntry (R.slots self.old.rows) (R.hash_of self.old.rows)
            (R.key_at self.old.rows) key.now entry }
        requires kind { FitsKind self.old.kind (objects_under (R.slots self.old.rows) key.now) }
        ensures slots { PutsOne (nat_lt count self.old.limit) self.old.kind key.now object.now
            (R.slots self.old.rows) result (R.slots self.new.rows) }
        ensures keeps { ChangesSlotsOnly R.readiness self.old self.new }
    {
        let below_limit = count < self.limit as usize;
        match entry {
            SlotEntry::Vacant(hash) => self.put_new(below_limit, hash, key, object),
            SlotEntry::Occupied(place) => self.put_in_slot(below_limit, place, object),
        }
    }

    /// Inserts a copy of one object in the slot at a place, by the kind of the table, and returns how to undo it.
    /// `below_limit` says whether the table may have one more object.
    pub(crate) fn put_in_slot(
        &mut self,
        below_limit: bool,
        place: Place,
        object: &Term,
    ) -> Result<Undo, Refusal>
        requires { ForKey (R.key_at self.old.rows place) (λ key.
            FitsKind self.old.kind (objects_under (R.slots self.old.rows) key)) }
        ensures slots { PutsAt below_limit self.old.kind (R.key_at self.old.rows place) object.now
            (R.slots self.old.rows) result (R.slots self.new.rows) }
        ensures keeps { ChangesSlotsOnly R.readiness self.old self.new }
    {
        match self.kind {
            Kind::Set => self.put_in_set(below_limit, place, object),
            Kind::Bag => self.put_in_bag(below_limit, place, object),
            Kind::DuplicateBag => self.put_last(below_limit, place, object),
        }
    }

    /// Inserts a new slot with copies of the key and this object. The key must have no slot, and `hash` must be the
    /// key's hash.
    fn put_new(
        &mut self,
        below_limit: bool,
        hash: u32,
        key: &Term,
        object: &Term,
    ) -> Result<Undo, Refusal>
        requires new { objects_of (R.slots self.old.rows) key.now ≡ None }
        requires hash { hash ≡ R.hash_of self.old.rows key.now }
        ensures slots { PutsOne below_limit self.old.kind key.now object.now
            (R.slots self.old.rows) result (R.slots self.new.rows) }
        ensures keeps { ChangesSlotsOnly R.readiness self.old self.new }
    {
        if !below_limit {
            return Err(Refusal::SystemLimit);
        }
        let packed = Object::pack(self.alloc, object)?;
        let chain = Chain::one(self.alloc, packed);
        self.rows.put_at(hash, key, chain)?;
        Ok(Undo::NewSlot)
    }

    /// Puts the object in a set's slot. The object replaces the old object, unless the slot is a tombstone.
    fn put_in_set(
        &mut self,
        below_limit: bool,
        place: Place,
        object: &Term,
    ) -> Result<Undo, Refusal>
        requires { ForKey (R.key_at self.old.rows place) (λ key.
            FitsKind Set (objects_under (R.slots self.old.rows) key)) }
        ensures slots { PutsAt below_limit Set (R.key_at self.old.rows place) object.now
            (R.slots self.old.rows) result (R.slots self.new.rows) }
        ensures keeps { ChangesSlotsOnly R.readiness self.old self.new }
    {
        if !may_insert(below_limit, self.rows.objects_at(place)) {
            return Err(Refusal::SystemLimit);
        }
        let packed = Object::pack(self.alloc, object)?;
        let old_objects = self.rows.replace_at(place, Chain::one(self.alloc, packed));
        Ok(Undo::Objects(old_objects))
    }

    /// Returns whether the table is a set.
    pub(crate) fn is_set(&self) -> bool
        ensures { result ≡ is_set self.now.kind }
    {
        self.kind == Kind::Set
    }

    /// Appends an object to the slot of a bag, unless the slot has an equal object.
    fn put_in_bag(
        &mut self,
        below_limit: bool,
        place: Place,
        object: &Term,
    ) -> Result<Undo, Refusal>
        requires { IsSome (R.key_at self.old.rows place) }
        ensures slots { PutsAt below_limit Bag (R.key_at self.old.rows place) object.now
            (R.slots self.old.rows) result (R.slots self.new.rows) }
        ensures keeps { ChangesSlotsOnly R.readiness self.old self.new }
    {
        if contains(self.rows.objects_at(place), object) {
            return Ok(Undo::Nothing);
        }
        self.put_last(below_limit, place, object)
    }

    /// Appends an object to a slot, after all its other objects.
    fn put_last(&mut self, below_limit: bool, place: Place, object: &Term) -> Result<Undo, Refusal>
        requires { IsSome (R.key_at self.old.rows place) }
        ensures slots { PutsAt below_limit DuplicateBag (R.key_at self.old.rows place) object.now
            (R.slots self.old.rows) result (R.slots self.new.rows) }
        ensures keeps { ChangesSlotsOnly R.readiness self.old self.new }
    {
        if !below_limit {
            return Err(Refusal::SystemLimit);
        }
        let packed = Object::pack(self.alloc, object)?;
        // Takes the objects out of the slot, appends the object, and puts them back, also if memory runs out.
        let mut objects = self.rows.replace_at(place, Chain::new(self.alloc));
        let pushed = objects.push(packed);
        let _ = self.rows.replace_at(place, objects);
        let Ok(()) = pushed else {
            return Err(Refusal::Memory);
        };
        Ok(Undo::LastObject)
    }
}

/// Returns whether an object may be inserted in a slot of a set: one more object is allowed, or the new object replaces
/// one.
fn may_insert(below_limit: bool, objects: &[Object]) -> bool
    ensures { result ≡ (below_limit || has_objects objects.now) }
{
    below_limit || !objects.is_empty()
}
