//! The insertion of a list of objects, all or none, and of a single object. An undo log records how to undo each
//! insertion, and a place is the index of a slot.
ghost use Rattle.std.specs.Prelude.{◌≡◌, ◌≤◌, ◌∷◌, [], true, false, length, nat_lt};
ghost use Rattle.std.specs.List.{list_all, list_any};
ghost use Rattle.ets_term.specs.Depth.{is_too_deep};
ghost use Rattle.table_ops.specs.Content.{is_object, key_of};
ghost use Rattle.table_ops.specs.Invariants.{AreSlots};
ghost use Rattle.table_ops.specs.inside.TableRows.{ChangesSlotsOnly, TableRowsInvariant};
ghost use Rattle.table_ops.specs.inside.Undo.{PutsObject, PutsEach, after_undo, after_roll_back};

use super::TableRows;
use crate::object::key_of;
use crate::refusal::Refusal;
use crate::undo::Undo;
use bucket_table::{Place, Rows, SlotEntry};
use ets_term::Term;
use node_list::Chain;
use packed_term::Object;

impl<R: Rows> TableRows<R> {
    /// Inserts a copy of a single object, without an undo log. `before` is the number of objects of the table. Returns
    /// their number after the insertion. If the key has no slot, inserts a new slot.
    pub(crate) fn put_one(&mut self, before: usize, object: &Term) -> Result<usize, Refusal>
        requires object { is_object self.old.keypos object.now ≡ true }
        requires holds { TableRowsInvariant R.slots self.old before }
        ensures slots { PutsEach self.old.limit self.old.kind self.old.keypos (object.now ∷ [])
            (R.slots self.old.rows) result (R.slots self.new.rows) }
        ensures keeps { ChangesSlotsOnly R.readiness self.old self.new }
    {
        let Some(key) = key_of(self.keypos, object) else {
            unreachable!()
        };
        match self.rows.entry(key) {
            SlotEntry::Vacant(hash) => {
                if before >= self.limit as usize {
                    return Err(Refusal::SystemLimit);
                }
                let packed = Object::pack(self.alloc, object)?;
                let chain = Chain::one(self.alloc, packed);
                self.rows.put_at(hash, key, chain)?;
                Ok(before + 1)
            }
            SlotEntry::Occupied(place) => self.put_one_at(before, place, object),
        }
    }

    /// Inserts a copy of a single object in the slot of its key, which is at `place`. In a set, the new object replaces
    /// the old object, if the slot has one. `before` is the number of objects of the table. Returns their number after
    /// the insertion.
    #[inline(never)]
    fn put_one_at(&mut self, before: usize, place: Place, object: &Term) -> Result<usize, Refusal>
        requires object { is_object self.old.keypos object.now ≡ true }
        requires place { R.key_at self.old.rows place ≡ key_of self.old.keypos object.now }
        requires holds { TableRowsInvariant R.slots self.old before }
        ensures slots { PutsEach self.old.limit self.old.kind self.old.keypos (object.now ∷ [])
            (R.slots self.old.rows) result (R.slots self.new.rows) }
        ensures keeps { ChangesSlotsOnly R.readiness self.old self.new }
    {
        if self.is_set() && !self.rows.objects_at(place).is_empty() {
            let packed = Object::pack(self.alloc, object)?;
            let _ = self.rows.replace_one_at(place, packed);
            return Ok(before);
        }
        let undo = self.put_in_slot(before < self.limit as usize, place, object)?;
        Ok(before + undo.added_objects())
    }

    /// Inserts copies of objects one after another. If one is refused, undoes the earlier insertions by an undo log.
    /// `before` is the number of objects of the table. Returns their number after the insertions.
    pub(crate) fn put_all(&mut self, before: usize, objects: &[Term]) -> Result<usize, Refusal>
        requires objects { list_all (is_object self.old.keypos) objects.now ≡ true }
        requires holds { TableRowsInvariant R.slots self.old before }
        requires shallow { list_any is_too_deep objects.now ≡ false }
        ensures slots { PutsEach self.old.limit self.old.kind self.old.keypos objects.now
            (R.slots self.old.rows) result (R.slots self.new.rows) }
        ensures keeps { ChangesSlotsOnly R.readiness self.old self.new }
    {
        let mut count = before;
        let mut undo_log = Vec::with_capacity(self.alloc, objects.len())?;
        for object in objects {
            match self.put_object(count, object) {
                Ok(undo) => {
                    count += undo.added_objects();
                    undo_log.push_reserved(undo);
                }
                Err(refusal) => {
                    self.roll_back(objects, undo_log);
                    return Err(refusal);
                }
            }
        }
        Ok(count)
    }

    /// Inserts a copy of one object, and returns how to undo the insertion. `count` is the number of objects of the table.
    fn put_object(&mut self, count: usize, object: &Term) -> Result<Undo, Refusal>
        requires object { is_object self.old.keypos object.now ≡ true }
        requires slots { AreSlots self.old.kind self.old.keypos (R.slots self.old.rows) }
        ensures slots { PutsObject (nat_lt count self.old.limit) self.old.kind self.old.keypos object.now
            (R.slots self.old.rows) result (R.slots self.new.rows) }
        ensures keeps { ChangesSlotsOnly R.readiness self.old self.new }
    {
        let Some(key) = key_of(self.keypos, object) else {
            unreachable!()
        };
        let entry = self.rows.entry(key);
        self.put(count, entry, key, object)
    }

    /// Undoes the insertions in an undo log, the last first. Element `i` of the log undoes the insertion of
    /// `objects[i]`. The log may be shorter than `objects`.
    fn roll_back(&mut self, objects: &[Term], mut undo_log: Vec<Undo>)
        requires objects { list_all (is_object self.old.keypos) objects.now ≡ true }
        requires long { length undo_log.items ≤ length objects.now }
        ensures slots { R.slots self.new.rows
            ≡ after_roll_back self.old.keypos undo_log.items objects.now (R.slots self.old.rows) }
        ensures keeps { ChangesSlotsOnly R.readiness self.old self.new }
    {
        while let Some(undo) = undo_log.pop() {
            // After the `pop`, the length of the log is the index of the popped element.
            let Some(key) = key_of(self.keypos, &objects[undo_log.len()]) else {
                unreachable!()
            };
            self.undo(key, undo);
        }
    }

    /// Undoes the last insertion of an object with this key, as `undo` says. Changes nothing if the key has no slot.
    #[tactic(auto, using(crate::proofs::SlotLaws::slot_laws))]
    fn undo(&mut self, key: &Term, undo: Undo)
        ensures slots { R.slots self.new.rows ≡ after_undo undo key.now (R.slots self.old.rows) }
        ensures keeps { ChangesSlotsOnly R.readiness self.old self.new }
    {
        let Some(place) = self.rows.find(key) else {
            return;
        };
        match undo {
            Undo::NewSlot => {
                let _ = self.rows.delete_at(place);
            }
            Undo::Objects(objects) => {
                let _ = self.rows.replace_at(place, objects);
            }
            Undo::LastObject => {
                let mut objects = self.rows.replace_at(place, Chain::new(self.alloc));
                let _ = objects.pop();
                let _ = self.rows.replace_at(place, objects);
            }
            Undo::Nothing => {}
        }
    }
}
