//! The deletion of the objects that a query chooses: a plan takes all memory, and then the changes of slots take none.
//! `trial` wraps the query, `looks` counts the tested objects, and `hold` keeps an emptied slot as a tombstone.
ghost use Rattle.std.specs.Prelude.{◌≡◌, ◌≤◌, ◌<◌, ◌^◌, ◌++◌, [], Some, true, is_some, length, option_copied, OnOk};
ghost use Rattle.bucket_table.specs.Slots.{object_count};
ghost use Rattle.node_list.specs.Ticks.{ticks};
ghost use Rattle.table_ops.specs.Results.{Returns, chosen_count};
ghost use Rattle.table_ops.specs.Looks.{looks_of_key, CountsLooks};
ghost use Rattle.table_ops.specs.Content.{objects_under};
ghost use Rattle.table_ops.specs.Read.{all_objects};
ghost use Rattle.table_ops.specs.inside.DeletePlan.{MatchesOnlyKey, plan_of, plan_at, with_kept, after_plan, KeepsPlacesBefore, AreInOrder};
ghost use Rattle.table_ops.specs.inside.TableRows.{ChangesSlotsOnly};

use super::TableRows;
use crate::delete_plan::{DeletePlan, SlotDelete};
use crate::looks::Looks;
use crate::predicate::Predicate;
use crate::trial::Trial;
use bucket_table::Rows;
use ets_term::Term;
use std::alloc::AllocError;

impl<R: Rows> TableRows<R> {
    /// Adds the deletion of all chosen objects to `plan`, which must be empty, and returns their number. If `key` is
    /// given, tests only the objects of that key; the query must then choose no other object.
    pub(crate) fn plan<P: Predicate>(
        &self,
        trial: &Trial<'_, P>,
        key: Option<&Term>,
        plan: &mut DeletePlan,
        looks: &mut Looks,
    ) -> Result<usize, AllocError>
        requires empty { plan.old.list.items ≡ [] }
        requires few { object_count (R.slots self.now.rows) < 2 ^ 32 }
        requires only_key { MatchesOnlyKey (P.tests trial.now.query.now) (option_copied key)
            (R.slots self.now.rows) }
        ensures count { Returns result
            (chosen_count (P.tests trial.now.query.now) (all_objects (R.slots self.now.rows))) }
        ensures looks { CountsLooks result
            (looks_of_key (option_copied key.entry) (R.slots self.now.rows)) looks.old looks.new }
        ensures at_most { looks.new
            ≤ ticks (looks_of_key (option_copied key.entry) (R.slots self.now.rows)) looks.old }
        ensures at_least { looks.old ≤ looks.new }
        ensures plan { OnOk result
            (plan_at (R.key_at self.now.rows) plan.new.list.items
            ≡ plan_of (P.tests trial.now.query.now) (R.slots self.now.rows)) }
    {
        // The term into which each object is unpacked for its test.
        let mut scratch = Term::default();
        match key {
            Some(key) => self.plan_key(trial, key, plan, &mut scratch, looks),
            None => self.plan_all(trial, plan, &mut scratch, looks),
        }
    }

    /// Plans the deletion of the chosen objects of a key and returns their number. If the key has no slot, returns 0.
    fn plan_key<P: Predicate>(
        &self,
        trial: &Trial<'_, P>,
        key: &Term,
        plan: &mut DeletePlan,
        scratch: &mut Term,
        looks: &mut Looks,
    ) -> Result<usize, AllocError>
        requires empty { plan.old.list.items ≡ [] }
        requires only_key { MatchesOnlyKey (P.tests trial.now.query.now) (Some key.now)
            (R.slots self.now.rows) }
        ensures count { Returns result
            (chosen_count (P.tests trial.now.query.now) (all_objects (R.slots self.now.rows))) }
        ensures looks { CountsLooks result
            (length (objects_under (R.slots self.now.rows) key.now)) looks.old looks.new }
        ensures at_most { looks.new
            ≤ ticks (length (objects_under (R.slots self.now.rows) key.now)) looks.old }
        ensures at_least { looks.old ≤ looks.new }
        ensures plan { OnOk result
            (plan_at (R.key_at self.now.rows) plan.new.list.items
            ≡ plan_of (P.tests trial.now.query.now) (R.slots self.now.rows)) }
    {
        // Reads the counter only for the proof, which learns that the count is a `u64`.
        let _before = looks.count();
        let Some(place) = self.find(key) else {
            return Ok(0);
        };
        plan.plan_slot(trial, place, self.rows.objects_at(place), scratch, looks)
    }

    /// Tests all objects, plans the deletion of the chosen objects and returns their number. The sum cannot overflow,
    /// because the rows have fewer than 2^32 objects (`few`).
    fn plan_all<P: Predicate>(
        &self,
        trial: &Trial<'_, P>,
        plan: &mut DeletePlan,
        scratch: &mut Term,
        looks: &mut Looks,
    ) -> Result<usize, AllocError>
        requires few { object_count (R.slots self.now.rows) < 2 ^ 32 }
        ensures count { Returns result
            (chosen_count (P.tests trial.now.query.now) (all_objects (R.slots self.now.rows))) }
        ensures looks { CountsLooks result (object_count (R.slots self.now.rows)) looks.old looks.new }
        ensures at_most { looks.new ≤ ticks (object_count (R.slots self.now.rows)) looks.old }
        ensures at_least { looks.old ≤ looks.new }
        ensures plan { OnOk result
            (plan_at (R.key_at self.now.rows) plan.new.list.items
            ≡ plan_at (R.key_at self.now.rows) plan.old.list.items
            ++ plan_of (P.tests trial.now.query.now) (R.slots self.now.rows)) }
    {
        // Reads the counter only for the proof, which learns that the count is a `u64`.
        let _before = looks.count();
        self.rows.reveal_invariant();
        let mut total = 0;
        // The place of the next slot, or `None` after the last slot.
        let mut at = self.rows.first_place();
        for _ in 0..self.rows.len() {
            let Some(place) = at else { unreachable!() };
            let (_, objects) = self.rows.slot_at(place);
            total += plan.plan_slot(trial, place, objects, scratch, looks)?;
            at = self.rows.next_place(place);
        }
        Ok(total)
    }

    /// Executes a plan, from its last slot to its first. The changes take no memory. A change of a slot keeps the
    /// places of the slots before it. So the places in the rest of the plan stay valid.
    pub(crate) fn apply(&mut self, hold: bool, mut plan: DeletePlan)
        requires { AreInOrder (R.slots self.old.rows)
            (plan_at (R.key_at self.old.rows) plan.list.items) }
        ensures slots { R.slots self.new.rows ≡ after_plan hold
            (plan_at (R.key_at self.old.rows) plan.list.items) (R.slots self.old.rows) }
        ensures keeps { ChangesSlotsOnly R.readiness self.old self.new }
    {
        while let Some(delete) = plan.list.pop() {
            self.rows.reveal_invariant();
            self.apply_one(hold, delete);
        }
    }

    /// Replaces the objects of one slot by the kept objects. If none is kept, removes the slot, or makes it a tombstone
    /// if `hold` is true.
    fn apply_one(&mut self, hold: bool, delete: SlotDelete)
        requires { is_some (R.key_at self.old.rows delete.place) ≡ true }
        ensures slots { R.slots self.new.rows ≡ with_kept hold
            (R.key_at self.old.rows delete.place) delete.kept (R.slots self.old.rows) }
        ensures places { KeepsPlacesBefore (R.slots self.old.rows)
            (R.key_at self.old.rows) (R.key_at self.new.rows) delete.place }
        ensures keeps { ChangesSlotsOnly R.readiness self.old self.new }
    {
        let SlotDelete { place, kept } = delete;
        if hold || kept.len() > 0 {
            // Drops the old objects. The plan made copies of those that stay.
            let _ = self.rows.replace_at(place, kept);
        } else {
            // Ignores the number of objects in the slot: `plan` has counted them.
            let _ = self.rows.delete_at(place);
        }
    }
}
