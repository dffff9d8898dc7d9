//! The number of objects that a query chooses, among the objects of one key or of all keys. `trial` wraps the query,
//! and `looks` counts the tested objects.
ghost use Rattle.std.specs.Prelude.{◌≡◌, ◌≤◌, ◌<◌, ◌^◌, [], ◌∷◌, length, option_copied, IfOk};
ghost use Rattle.bucket_table.specs.Slots.{object_count};
ghost use Rattle.node_list.specs.Ticks.{tick, ticks};
ghost use Rattle.table_ops.specs.Results.{Returns, chosen_count};
ghost use Rattle.table_ops.specs.Looks.{looks_of_key, CountsLooks};
ghost use Rattle.table_ops.specs.Read.{all_objects};
ghost use Rattle.table_ops.specs.inside.DeletePlan.{MatchesOnlyKey};

use super::TableRows;
use crate::looks::Looks;
use crate::predicate::Predicate;
use crate::slots::all_of;
use crate::trial::Trial;
use bucket_table::Rows;
use ets_term::Term;
use packed_term::Object;
use std::alloc::AllocError;

impl<R: Rows> TableRows<R> {
    /// Returns the number of chosen objects. If `key` is given, tests only the objects of that key; the query must then
    /// choose no other object.
    pub(crate) fn count<P: Predicate>(
        &self,
        trial: &Trial<'_, P>,
        key: Option<&Term>,
        looks: &mut Looks,
    ) -> Result<usize, AllocError>
        requires few { object_count (R.slots self.now.rows) < 2 ^ 32 }
        requires only_key { MatchesOnlyKey (P.tests trial.now.query.now) (option_copied key)
            (R.slots self.now.rows) }
        ensures count { Returns result
            (chosen_count (P.tests trial.now.query.now) (all_objects (R.slots self.now.rows))) }
        ensures looks { CountsLooks result
            (looks_of_key (option_copied key.entry) (R.slots self.now.rows)) looks.old looks.new }
        ensures at_most { looks.new
            ≤ ticks (looks_of_key (option_copied key.entry) (R.slots self.now.rows)) looks.old }
        ensures at_least { looks.old ≤ looks.new }
    {
        // The term into which each object is unpacked for its test.
        let mut scratch = Term::default();
        match key {
            Some(key) => self.count_in(trial, self.objects_of(key), &mut scratch, looks),
            None => self.count_all(trial, &mut scratch, looks),
        }
    }

    /// Tests all objects and returns the number of chosen objects. The sum cannot overflow, because the rows have fewer
    /// than 2^32 objects (`few`).
    #[tactic(auto, using(crate::proofs::QueryLaws::appended))]
    fn count_all<P: Predicate>(
        &self,
        trial: &Trial<'_, P>,
        scratch: &mut Term,
        looks: &mut Looks,
    ) -> Result<usize, AllocError>
        requires few { object_count (R.slots self.now.rows) < 2 ^ 32 }
        ensures count { Returns result
            (chosen_count (P.tests trial.now.query.now) (all_objects (R.slots self.now.rows))) }
        ensures looks { CountsLooks result (object_count (R.slots self.now.rows)) looks.old looks.new }
        ensures at_most { looks.new ≤ ticks (object_count (R.slots self.now.rows)) looks.old }
        ensures at_least { looks.old ≤ looks.new }
    {
        // Reads the counter only for the proof, which learns that the count is a `u64`.
        let _before = looks.count();
        let mut total = 0;
        for (_, objects) in all_of(&self.rows) {
            total += self.count_in(trial, objects, scratch, looks)?;
            // Reads the counter for the same proof, after each slot.
            let _after = looks.count();
        }
        Ok(total)
    }

    /// Tests these objects and returns the number of chosen objects.
    fn count_in<P: Predicate>(
        &self,
        trial: &Trial<'_, P>,
        objects: &[Object],
        scratch: &mut Term,
        looks: &mut Looks,
    ) -> Result<usize, AllocError>
        ensures count { Returns result (chosen_count (P.tests trial.now.query.now) objects.now) }
        ensures looks { CountsLooks result (length objects.now) looks.old looks.new }
        ensures at_most { looks.new ≤ ticks (length objects.now) looks.old }
        ensures at_least { looks.old ≤ looks.new }
    {
        // Reads the counter only for the proof, which learns that the count is a `u64`.
        let _before = looks.count();
        let mut count = 0;
        for i in 0..objects.len() {
            count += self.count_one(trial, &objects[i], scratch, looks)?;
        }
        Ok(count)
    }

    /// Tests one object: returns 1 if it is chosen, else 0.
    fn count_one<P: Predicate>(
        &self,
        trial: &Trial<'_, P>,
        object: &Object,
        scratch: &mut Term,
        looks: &mut Looks,
    ) -> Result<usize, AllocError>
        ensures count { Returns result
            (chosen_count (P.tests trial.now.query.now) (object.now ∷ [])) }
        ensures one { IfOk result (λ count. count ≤ 1) }
        ensures looks { looks.new ≡ tick looks.old }
    {
        if trial.chooses(self.alloc, object, scratch, looks)? {
            return Ok(1);
        }
        Ok(0)
    }
}
