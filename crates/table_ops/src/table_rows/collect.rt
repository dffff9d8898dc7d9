//! The results of a query, a pattern or match specification, for the objects of one key or of all keys. `trial` wraps
//! the query, and `looks` counts the tested objects.
ghost use Rattle.std.specs.Prelude.{◌≡◌, ◌≤◌, [], length, is_some, option_copied, filter_map};
ghost use Rattle.bucket_table.specs.Slots.{object_count};
ghost use Rattle.bucket_table.specs.Rows.{HasDistinctKeys};
ghost use Rattle.node_list.specs.Ticks.{tick, ticks};
ghost use Rattle.std.specs.List.{cons_option};
ghost use Rattle.table_ops.specs.Results.{AppendsData};
ghost use Rattle.table_ops.specs.Looks.{looks_of_key, CountsLooks};
ghost use Rattle.table_ops.specs.Content.{objects_under};
ghost use Rattle.table_ops.specs.Read.{all_objects};
ghost use Rattle.table_ops.specs.inside.DeletePlan.{MatchesOnlyKey};

use super::TableRows;
use crate::looks::Looks;
use crate::projection::Projection;
use crate::slots::all_of;
use crate::trial::Trial;
use bucket_table::Rows;
use ets_term::Term;
use packed_term::Object;
use std::alloc::AllocError;

impl<R: Rows> TableRows<R> {
    /// Appends the results of the query for all objects to `results`. If `key` is given, tests only the objects of that
    /// key; the query must then have no result for any other object.
    pub(crate) fn collect<P: Projection>(
        &self,
        trial: &Trial<'_, P>,
        key: Option<&Term>,
        results: &mut Vec<Term>,
        looks: &mut Looks,
    ) -> Result<(), AllocError>
        requires { MatchesOnlyKey (λ object. is_some (P.projects trial.now.query.now object))
            (option_copied key) (R.slots self.now.rows) }
        ensures answers { AppendsData result results.old.items results.new.items
            (filter_map (P.projects trial.now.query.now) (all_objects (R.slots self.now.rows))) }
        ensures looks { CountsLooks result
            (looks_of_key (option_copied key.entry) (R.slots self.now.rows)) looks.old looks.new }
        ensures at_most { looks.new
            ≤ ticks (looks_of_key (option_copied key.entry) (R.slots self.now.rows)) looks.old }
        ensures at_least { looks.old ≤ looks.new }
    {
        // The term into which each object is unpacked for its test.
        let mut scratch = Term::default();
        match key {
            Some(key) => {
                self.collect_from(trial, self.objects_of(key), &mut scratch, results, looks)
            }
            None => self.collect_all(trial, &mut scratch, results, looks),
        }
    }

    /// Returns the objects of a key, oldest first, or an empty slice if the key has none.
    pub(crate) fn objects_of(&self, key: &Term) -> &[Object]
        ensures objects { result.now ≡ objects_under (R.slots self.now.rows) key.now }
        ensures distinct { HasDistinctKeys (R.slots self.now.rows) }
    {
        self.rows.reveal_invariant();
        match self.rows.get(key) {
            Some(objects) => objects,
            None => &[],
        }
    }

    /// Tests all objects and appends the results to `results`.
    #[tactic(auto, using(crate::proofs::QueryLaws::appended))]
    fn collect_all<P: Projection>(
        &self,
        trial: &Trial<'_, P>,
        scratch: &mut Term,
        results: &mut Vec<Term>,
        looks: &mut Looks,
    ) -> Result<(), AllocError>
        ensures answers { AppendsData result results.old.items results.new.items
            (filter_map (P.projects trial.now.query.now) (all_objects (R.slots self.now.rows))) }
        ensures looks { CountsLooks result (object_count (R.slots self.now.rows)) looks.old looks.new }
        ensures at_most { looks.new ≤ ticks (object_count (R.slots self.now.rows)) looks.old }
        ensures at_least { looks.old ≤ looks.new }
    {
        // Reads the counter only for the proof, which learns that the count is a `u64`.
        let _before = looks.count();
        for (_, objects) in all_of(&self.rows) {
            self.collect_from(trial, objects, scratch, results, looks)?;
            // Reads the counter for the same proof, after each slot.
            let _after = looks.count();
        }
        Ok(())
    }

    /// Tests these objects and appends the results to `results`.
    #[inline(always)]
    fn collect_from<P: Projection>(
        &self,
        trial: &Trial<'_, P>,
        objects: &[Object],
        scratch: &mut Term,
        results: &mut Vec<Term>,
        looks: &mut Looks,
    ) -> Result<(), AllocError>
        ensures answers { AppendsData result results.old.items results.new.items
            (filter_map (P.projects trial.now.query.now) objects.now) }
        ensures looks { CountsLooks result (length objects.now) looks.old looks.new }
        ensures at_most { looks.new ≤ ticks (length objects.now) looks.old }
        ensures at_least { looks.old ≤ looks.new }
    {
        // Reads the counter only for the proof, which learns that the count is a `u64`.
        let _before = looks.count();
        for object in objects {
            self.collect_one(trial, object, scratch, results, looks)?;
        }
        Ok(())
    }

    /// Tests one object and appends its result to `results`, if it has one.
    #[inline(always)]
    fn collect_one<P: Projection>(
        &self,
        trial: &Trial<'_, P>,
        object: &Object,
        scratch: &mut Term,
        results: &mut Vec<Term>,
        looks: &mut Looks,
    ) -> Result<(), AllocError>
        ensures answers { AppendsData result results.old.items results.new.items
            (cons_option (P.projects trial.now.query.now object.now) []) }
        ensures looks { looks.new ≡ tick looks.old }
    {
        if let Some(answer) = trial.result_of(self.alloc, object, scratch, looks)? {
            results.push(answer)?;
        }
        Ok(())
    }
}
