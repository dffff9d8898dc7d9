//! The calls that match, select, count or delete objects by a pattern or match specification. A pattern *chooses* the
//! objects that match it, and a match specification those for which its result is `true`. `trial` wraps the pattern or
//! match specification, and `looks` counts the tested objects. `hold` keeps an emptied slot as a tombstone, a slot
//! without objects.
ghost use Rattle.std.specs.Prelude.{◌≡◌, ◌≤◌, ◌<◌, ◌^◌, is_some, IfOk, OnOk, OnErr, option_copied};
ghost use Rattle.node_list.specs.Ticks.{ticks};
ghost use Rattle.table_ops.specs.Results.{without_chosen, Returns, matching_in, ReturnsAllData};
ghost use Rattle.table_ops.specs.Queries.{bound_in, matches, spec_result, is_chosen, answers_in, chosen_in};
ghost use Rattle.table_ops.specs.Looks.{looks_of_key, looks_of_pattern, looks_of_spec, CountsLooks};
ghost use Rattle.table_ops.specs.inside.DeletePlan.{RequiresKey};

use super::Table;
use crate::delete_plan::DeletePlan;
use crate::looks::Looks;
use crate::predicate::Predicate;
use crate::projection::{MatchedObject, Projection};
use crate::trial::Trial;
use bucket_table::Rows;
use ets_term::{Items, Position, Term};
use match_spec::{Pattern, Spec};
use std::alloc::AllocError;

impl<R: Rows> Table<R> {
    /// Returns, for each object that matches, the list of the values of the variables, in order of the variables'
    /// numbers. The lists are in the order of the slots (stdlib manual, ets:match/2).
    pub fn matches(&self, pattern: &Pattern) -> Result<Items<Term>, AllocError>
        ensures { ReturnsAllData result (answers_in (bound_in pattern.now) self.now.content) }
    {
        let mut looks = Looks::new();
        self.matches_counted(pattern, &mut looks)
    }

    /// Does `matches` and counts the tested objects: those of the bound key if the pattern has one, else all.
    pub fn matches_counted(
        &self,
        pattern: &Pattern,
        looks: &mut Looks,
    ) -> Result<Items<Term>, AllocError>
        ensures answers { ReturnsAllData result
            (answers_in (bound_in pattern.now) self.now.content) }
        ensures looks { CountsLooks result
            (looks_of_pattern pattern.now self.now.content) looks.old looks.new }
        ensures at_most { looks.new ≤ ticks (looks_of_pattern pattern.now self.now.content) looks.old }
        ensures at_least { looks.old ≤ looks.new }
    {
        let key = pattern.bound_key(self.inner.keypos as Position);
        self.collect(&Trial::new(pattern), key, looks)
    }

    /// Returns copies of the objects that match, in the order of the slots (stdlib manual, ets:match_object/2).
    pub fn match_objects(&self, pattern: &Pattern) -> Result<Items<Term>, AllocError>
        ensures { Returns result (matching_in pattern.now self.now.content) }
    {
        let mut looks = Looks::new();
        self.match_objects_counted(pattern, &mut looks)
    }

    /// Does `match_objects` and counts the tested objects as `matches_counted` does.
    pub fn match_objects_counted(
        &self,
        pattern: &Pattern,
        looks: &mut Looks,
    ) -> Result<Items<Term>, AllocError>
        ensures objects { Returns result (matching_in pattern.now self.now.content) }
        ensures looks { CountsLooks result
            (looks_of_pattern pattern.now self.now.content) looks.old looks.new }
        ensures at_most { looks.new ≤ ticks (looks_of_pattern pattern.now self.now.content) looks.old }
        ensures at_least { looks.old ≤ looks.new }
    {
        let object = MatchedObject { pattern };
        let key = pattern.bound_key(self.inner.keypos as Position);
        self.collect(&Trial::new(&object), key, looks)
    }

    /// Returns the result of the match specification for each object that has one, in the order of the slots (stdlib
    /// manual, ets:select/2).
    pub fn select(&self, spec: &Spec) -> Result<Items<Term>, AllocError>
        ensures { ReturnsAllData result (answers_in (spec_result spec.now) self.now.content) }
    {
        let mut looks = Looks::new();
        self.select_counted(spec, &mut looks)
    }

    /// Does `select` and counts the tested objects: those of the bound key if all clauses bind the same key, else all.
    pub fn select_counted(&self, spec: &Spec, looks: &mut Looks) -> Result<Items<Term>, AllocError>
        ensures answers { ReturnsAllData result (answers_in (spec_result spec.now) self.now.content) }
        ensures looks { CountsLooks result (looks_of_spec spec.now self.now.content) looks.old looks.new }
        ensures at_most { looks.new ≤ ticks (looks_of_spec spec.now self.now.content) looks.old }
        ensures at_least { looks.old ≤ looks.new }
    {
        let key = spec.bound_key(self.inner.keypos as Position);
        self.collect(&Trial::new(spec), key, looks)
    }

    /// Returns the number of objects for which the result of the match specification is `true`, at most 4,294,967,295
    /// (stdlib manual, ets:select_count/2).
    pub fn select_count(&self, spec: &Spec) -> Result<usize, AllocError>
        ensures count { Returns result (chosen_in (is_chosen spec.now) self.now.content) }
        ensures few { IfOk result (λ count. count < 2 ^ 32) }
    {
        let mut looks = Looks::new();
        self.select_count_counted(spec, &mut looks)
    }

    /// Does `select_count` and counts the tested objects as `select_counted` does.
    pub fn select_count_counted(&self, spec: &Spec, looks: &mut Looks) -> Result<usize, AllocError>
        ensures count { Returns result (chosen_in (is_chosen spec.now) self.now.content) }
        ensures few { IfOk result (λ count. count < 2 ^ 32) }
        ensures looks { CountsLooks result (looks_of_spec spec.now self.now.content) looks.old looks.new }
        ensures at_most { looks.new ≤ ticks (looks_of_spec spec.now self.now.content) looks.old }
        ensures at_least { looks.old ≤ looks.new }
    {
        let key = spec.bound_key(self.inner.keypos as Position);
        self.count_matching(&Trial::new(spec), key, looks)
    }

    /// Deletes the objects that match (stdlib manual, ets:match_delete/2). A slot that loses its last object stays as a
    /// tombstone if `hold` is true. If memory runs out, it changes nothing.
    pub fn match_delete(&mut self, pattern: &Pattern, hold: bool) -> Result<(), AllocError>
        ensures content { OnOk result
            (self.new.content ≡ without_chosen hold (matches pattern.now) self.old.content) }
        ensures err { OnErr result (self.new.content ≡ self.old.content) }
        ensures buckets { self.new.buckets ≡ self.old.buckets }
    {
        let mut looks = Looks::new();
        self.match_delete_counted(pattern, hold, &mut looks)
    }

    /// Does `match_delete` and counts the tested objects as `matches_counted` does.
    pub fn match_delete_counted(
        &mut self,
        pattern: &Pattern,
        hold: bool,
        looks: &mut Looks,
    ) -> Result<(), AllocError>
        ensures content { OnOk result
            (self.new.content ≡ without_chosen hold (matches pattern.now) self.old.content) }
        ensures err { OnErr result (self.new.content ≡ self.old.content) }
        ensures looks { CountsLooks result
            (looks_of_pattern pattern.now self.old.content) looks.old looks.new }
        ensures at_most { looks.new ≤ ticks (looks_of_pattern pattern.now self.old.content) looks.old }
        ensures at_least { looks.old ≤ looks.new }
        ensures buckets { self.new.buckets ≡ self.old.buckets }
    {
        let key = pattern.bound_key(self.inner.keypos as Position);
        // The number of deleted objects, which `match_delete` does not return.
        let _gone = self.delete_matching(&Trial::new(pattern), key, hold, looks)?;
        Ok(())
    }

    /// Deletes the objects for which the result of the match specification is `true` and returns their number (stdlib
    /// manual, ets:select_delete/2). A slot that loses its last object stays as a tombstone if `hold` is true. If
    /// memory runs out, it changes nothing.
    pub fn select_delete(&mut self, spec: &Spec, hold: bool) -> Result<usize, AllocError>
        ensures count { Returns result (chosen_in (is_chosen spec.now) self.old.content) }
        ensures few { IfOk result (λ count. count < 2 ^ 32) }
        ensures content { OnOk result
            (self.new.content ≡ without_chosen hold (is_chosen spec.now) self.old.content) }
        ensures err { OnErr result (self.new.content ≡ self.old.content) }
        ensures buckets { self.new.buckets ≡ self.old.buckets }
    {
        let mut looks = Looks::new();
        self.select_delete_counted(spec, hold, &mut looks)
    }

    /// Does `select_delete` and counts the tested objects as `select_counted` does.
    pub fn select_delete_counted(
        &mut self,
        spec: &Spec,
        hold: bool,
        looks: &mut Looks,
    ) -> Result<usize, AllocError>
        ensures count { Returns result (chosen_in (is_chosen spec.now) self.old.content) }
        ensures few { IfOk result (λ count. count < 2 ^ 32) }
        ensures content { OnOk result
            (self.new.content ≡ without_chosen hold (is_chosen spec.now) self.old.content) }
        ensures err { OnErr result (self.new.content ≡ self.old.content) }
        ensures looks { CountsLooks result (looks_of_spec spec.now self.old.content) looks.old looks.new }
        ensures at_most { looks.new ≤ ticks (looks_of_spec spec.now self.old.content) looks.old }
        ensures at_least { looks.old ≤ looks.new }
        ensures buckets { self.new.buckets ≡ self.old.buckets }
    {
        let key = spec.bound_key(self.inner.keypos as Position);
        self.delete_matching(&Trial::new(spec), key, hold, looks)
    }

    /// Returns the results of a query. If `key` is given, tests only the objects of this key. The query must then have
    /// no result for any other object.
    fn collect<P: Projection>(
        &self,
        trial: &Trial<'_, P>,
        key: Option<&Term>,
        looks: &mut Looks,
    ) -> Result<Items<Term>, AllocError>
        requires { RequiresKey self.now.content.keypos (option_copied key) (λ object.
            is_some (P.projects trial.now.query.now object)) }
        ensures answers { ReturnsAllData result (answers_in (P.projects trial.now.query.now) self.now.content) }
        ensures looks { CountsLooks result
            (looks_of_key (option_copied key.entry) self.now.content.slots) looks.old looks.new }
        ensures at_most { looks.new
            ≤ ticks (looks_of_key (option_copied key.entry) self.now.content.slots) looks.old }
        ensures at_least { looks.old ≤ looks.new }
    {
        let mut results = Vec::new(self.inner.alloc);
        self.inner.collect(trial, key, &mut results, looks)?;
        Ok(Items::from_vec(results))
    }

    /// Returns the number of chosen objects. If `key` is given, tests only the objects of this key. The query must then
    /// choose no other object.
    fn count_matching<P: Predicate>(
        &self,
        trial: &Trial<'_, P>,
        key: Option<&Term>,
        looks: &mut Looks,
    ) -> Result<usize, AllocError>
        requires { RequiresKey self.now.content.keypos (option_copied key) (P.tests trial.now.query.now) }
        ensures count { Returns result (chosen_in (P.tests trial.now.query.now) self.now.content) }
        ensures few { IfOk result (λ count. count < 2 ^ 32) }
        ensures looks { CountsLooks result
            (looks_of_key (option_copied key.entry) self.now.content.slots) looks.old looks.new }
        ensures at_most { looks.new
            ≤ ticks (looks_of_key (option_copied key.entry) self.now.content.slots) looks.old }
        ensures at_least { looks.old ≤ looks.new }
    {
        self.inner.count(trial, key, looks)
    }

    /// Deletes the chosen objects and returns their number. If `key` is given, tests only the objects of this key. The
    /// query must then choose no other object.
    fn delete_matching<P: Predicate>(
        &mut self,
        trial: &Trial<'_, P>,
        key: Option<&Term>,
        hold: bool,
        looks: &mut Looks,
    ) -> Result<usize, AllocError>
        requires { RequiresKey self.old.content.keypos (option_copied key) (P.tests trial.now.query.now) }
        ensures count { Returns result (chosen_in (P.tests trial.now.query.now) self.old.content) }
        ensures few { IfOk result (λ count. count < 2 ^ 32) }
        ensures content { OnOk result
            (self.new.content ≡ without_chosen hold (P.tests trial.now.query.now) self.old.content) }
        ensures err { OnErr result (self.new.content ≡ self.old.content) }
        ensures looks { CountsLooks result
            (looks_of_key (option_copied key.entry) self.old.content.slots) looks.old looks.new }
        ensures at_most { looks.new
            ≤ ticks (looks_of_key (option_copied key.entry) self.old.content.slots) looks.old }
        ensures at_least { looks.old ≤ looks.new }
        ensures buckets { self.new.buckets ≡ self.old.buckets }
    {
        self.inner.rows.reveal_invariant();
        let mut plan = DeletePlan::new(self.inner.alloc);
        let removed = self.inner.plan(trial, key, &mut plan, looks)?;
        self.inner.apply(hold, plan);
        self.count -= removed;
        Ok(removed)
    }
}
