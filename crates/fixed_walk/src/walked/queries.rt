//! The calls with patterns and match specifications on a table with fixes. Those that delete leave tombstones, slots
//! without objects, if the table is fixed.
ghost use Rattle.std.specs.Prelude.{◌≡◌, ◌<◌, ◌^◌, IfOk, OnOk, OnErr};
ghost use Rattle.table_ops.specs.Results.{Returns, matching_in, ReturnsAllData};
ghost use Rattle.table_ops.specs.Queries.{bound_in, matches, spec_result, is_chosen, answers_in, chosen_in};
ghost use Rattle.fixed_walk.specs.TableState.{after_delete};

use super::Walked;
use bucket_table::Rows;
use ets_term::{Items, Term};
use match_spec::{Pattern, Spec};
use std::alloc::AllocError;

/// The calls with patterns and match specifications. Each does what the same method of `Table` does; its results are in
/// the order of the slots. If the table is fixed, a slot that loses its last object stays as a tombstone.
#[tactic(auto, using(crate::proofs::TombstoneLaws::no_tombstones))]
impl<R: Rows> Walked<R> {
    /// Returns, for each object that matches, the list of the values of the variables (stdlib manual, ets:match/2).
    pub fn matches(&self, pattern: &Pattern) -> Result<Items<Term>, AllocError>
        ensures { ReturnsAllData result (answers_in (bound_in pattern.now) self.now.content) }
    {
        self.table.matches(pattern)
    }

    /// Returns copies of the objects that match (stdlib manual, ets:match_object/2).
    pub fn match_objects(&self, pattern: &Pattern) -> Result<Items<Term>, AllocError>
        ensures { Returns result (matching_in pattern.now self.now.content) }
    {
        self.table.match_objects(pattern)
    }

    /// Returns the result of the match specification for each object that has one (stdlib manual, ets:select/2).
    pub fn select(&self, spec: &Spec) -> Result<Items<Term>, AllocError>
        ensures { ReturnsAllData result (answers_in (spec_result spec.now) self.now.content) }
    {
        self.table.select(spec)
    }

    /// Returns the number of objects for which the result is `true` (stdlib manual, ets:select_count/2).
    pub fn select_count(&self, spec: &Spec) -> Result<usize, AllocError>
        ensures count { Returns result (chosen_in (is_chosen spec.now) self.now.content) }
        ensures few { IfOk result (λ count. count < 2 ^ 32) }
    {
        self.table.select_count(spec)
    }

    /// Deletes the objects that match (stdlib manual, ets:match_delete/2).
    pub fn match_delete(&mut self, pattern: &Pattern) -> Result<(), AllocError>
        ensures ok { OnOk result (self.new ≡ after_delete (λ own. matches pattern.now) self.old) }
        ensures err { OnErr result (self.new ≡ self.old) }
    {
        let hold = self.fixes.is_fixed();
        self.table.match_delete(pattern, hold)
    }

    /// Deletes the objects for which the result is `true`, and returns their number (stdlib manual,
    /// ets:select_delete/2).
    pub fn select_delete(&mut self, spec: &Spec) -> Result<usize, AllocError>
        ensures count { Returns result (chosen_in (is_chosen spec.now) self.old.content) }
        ensures few { IfOk result (λ count. count < 2 ^ 32) }
        ensures ok { OnOk result (self.new ≡ after_delete (λ own. is_chosen spec.now) self.old) }
        ensures err { OnErr result (self.new ≡ self.old) }
    {
        let hold = self.fixes.is_fixed();
        self.table.select_delete(spec, hold)
    }
}
