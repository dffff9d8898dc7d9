//! The calls `match`, `match_object`, `match_delete`, `select`, `select_count` and `select_delete`. Each compiles its
//! pattern or match specification, and then searches the table.
ghost use Rattle.std.specs.Prelude.{◌≡◌, ◌<◌, ◌^◌, true, false, map, IfOk, OnOk, IsErrOf};
ghost use Rattle.ets_term.specs.Data.{data_of};
ghost use Rattle.match_spec.specs.Specifications.{is_pattern, is_spec};
ghost use Rattle.table_ops.specs.Refusals as table_refusals;
ghost use Rattle.node_core.specs.Access.{reads, writes};
ghost use Rattle.node_core.specs.rules.Searching.{results_reply, count_reply, DeletesMatching, DeletesChosen, match_reply, match_object_reply, MatchDelete, select_reply, select_count_reply, SelectDelete};
ghost use Rattle.node_core.specs.inside.Refusals.{RefinesReply};

use super::Node;
use super::access::Access;
use super::replies::true_reply;
use crate::step::Reply;
use bucket_table::Rows;
use ets_term::{Integer, Items, KeyHash, Term};
use fixed_walk::Walked;
use match_spec::{Pattern, Spec};
use std::alloc::Global;
use table_ops::Refusal;

impl<H: KeyHash + Copy + Drop> Node<H> {
    /// Returns the bindings of each object that matches a pattern.
    pub(crate) fn match_bindings(
        &self,
        pid: u32,
        table: &Term,
        pattern: &Term,
    ) -> Result<Reply, Refusal>
        ensures { RefinesReply (reads self.now pid table.now (match_reply pattern.now))
            self.now result self.now }
    {
        let table = self.readable_table(pid, table).ok_or(Refusal::Badarg)?;
        let pattern = compile_pattern(self.alloc, pattern)?;
        let values = table.matches(&pattern);
        drop(pattern);
        Ok(results_reply(values?))
    }

    /// Returns each object that matches a pattern.
    pub(crate) fn match_object(
        &self,
        pid: u32,
        table: &Term,
        pattern: &Term,
    ) -> Result<Reply, Refusal>
        ensures { RefinesReply (reads self.now pid table.now (match_object_reply pattern.now))
            self.now result self.now }
    {
        let table = self.readable_table(pid, table).ok_or(Refusal::Badarg)?;
        let pattern = compile_pattern(self.alloc, pattern)?;
        let objects = table.match_objects(&pattern);
        drop(pattern);
        Ok(Reply::Value(Term::List(objects?)))
    }

    /// Removes each object that matches a pattern.
    pub(crate) fn match_delete(
        &mut self,
        pid: u32,
        table: &Term,
        pattern: &Term,
    ) -> Result<Reply, Refusal>
        ensures { RefinesReply (writes self.old pid table.now (MatchDelete pattern.now))
            self.old result self.new }
    {
        let alloc = self.alloc;
        let Some(table) = self.usable_table_mut(Access::Write, pid, table) else {
            return Err(Refusal::Badarg);
        };
        delete_matching(alloc, table, pattern)?;
        Ok(true_reply(alloc))
    }

    /// Returns the result of a match specification for each object that it matches.
    pub(crate) fn select(&self, pid: u32, table: &Term, spec: &Term) -> Result<Reply, Refusal>
        ensures { RefinesReply (reads self.now pid table.now (select_reply spec.now))
            self.now result self.now }
    {
        let table = self.readable_table(pid, table).ok_or(Refusal::Badarg)?;
        let spec = compile_spec(self.alloc, spec)?;
        let results = table.select(&spec);
        drop(spec);
        Ok(results_reply(results?))
    }

    /// Counts the objects for which a match specification gives `true`.
    pub(crate) fn select_count(&self, pid: u32, table: &Term, spec: &Term) -> Result<Reply, Refusal>
        ensures { RefinesReply (reads self.now pid table.now (select_count_reply spec.now))
            self.now result self.now }
    {
        let table = self.readable_table(pid, table).ok_or(Refusal::Badarg)?;
        let spec = compile_spec(self.alloc, spec)?;
        let count = table.select_count(&spec);
        drop(spec);
        Ok(count_reply(count?))
    }

    /// Removes the objects for which a match specification gives `true`. The reply is their number.
    pub(crate) fn select_delete(
        &mut self,
        pid: u32,
        table: &Term,
        spec: &Term,
    ) -> Result<Reply, Refusal>
        ensures { RefinesReply (writes self.old pid table.now (SelectDelete spec.now))
            self.old result self.new }
    {
        let alloc = self.alloc;
        let Some(table) = self.usable_table_mut(Access::Write, pid, table) else {
            return Err(Refusal::Badarg);
        };
        let deleted = delete_selected(alloc, table, spec)?;
        Ok(count_reply(deleted))
    }
}

/// Compiles an argument that must be a pattern. Refuses any other term with `Badarg`.
fn compile_pattern(alloc: Global, argument: &Term) -> Result<Pattern, Refusal>
    ensures same { IfOk result (λ pattern. pattern ≡ argument.now) }
    ensures good { OnOk result (is_pattern (data_of argument.now) ≡ true) }
    ensures badarg { IsErrOf result Refusal.Badarg → is_pattern (data_of argument.now) ≡ false }
    ensures limit { ¬ IsErrOf result Refusal.SystemLimit }
{
    let pattern = Pattern::compile(alloc, argument)?;
    Ok(pattern)
}

/// Compiles an argument that must be a match specification. Refuses any other term with `Badarg`.
fn compile_spec(alloc: Global, argument: &Term) -> Result<Spec, Refusal>
    ensures same { IfOk result (λ spec. spec ≡ argument.now) }
    ensures good { OnOk result (is_spec (data_of argument.now) ≡ true) }
    ensures badarg { IsErrOf result Refusal.Badarg → is_spec (data_of argument.now) ≡ false }
    ensures limit { ¬ IsErrOf result Refusal.SystemLimit }
{
    let spec = Spec::compile(alloc, argument)?;
    Ok(spec)
}

/// Deletes the objects that match a pattern.
fn delete_matching<R: Rows>(
    alloc: Global,
    table: &mut Walked<R>,
    pattern: &Term,
) -> Result<(), Refusal>
    ensures { table_refusals.RefinesChange (DeletesMatching pattern.now table.old)
        table.old result table.new }
{
    let pattern = compile_pattern(alloc, pattern)?;
    let done = table.match_delete(&pattern);
    drop(pattern);
    Ok(done?)
}

/// Deletes the objects for which a match specification gives `true`, and returns their number.
fn delete_selected<R: Rows>(
    alloc: Global,
    table: &mut Walked<R>,
    spec: &Term,
) -> Result<usize, Refusal>
    ensures content { table_refusals.RefinesChange (DeletesChosen spec.now table.old)
        table.old result table.new }
    ensures few { IfOk result (λ count. count < 2 ^ 32) }
{
    let spec = compile_spec(alloc, spec)?;
    let deleted = table.select_delete(&spec);
    drop(spec);
    Ok(deleted?)
}

/// Returns the list of a search's results as a reply.
fn results_reply(found: Items<Term>) -> Reply
    ensures { result ≡ results_reply (map data_of found) }
{
    Reply::Value(Term::List(found))
}

/// Returns the number of objects that a call counted or removed, as a reply.
fn count_reply(count: usize) -> Reply
    requires { count < 2 ^ 32 }
    ensures { result ≡ count_reply count }
{
    Reply::Value(Term::Int(count as Integer))
}
