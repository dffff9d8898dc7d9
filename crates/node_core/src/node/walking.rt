//! The calls `safe_fixtable`, `first`, `next`, `first_lookup` and `next_lookup`. While a process fixes a table, its
//! traversals can continue after a deleted key.
ghost use Rattle.std.specs.Prelude.{◌≡◌, option_copied, option_map, IfOk};
ghost use Rattle.bucket_table.specs.Lent.{key_of_ref, slot_of_ref};
ghost use Rattle.node_core.specs.declared.node.access.Access.TheVariants.{Read};
ghost use Rattle.node_core.specs.Access.{reads, changes};
ghost use Rattle.node_core.specs.rules.Walking.{SafeFixtable, Fixes, Releases, first_reply, next_reply, first_lookup_reply, next_lookup_reply, key_reply, slot_reply};
ghost use Rattle.node_core.specs.inside.Refusals.{RefinesReply};

use super::Node;
use super::access::Access;
use super::replies::{atom_reply, true_reply};
use crate::step::Reply;
use crate::terms;
use bucket_table::KeyRef;
use ets_term::{Items, KeyHash, Term};
use packed_term::Object;
use std::alloc::{AllocError, Global};
use table_ops::Refusal;

impl<H: KeyHash + Copy + Drop> Node<H> {
    /// Adds one fix to a table if the flag is `true`, or releases one if it is `false`.
    pub(crate) fn safe_fixtable(
        &mut self,
        pid: u32,
        table: &Term,
        flag: &Term,
    ) -> Result<Reply, Refusal>
        ensures { RefinesReply (SafeFixtable self.old pid table.now flag.now) self.old result self.new }
    {
        if flag.is_atom("true") {
            return self.fix(pid, table);
        }
        if flag.is_atom("false") {
            return self.release(pid, table);
        }
        Err(Refusal::Badarg)
    }

    /// Adds one fix of the process to a table that it may read.
    fn fix(&mut self, pid: u32, table: &Term) -> Result<Reply, Refusal>
        ensures { RefinesReply (changes self.old pid Read table.now (Fixes pid))
            self.old result self.new }
    {
        let alloc = self.alloc;
        let Some(table) = self.usable_table_mut(Access::Read, pid, table) else {
            return Err(Refusal::Badarg);
        };
        table.fix(pid)?;
        Ok(true_reply(alloc))
    }

    /// Releases one fix of the process, if it has one, on a table that it may read.
    fn release(&mut self, pid: u32, table: &Term) -> Result<Reply, Refusal>
        ensures { RefinesReply (changes self.old pid Read table.now (Releases pid))
            self.old result self.new }
    {
        let alloc = self.alloc;
        let Some(table) = self.usable_table_mut(Access::Read, pid, table) else {
            return Err(Refusal::Badarg);
        };
        table.release(pid);
        Ok(true_reply(alloc))
    }

    /// Returns the first key of a table, or `'$end_of_table'`.
    pub(crate) fn first(&self, pid: u32, table: &Term) -> Result<Reply, Refusal>
        ensures { RefinesReply (reads self.now pid table.now first_reply) self.now result self.now }
    {
        let table = self.readable_table(pid, table).ok_or(Refusal::Badarg)?;
        Ok(key_reply(self.alloc, table.first())?)
    }

    /// Returns the key after this one, or `'$end_of_table'`. Refuses a key that has no slot.
    pub(crate) fn next(&self, pid: u32, table: &Term, key: &Term) -> Result<Reply, Refusal>
        ensures { RefinesReply (reads self.now pid table.now (next_reply key.now)) self.now result self.now }
    {
        let table = self.readable_table(pid, table).ok_or(Refusal::Badarg)?;
        let next = table.next(key)?;
        Ok(key_reply(self.alloc, next)?)
    }

    /// Returns the first key of a table with its objects, or `'$end_of_table'`.
    pub(crate) fn first_lookup(&self, pid: u32, table: &Term) -> Result<Reply, Refusal>
        ensures { RefinesReply (reads self.now pid table.now first_lookup_reply) self.now result self.now }
    {
        let table = self.readable_table(pid, table).ok_or(Refusal::Badarg)?;
        Ok(slot_reply(self.alloc, table.first_lookup())?)
    }

    /// Returns the key after this one with its objects, or `'$end_of_table'`. Refuses a key that has no slot.
    pub(crate) fn next_lookup(&self, pid: u32, table: &Term, key: &Term) -> Result<Reply, Refusal>
        ensures { RefinesReply (reads self.now pid table.now (next_lookup_reply key.now))
            self.now result self.now }
    {
        let table = self.readable_table(pid, table).ok_or(Refusal::Badarg)?;
        let slot = table.next_lookup(key)?;
        Ok(slot_reply(self.alloc, slot)?)
    }
}

/// Returns a key as a reply, or `'$end_of_table'`.
fn key_reply(alloc: Global, key: Option<KeyRef<'_>>) -> Result<Reply, AllocError>
    ensures { IfOk result (λ r. r ≡ key_reply (option_map key_of_ref key.entry)) }
{
    match key {
        Some(key) => Ok(Reply::Value(key.to_term(alloc)?)),
        None => Ok(atom_reply(alloc, b"$end_of_table")),
    }
}

/// Returns a key with its objects as a reply, or `'$end_of_table'`.
fn slot_reply(alloc: Global, slot: Option<(KeyRef<'_>, &[Object])>) -> Result<Reply, AllocError>
    ensures { IfOk result (λ r. r ≡ slot_reply (option_map slot_of_ref slot.entry)) }
{
    match slot {
        Some((key, objects)) => {
            let mut parts = Items::new(alloc);
            parts.push(key.to_term(alloc)?)?;
            parts.push(Term::List(terms::copy_objects(alloc, objects)?))?;
            Ok(Reply::Value(Term::Tuple(parts)))
        }
        None => Ok(atom_reply(alloc, b"$end_of_table")),
    }
}
