//! The calls that remove objects by key, by equality, or all of them: `take`, `delete/2`, `delete_object` and
//! `delete_all_objects`.
ghost use Rattle.node_core.specs.Access.{writes};
ghost use Rattle.node_core.specs.rules.Removal.{Take, Delete, DeleteObject, DeleteAllObjects};
ghost use Rattle.node_core.specs.rules.Replies.{true_reply};
ghost use Rattle.node_core.specs.inside.Refusals.{RefinesInto, RefinesReply, to_reply};

use super::Node;
use super::access::Access;
use super::replies::write_true;
use crate::step::Reply;
use ets_term::{KeyHash, Term};
use table_ops::Refusal;

impl<H: KeyHash + Copy + Drop> Node<H> {
    /// Removes the objects of a key and returns them.
    pub(crate) fn take(&mut self, pid: u32, table: &Term, key: &Term) -> Result<Reply, Refusal>
        ensures { RefinesReply (writes self.old pid table.now (Take key.now)) self.old result self.new }
    {
        let Some(table) = self.usable_table_mut(Access::Write, pid, table) else {
            return Err(Refusal::Badarg);
        };
        let objects = table.take(key)?;
        Ok(Reply::Value(Term::List(objects)))
    }

    /// Removes the objects of a key, and writes the reply.
    #[inline(never)]
    pub(crate) fn delete_into(
        &mut self,
        pid: u32,
        table: &Term,
        key: &Term,
        reply: &mut Reply,
    ) -> Result<(), Refusal>
        ensures { RefinesInto (writes self.old pid table.now (Delete key.now))
            self.old result reply.new self.new }
    {
        let deleted = self.delete(pid, table, key);
        write_true(self.alloc, deleted, reply)
    }

    /// Removes the objects of a key.
    #[inline(always)]
    fn delete(&mut self, pid: u32, table: &Term, key: &Term) -> Result<(), Refusal>
        ensures { RefinesReply (writes self.old pid table.now (Delete key.now))
            self.old (to_reply (λ _. true_reply) result) self.new }
    {
        let Some(table) = self.usable_table_mut(Access::Write, pid, table) else {
            return Err(Refusal::Badarg);
        };
        table.delete_key(key);
        Ok(())
    }

    /// Removes every object that is equal to this one.
    pub(crate) fn delete_object(
        &mut self,
        pid: u32,
        table: &Term,
        object: &Term,
    ) -> Result<(), Refusal>
        ensures { RefinesReply (writes self.old pid table.now (DeleteObject object.now))
            self.old (to_reply (λ _. true_reply) result) self.new }
    {
        let Some(table) = self.usable_table_mut(Access::Write, pid, table) else {
            return Err(Refusal::Badarg);
        };
        table.delete_object(object)?;
        Ok(())
    }

    /// Removes every object of the table that a term names.
    pub(crate) fn delete_all_objects(&mut self, pid: u32, table: &Term) -> Result<(), Refusal>
        ensures { RefinesReply (writes self.old pid table.now DeleteAllObjects)
            self.old (to_reply (λ _. true_reply) result) self.new }
    {
        let Some(table) = self.usable_table_mut(Access::Write, pid, table) else {
            return Err(Refusal::Badarg);
        };
        table.delete_all();
        Ok(())
    }
}
