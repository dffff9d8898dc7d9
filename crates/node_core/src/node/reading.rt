//! The calls that read the objects of a key, or all objects: `lookup`, `member`, `lookup_element` and `tab2list`.
ghost use Rattle.node_core.specs.Access.{reads};
ghost use Rattle.node_core.specs.rules.Reading.{lookup_reply, member_reply, lookup_element_reply, lookup_element_or_reply, tab2list_reply};
ghost use Rattle.node_core.specs.rules.Replies.{truth_reply};
ghost use Rattle.node_core.specs.declared.step.Reply.TheVariants.{Value};
ghost use Rattle.node_core.specs.inside.Refusals.{RefinesReply, RefinesInto, to_reply};

use super::Node;
use super::replies::{write_list, write_truth};
use crate::position::position_of;
use crate::step::Reply;
use ets_term::{KeyHash, Term};
use table_ops::Refusal;

impl<H: KeyHash + Copy + Drop> Node<H> {
    /// Writes the list of a key's objects over an earlier reply.
    #[inline(never)]
    pub(crate) fn lookup_into(
        &self,
        pid: u32,
        table: &Term,
        key: &Term,
        reply: &mut Reply,
    ) -> Result<(), Refusal>
        ensures { RefinesInto (reads self.now pid table.now (lookup_reply key.now))
            self.now result reply.new self.now }
    {
        let table = self.readable_table(pid, table).ok_or(Refusal::Badarg)?;
        write_list(self.alloc, table.lookup(key), reply)?;
        Ok(())
    }

    /// Writes `true` over an earlier reply if a key has an object, else `false`.
    #[inline(never)]
    pub(crate) fn member_into(
        &self,
        pid: u32,
        table: &Term,
        key: &Term,
        reply: &mut Reply,
    ) -> Result<(), Refusal>
        ensures { RefinesInto (reads self.now pid table.now (member_reply key.now))
            self.now result reply.new self.now }
    {
        write_truth(self.alloc, self.member(pid, table, key), reply)
    }

    /// Checks whether a key has an object.
    #[inline(always)]
    fn member(&self, pid: u32, table: &Term, key: &Term) -> Result<bool, Refusal>
        ensures { RefinesReply (reads self.now pid table.now (member_reply key.now))
            self.now (to_reply truth_reply result) self.now }
    {
        let table = self.readable_table(pid, table).ok_or(Refusal::Badarg)?;
        Ok(table.member(key))
    }

    /// Returns the element at a position of a key's object, or in a bag the list of these elements of all its objects.
    /// Refuses a key without objects.
    pub(crate) fn lookup_element(
        &self,
        pid: u32,
        table: &Term,
        key: &Term,
        position: &Term,
    ) -> Result<Term, Refusal>
        ensures { RefinesReply (reads self.now pid table.now (lookup_element_reply key.now position.now))
            self.now (to_reply Value result) self.now }
    {
        let table = self.readable_table(pid, table).ok_or(Refusal::Badarg)?;
        let position = position_of(position).ok_or(Refusal::Badarg)?;
        let element = table.lookup_element(key, position)?;
        Ok(element)
    }

    /// Returns what `lookup_element` returns, but the default for a key without objects.
    pub(crate) fn lookup_element_or(
        &self,
        pid: u32,
        table: &Term,
        key: &Term,
        position: &Term,
        default: &Term,
    ) -> Result<Term, Refusal>
        ensures { RefinesReply
            (reads self.now pid table.now (lookup_element_or_reply key.now position.now default.now))
            self.now (to_reply Value result) self.now }
    {
        let table = self.readable_table(pid, table).ok_or(Refusal::Badarg)?;
        let position = position_of(position).ok_or(Refusal::Badarg)?;
        let element = table.lookup_element_or(key, position, default)?;
        Ok(element)
    }

    /// Returns all objects of the table that a term names.
    pub(crate) fn tab2list(&self, pid: u32, table: &Term) -> Result<Reply, Refusal>
        ensures { RefinesReply (reads self.now pid table.now tab2list_reply) self.now result self.now }
    {
        let table = self.readable_table(pid, table).ok_or(Refusal::Badarg)?;
        Ok(Reply::Value(Term::List(table.objects()?)))
    }
}
