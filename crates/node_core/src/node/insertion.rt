//! The calls `insert` and `insert_new`, which copy the objects into the table.
ghost use Rattle.std.specs.Prelude.{◌≡◌};
ghost use Rattle.node_core.specs.Access.{writes};
ghost use Rattle.node_core.specs.rules.Insertion.{objects_in, Insert, InsertNew};
ghost use Rattle.node_core.specs.rules.Replies.{true_reply, truth_reply};
ghost use Rattle.node_core.specs.inside.Refusals.{RefinesInto, RefinesReply, to_reply};

use super::Node;
use super::access::Access;
use super::replies::write_true;
use crate::step::Reply;
use ets_term::{KeyHash, Term};
use std::slice;
use table_ops::Refusal;

impl<H: KeyHash + Copy + Drop> Node<H> {
    /// Inserts an object or a list of objects into the table that a term names, and writes the reply.
    #[inline(never)]
    pub(crate) fn insert_into(
        &mut self,
        pid: u32,
        table: &Term,
        objects: &Term,
        reply: &mut Reply,
    ) -> Result<(), Refusal>
        ensures { RefinesInto (writes self.old pid table.now (Insert objects.now))
            self.old result reply.new self.new }
    {
        let inserted = self.insert(pid, table, objects);
        write_true(self.alloc, inserted, reply)
    }

    /// Inserts an object or a list of objects into the table that a term names.
    #[inline(always)]
    fn insert(&mut self, pid: u32, table: &Term, objects: &Term) -> Result<(), Refusal>
        ensures { RefinesReply (writes self.old pid table.now (Insert objects.now))
            self.old (to_reply (λ _. true_reply) result) self.new }
    {
        let Some(table) = self.usable_table_mut(Access::Write, pid, table) else {
            return Err(Refusal::Badarg);
        };
        table.insert(objects_in(objects))?;
        Ok(())
    }

    /// Inserts objects if none of their keys has an object yet. Returns whether it did.
    pub(crate) fn insert_new(
        &mut self,
        pid: u32,
        table: &Term,
        objects: &Term,
    ) -> Result<bool, Refusal>
        ensures { RefinesReply (writes self.old pid table.now (InsertNew objects.now))
            self.old (to_reply truth_reply result) self.new }
    {
        let Some(table) = self.usable_table_mut(Access::Write, pid, table) else {
            return Err(Refusal::Badarg);
        };
        let inserted = table.insert_new(objects_in(objects))?;
        Ok(inserted)
    }
}

/// Returns the objects of an argument: the elements of a list, or else the term itself.
fn objects_in(argument: &Term) -> &[Term]
    ensures { result.now ≡ objects_in argument.now }
{
    match argument {
        Term::List(terms) => terms.as_slice(),
        _ => slice::from_ref(argument),
    }
}
