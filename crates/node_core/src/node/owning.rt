//! The calls `give_away` and `setopts`, which change the owner or the heir of a table; `receive`, which empties a
//! mailbox; and `whereis` and `info`, which only read. None of them changes an object.
ghost use Rattle.std.specs.Prelude.{◌≡◌, IfOk};
ghost use Rattle.ets_term.specs.declared.term.Term.{out-Term};
ghost use Rattle.node_core.specs.rules.Owning.{GiveAway, SetOptions, Receive, Whereis, Info, value_or_undefined, names_form};
ghost use Rattle.node_core.specs.inside.Refusals.{RefinesReply};

use super::Node;
use super::replies::{atom_reply, refusal_of, true_reply};
use crate::step::Reply;
use ets_term::{KeyHash, Term};
use ownership::InfoItem;
use std::alloc::Global;
use table_ops::Refusal;

impl<H: KeyHash + Copy + Drop> Node<H> {
    /// Passes the table that a term names to another process, with a message.
    pub(crate) fn give_away(
        &mut self,
        pid: u32,
        table: &Term,
        to: &Term,
        gift: &Term,
    ) -> Result<Reply, Refusal>
        ensures { RefinesReply (GiveAway self.old pid table.now to.now gift.now)
            self.old result self.new }
    {
        let id = self.world.resolve(table).ok_or(Refusal::Badarg)?;
        let Term::Pid(to) = to else {
            return Err(Refusal::Badarg);
        };
        match self.world.give_away(pid, id, *to, gift) {
            Ok(()) => Ok(true_reply(self.alloc)),
            Err(fault) => refusal_of(fault),
        }
    }

    /// Sets or removes the heir of the table that a term names.
    pub(crate) fn set_options(
        &mut self,
        pid: u32,
        table: &Term,
        options: &Term,
    ) -> Result<Reply, Refusal>
        ensures { RefinesReply (SetOptions self.old pid table.now options.now) self.old result self.new }
    {
        let id = self.world.resolve(table).ok_or(Refusal::Badarg)?;
        match self.world.set_options(pid, id, options) {
            Ok(()) => Ok(true_reply(self.alloc)),
            Err(fault) => refusal_of(fault),
        }
    }

    /// Removes all messages from the process's mailbox. The reply is their list, oldest first.
    pub(crate) fn receive(&mut self, pid: u32) -> Result<Reply, Refusal>
        ensures { RefinesReply (Receive self.old pid) self.old result self.new }
    {
        Ok(Reply::Value(Term::List(self.world.receive(pid))))
    }

    /// Finds the named table with this name. The reply is its identifier, or `undefined` if there is no such table.
    pub(crate) fn whereis(&self, name: &Term) -> Result<Reply, Refusal>
        ensures { RefinesReply (Whereis self.now name.now) self.now result self.now }
    {
        let Term::Atom(name) = name else {
            return Err(Refusal::Badarg);
        };
        match self.world.whereis(name) {
            Some(id) => Ok(Reply::Value(Term::Tid(id))),
            None => Ok(atom_reply(self.alloc, b"undefined")),
        }
    }

    /// Reads one item of information on the table that a term names. The reply is `undefined` if there is no such
    /// table. Refuses an `item` that does not exist, and a `table` that is neither an atom nor an identifier.
    pub(crate) fn info(&self, table: &Term, item: &Term) -> Result<Reply, Refusal>
        ensures { RefinesReply (Info self.now table.now item.now) self.now result self.now }
    {
        let item = InfoItem::read(item).ok_or(Refusal::Badarg)?;
        if !can_name(table) {
            return Err(Refusal::Badarg);
        }
        let Some(id) = self.world.resolve(table) else {
            return Ok(value_or_undefined(self.alloc, None));
        };
        let value = self.world.info(id, item)?;
        Ok(value_or_undefined(self.alloc, value))
    }
}

/// Returns whether a term can name a table: an atom or an identifier.
fn can_name(term: &Term) -> bool
    ensures { result ≡ names_form (out-Term term.now) }
{
    match term {
        Term::Atom(_) | Term::Tid(_) => true,
        _ => false,
    }
}

/// Returns the value as a reply, or the atom `undefined` if there is none.
fn value_or_undefined(alloc: Global, value: Option<Term>) -> Reply
    ensures { result ≡ value_or_undefined value }
{
    match value {
        Some(term) => Reply::Value(term),
        None => atom_reply(alloc, b"undefined"),
    }
}
