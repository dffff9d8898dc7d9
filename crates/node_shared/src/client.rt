//! A client of a shared node: it makes the calls of one process, and keeps a record of its steps with their replies.
//! Its share is the right to run steps of that process.
ghost use Rattle.std.specs.Prelude.{◌≡◌, true, length, OnErr, IfOk};
ghost use Rattle.node_core.specs.declared.step.Reply.{Reply};
ghost use Rattle.node_core.specs.declared.step.Step.TheVariants.{End, Ask};
ghost use Rattle.node_core.specs.Woven.{is_step_of};
ghost use Rattle.node_shared.specs.Records.{Begins, with_entry};
ghost use Rattle.node_shared.specs.inside.Steps.{IsLast};
ghost use Rattle.node_shared.specs.Running.{AllEndRuns};

use crate::share::Share;
use crate::shared::Shared;
use crate::shared_entry::SharedEntry;
use ets_term::KeyHash;
use node_core::{Call, Reply, Step};
use std::alloc::{AllocError, Global};
use std::marker::Model;
use std::sync::Wait;
use std::sync::ledger::Ledger;

/// The client of one process: its share, and a record of its steps, each with its reply. A contract sees the process
/// and the record, which begins with the enrolment and is as long as the share's count. For each entry, some run of a
/// node ends with its step and reply.
#[derive(Drop)]
pub struct Client<L: Ledger> {
    alloc: Global,
    share: Share<L>,
    entries: Vec<SharedEntry>,
}

impl<L: Ledger> Model for Client<L> {
    ghost use Rattle.std.specs.Prelude.{◌≡◌, length};
    ghost use Rattle.node_shared.specs.Records.{RecordState, Begins};
    ghost use Rattle.node_shared.specs.Running.{AllEndRuns};
    ghost use Rattle.node_shared.specs.inside.Codes.{record_code};

    ghost Value = { RecordState };

    ghost coded = { record_code };

    ghost view = { λ c. record { pid = c.share.pid; entries = c.entries.items } };

    ghost invariant = { λ c. (length c.entries.items ≡ c.share.amount) × Begins c.share.pid c.entries.items
        × AllEndRuns L.parts c.entries.items };
}

impl<L: Ledger> Client<L> {
    ghost use Rattle.std.specs.Borrow.{sem};
    ghost use Rattle.node_shared.specs.Asking.{Answers};

    /// Creates the client of a process that was enrolled, from its share and its record.
    pub(crate) fn of(alloc: Global, share: Share<L>, entries: Vec<SharedEntry>) -> Self
        requires count { length entries.items ≡ share.amount }
        requires begins { Begins share.pid entries.items }
        requires runs { AllEndRuns L.parts entries.items }
        ensures { result ≡ record { pid = share.pid; entries = entries.items } }
    {
        Client {
            alloc,
            share,
            entries,
        }
    }

    /// Returns the number of the process. It takes no memory.
    pub fn pid(&self) -> u32
        ensures { result ≡ self.now.pid }
    {
        self.share.pid()
    }

    /// Returns the record, from the enrolment on. It takes no memory.
    pub fn entries(&self) -> &[SharedEntry]
        ensures entries { result.now ≡ self.now.entries }
        ensures begins { Begins self.now.pid self.now.entries }
        ensures runs { AllEndRuns L.parts self.now.entries }
    {
        self.entries.as_slice()
    }

    /// Makes a call, adds it to the record with its reply, and returns the reply. Running out of memory changes
    /// nothing. It may wait for the lock.
    pub fn ask<H: KeyHash + Copy + Drop, R: Wait>(
        &mut self,
        rt: &R,
        shared: &Shared<L, H>,
        call: &Call,
    ) -> Result<&Reply, AllocError>
        ensures* answers { sem 𝓛 (Answers L.row L.Ledger self.entry (Ask self.old.pid call.now) result) }
    {
        let event = Step::Ask(self.share.pid(), call.try_clone(self.alloc)?);
        self.step(rt, shared, event)?;
        Ok(self.last_reply())
    }

    /// Ends the process, adds that to the record with the reply, and returns the reply. The reply to later calls is
    /// `NoProcess`. Running out of memory changes nothing. It may wait for the lock.
    pub fn end<H: KeyHash + Copy + Drop, R: Wait>(
        &mut self,
        rt: &R,
        shared: &Shared<L, H>,
    ) -> Result<&Reply, AllocError>
        ensures* answers { sem 𝓛 (Answers L.row L.Ledger self.entry (End self.old.pid) result) }
    {
        let event = Step::End(self.share.pid());
        self.step(rt, shared, event)?;
        Ok(self.last_reply())
    }

    /// Runs a step of the process, and adds it to the record with its reply. The entry, which the journal shares, is
    /// allocated before the lock is taken. Running out of memory changes nothing.
    pub(crate) fn step<H: KeyHash + Copy + Drop, R: Wait>(
        &mut self,
        rt: &R,
        shared: &Shared<L, H>,
        event: Step,
    ) -> Result<(), AllocError>
        requires { is_step_of self.old.pid event ≡ true }
        ensures ok { IfOk result (λ _. (r : Reply) × (self.new ≡ with_entry self.old event r)) }
        ensures err { OnErr result (self.new ≡ self.old) }
    {
        let draft = SharedEntry::draft(self.alloc, event)?;
        self.entries.reserve(1)?;
        let done = shared.book.lock(rt).enter(rt, &mut self.share, draft)?;
        self.entries.push_reserved(done);
        Ok(())
    }

    /// Returns the reply of the record's last entry. The record has an entry, because it begins with the enrolment.
    fn last_reply(&self) -> &Reply
        ensures { IsLast self.now.entries result.now }
    {
        &self.entries[self.entries.len() - 1].get().reply
    }
}
