//! The book of a shared node: the node and the journal of its steps, under the lock of a `Shared`. Its ledger counts
//! the journal's entries of processes: the total here, and a part in the share of each process.
ghost use Rattle.std.specs.Prelude.{◌≡◌, true, ◌+◌, [], IfOk, OnErr, IfErr};
ghost use Rattle.node_core.specs.State.{State, empty};
ghost use Rattle.node_core.specs.Woven.{is_step_of};
ghost use Rattle.ets_term.specs.declared.term.Term.TheVariants.{Pid};
ghost use Rattle.node_core.specs.Values.{is_value};
ghost use Rattle.node_core.specs.declared.step.Reply.{Reply};
ghost use Rattle.node_core.specs.declared.step.Reply.TheVariants.{Value};
ghost use Rattle.node_core.specs.declared.step.Step.TheVariants.{Enrol};
ghost use Rattle.node_shared.specs.Journal.{entry, IsRun, process_entries};
ghost use Rattle.node_shared.specs.Records.{Enters, Tends};
ghost use Rattle.node_shared.specs.inside.Steps.{TriesGrowth};
ghost use Rattle.node_shared.specs.Running.{EndsRun, RefusesEnrol};
ghost use Rattle.node_shared.specs.Faults.{Refuses, RefusesWith};
ghost use Rattle.node_shared.specs.declared.book.BookFault.TheVariants.{Refused};

use crate::share::Share;
use crate::shared_entry::SharedEntry;
use ets_term::KeyHash;
use node_core::{Limits, Node, Reply, Step};
use std::alloc::{AllocError, Global};
use std::marker::Model;
use std::sync::ledger::{Blank, Ledger};
use std::sync::{Wait, ledger};

/// What is under the lock: the node, the journal of the steps that were run, and the ledger that counts the entries of
/// processes. A contract sees the node's state, the journal and the ledger's total. The journal is a run of the node
/// from its empty state, and the total is the number of its entries of processes.
#[derive(Drop)]
pub struct Book<L: Ledger, H: KeyHash + Copy + Drop> {
    alloc: Global,
    /// The limits of the node.
    limits: Limits,
    node: Node<H>,
    journal: Vec<SharedEntry>,
    /// Holds the total. Its type is a book of the kit, not this one.
    ledger: ledger::Book<L>,
    /// Holds the parts of the ledger for processes that are not enrolled yet.
    unissued_share: ledger::Share<L>,
}

impl<L: Ledger, H: KeyHash + Copy + Drop> Model for Book<L, H> {
    ghost use Rattle.node_shared.specs.Records.{BookState};
    ghost use Rattle.node_shared.specs.BookInvariant.{BookInvariant};
    ghost use Rattle.node_shared.specs.inside.Codes.{book_code};

    ghost Value = { BookState };

    ghost coded = { book_code };

    ghost view = { λ b. record { state = b.node; journal = b.journal.items; total = b.ledger.total } };

    ghost invariant = { λ b. BookInvariant b.limits L.parts b.node b.journal.items b.ledger.total b.unissued_share.parts };
}

/// Why a process is not enrolled. Nothing has changed.
#[derive(Drop)]
pub enum BookFault {
    /// The node refused: `Badarg` for a number that was enrolled before, otherwise `SystemLimit`.
    Refused(Reply),
    /// Out of memory.
    Memory,
}

impl<L: Ledger, H: KeyHash + Copy + Drop> Book<L, H> {
    /// Creates a book with a node without processes and tables, and an empty journal. `blank` is the new ledger `L`,
    /// which has a part for each process that the limits allow, and one more.
    pub fn new(alloc: Global, blank: Blank, limits: Limits, hasher: H) -> Self
        requires name { blank.name ≡ L.name }
        requires parts { blank.parts ≡ L.parts }
        requires enough { blank.parts ≡ limits.processes + 1 }
        ensures { result ≡ record { state = empty limits; journal = []; total = 0 } }
    {
        let (ledger, unissued_share) = blank.open::<L>();
        Book {
            alloc,
            limits,
            node: Node::new(alloc, limits, hasher),
            journal: Vec::new(alloc),
            ledger,
            unissued_share,
        }
    }

    /// Runs a step of the share's own process, adds its entry to the journal, and returns the reply. The total and the
    /// share's count become greater by 1. Running out of memory changes nothing.
    pub fn step(&mut self, share: &mut Share<L>, event: &Step) -> Result<Reply, AllocError>
        requires { is_step_of share.old.pid event.now ≡ true }
        ensures entry { IfOk result (λ r. Enters self.old event.now r self.new) }
        ensures run { IfOk result (EndsRun L.parts event.now) }
        ensures total { IfOk result (λ _. self.new.total ≡ self.old.total + 1) }
        ensures share { IfOk result (λ _. share.new ≡ record share.old { amount = share.old.amount + 1 }) }
        ensures err { OnErr result ((self.new ≡ self.old) × (share.new ≡ share.old)) }
    {
        let step = event.try_clone(self.alloc)?;
        let draft = SharedEntry::draft(self.alloc, step)?;
        self.journal.reserve(1)?;
        let (entry, reply) = draft.run_and_reply(&mut self.node)?;
        self.journal.push_reserved(entry);
        self.ledger.add(&mut share.tokens, 1);
        Ok(reply)
    }

    /// Runs the step of `draft`, an entry without its reply yet, and returns the whole entry, which the journal shares.
    /// The step is of the share's own process, and is counted as by `step`. Running out of memory changes nothing.
    pub(crate) fn enter<R: Wait>(
        &mut self,
        rt: &R,
        share: &mut Share<L>,
        draft: SharedEntry,
    ) -> Result<SharedEntry, AllocError>
        requires { is_step_of share.old.pid draft.step ≡ true }
        ensures same { IfOk result (λ done. done ≡ entry draft.step done.reply) }
        ensures entry { IfOk result (λ done. Enters self.old draft.step done.reply self.new) }
        ensures run { IfOk result (λ done. EndsRun L.parts draft.step done.reply) }
        ensures total { IfOk result (λ _. self.new.total ≡ self.old.total + 1) }
        ensures share { IfOk result (λ _. share.new ≡ record share.old { amount = share.old.amount + 1 }) }
        ensures err { OnErr result ((self.new ≡ self.old) × (share.new ≡ share.old)) }
    {
        self.journal.reserve(1)?;
        let done = draft.run(&mut self.node)?;
        self.journal.push_reserved(done.share(rt));
        self.ledger.add(&mut share.tokens, 1);
        Ok(done)
    }

    /// Enrols a process, adds the entry to the journal, and returns its share and the reply. The entry is the last one
    /// of some run of a node (`EndsRun`), whose process limit gives a ledger of `L.parts` parts. A fault changes
    /// nothing.
    pub fn join(&mut self, pid: u32) -> Result<(Share<L>, Reply), BookFault>
        ensures entry { IfOk result (λ joined. Enters self.old (Enrol pid) joined.1 self.new) }
        ensures value { IfOk result (λ joined. is_value joined.1 ≡ true) }
        ensures pid { IfOk result (λ joined. joined.1 ≡ Value (Pid pid)) }
        ensures run { IfOk result (λ joined. EndsRun L.parts (Enrol pid) joined.1) }
        ensures total { IfOk result (λ _. self.new.total ≡ self.old.total + 1) }
        ensures share { IfOk result (λ joined. joined.0 ≡ record { pid = pid; amount = 1 }) }
        ensures err { OnErr result (self.new ≡ self.old) }
        ensures refused { IfErr result (Refuses self.old.state pid) }
        ensures refused_run { IfErr result (RefusesWith (RefusesEnrol L.parts pid)) }
    {
        let Ok(draft) = SharedEntry::draft(self.alloc, Step::Enrol(pid)) else {
            return Err(BookFault::Memory);
        };
        if self.journal.reserve(1).is_err() {
            return Err(BookFault::Memory);
        }
        let Ok((entry, reply)) = draft.run_and_reply(&mut self.node) else {
            return Err(BookFault::Memory);
        };
        if !reply.is_value() {
            return Err(refusal(reply, entry));
        }
        self.journal.push_reserved(entry);
        // The new process gets one part of the ledger, which counts 0 entries.
        let mut tokens = self.unissued_share.split_off(1, 0);
        self.ledger.add(&mut tokens, 1);
        Ok((Share { tokens, pid }, reply))
    }

    /// Runs the node's pending growth step, if there is one, and adds its entry to the journal. The step doubles the
    /// buckets of a table, or readies one bucket. Returns whether it ran one: `false` if none is pending. Running out
    /// of memory changes nothing.
    pub fn tend(&mut self) -> Result<bool, AllocError>
        ensures growth { IfOk result (Tends self.old self.new) }
        ensures total { self.new.total ≡ self.old.total }
        ensures err { OnErr result (self.new ≡ self.old) }
    {
        let Some(event) = self.node.due() else {
            return Ok(false);
        };
        let draft = SharedEntry::draft(self.alloc, event)?;
        self.journal.reserve(1)?;
        let done = draft.run(&mut self.node)?;
        self.journal.push_reserved(done);
        Ok(true)
    }

    /// Runs the pending growth step as `tend` does. Returns whether it ran one. `false` means that none is pending or
    /// that memory ran out, and that nothing changed.
    pub(crate) fn try_tend(&mut self) -> bool
        ensures growth { TriesGrowth self.old self.new result }
        ensures total { self.new.total ≡ self.old.total }
    {
        matches!(self.tend(), Ok(true))
    }

    /// Returns the journal: a run of the node from its empty state to its present state. The total counts its entries
    /// of processes. It takes no memory.
    pub fn journal(&self) -> &[SharedEntry]
        ensures entries { result.now ≡ self.now.journal }
        ensures run { IsRun self.now.state.limits self.now.journal self.now.state }
        ensures total { self.now.total ≡ process_entries self.now.journal }
    {
        self.journal.as_slice()
    }

    /// Returns the limits of the node. It takes no memory.
    pub(crate) fn limits(&self) -> Limits
        ensures { result ≡ self.now.state.limits }
    {
        self.limits
    }

    /// Returns the journal, and drops all else.
    pub(crate) fn into_journal(self) -> Vec<SharedEntry>
        ensures journal { result.items ≡ self.journal }
        ensures run { IsRun self.state.limits self.journal self.state }
    {
        let Book {
            alloc: _,
            limits: _,
            node: _,
            journal,
            ledger: _,
            unissued_share: _,
        } = self;
        journal
    }
}

/// Makes the fault of a refused enrolment from its reply, and drops the entry.
fn refusal(reply: Reply, _entry: SharedEntry) -> BookFault
    ensures { result ≡ Refused reply }
{
    BookFault::Refused(reply)
}
