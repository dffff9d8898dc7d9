//! The served node: what is under the lock of a server, a node and the token that knows its history. The history has
//! all steps with their replies in proofs only; at run time its length is stored.
ghost use Rattle.std.specs.Prelude.{◌≡◌, true, false, if◌then◌else◌, Some, None, [], ◌∷◌, IfOk, OnOk, OnErr, IfErr};
ghost use mathlib.Core.List.{IsPrefix};
ghost use Rattle.ets_term.specs.declared.term.Term.TheVariants.{Pid};
ghost use Rattle.node_core.specs.declared.step.Reply.TheVariants.{NoProcess, Value};
ghost use Rattle.node_core.specs.Observable.{observable};
ghost use Rattle.node_core.specs.Reads.{Reads};
ghost use Rattle.node_core.specs.Values.{is_value};
ghost use Rattle.node_core.specs.State.{empty};
ghost use Rattle.node_core.specs.declared.step.Step.TheVariants.{Enrol};
ghost use Rattle.node_core.specs.Woven.{is_step_of};
ghost use Rattle.node_shared.specs.Journal.{entries_of, IsRun};
ghost use Rattle.node_shared.specs.Records.{enrolled_record, with_entry};
ghost use Rattle.node_shared.specs.Serving.{AreRead, RefusesCaller};
ghost use Rattle.node_shared.specs.inside.Steps.{entry_count, ServesGrowth, ServesStep, TriesServingGrowth};
ghost use Rattle.node_shared.specs.Faults.{Refuses, RefusesWith};
ghost use Rattle.node_shared.specs.inside.Lines.{head_of};

use crate::book::BookFault;
use crate::entry::Entry;
use crate::history::{HistoryId, HistoryOwner, HistoryWord, HistoryWriter, SeenHistory};
use ets_term::KeyHash;
use node_core::{Call, Limits, Node, Reply, Step};
use std::alloc::{AllocError, Global};
use std::marker::Model;

/// What is under the lock of a server: the node, the owner of its history, and `count`, the length of the history. A
/// contract sees the node's state and the history, which is a run of the node from its empty state. At run time no step
/// is stored.
#[derive(Drop)]
pub struct ServedNode<B: HistoryId, H: KeyHash + Copy + Drop> {
    node: Node<H>,
    /// The token that knows, in proofs only, the whole history.
    owner: HistoryOwner<B>,
    /// The length of the history, at most the greatest `u64`.
    count: u64,
}

impl<B: HistoryId, H: KeyHash + Copy + Drop> Model for ServedNode<B, H> {
    ghost use Rattle.std.specs.Prelude.{◌≡◌};
    ghost use Rattle.node_shared.specs.Journal.{IsRun};
    ghost use Rattle.node_shared.specs.Serving.{ServedState};
    ghost use Rattle.node_shared.specs.inside.Steps.{entry_count};
    ghost use Rattle.node_shared.specs.inside.Codes.{served_code};
    ghost use Rattle.node_shared.specs.inside.Known.{AreKnown};

    ghost Value = { ServedState };

    ghost coded = { served_code };

    ghost view = { λ s. record { state = s.node; history = s.owner } };

    ghost invariant = { λ s. IsRun B.limits s.owner s.node × (s.count ≡ entry_count s.owner)
        × AreKnown s.owner s.node };
}

// The clause `word` requires that `word` is the history's atomic word.
impl<B: HistoryId, H: KeyHash + Copy + Drop> ServedNode<B, H> {
    /// Creates a node without processes and tables, and the owner of an empty history.
    pub fn new(alloc: Global, owner: HistoryOwner<B>, limits: Limits, hasher: H) -> Self
        requires none { owner ≡ [] }
        requires limits { limits ≡ B.limits }
        ensures { result ≡ record { state = empty limits; history = [] } }
    {
        ServedNode {
            node: Node::new(alloc, limits, hasher),
            owner,
            count: 0,
        }
    }

    /// Returns the number of entries of the history, at most the greatest `u64`. It takes no memory.
    pub(crate) fn count(&self) -> u64
        ensures { result ≡ entry_count self.now.history }
    {
        self.count
    }

    /// Replies to a call that only reads. Returns `None` for any other call. The node does not change.
    pub fn read(&self, pid: u32, call: &Call) -> Result<Option<Reply>, AllocError>
        ensures answer { IfOk result (Reads (observable self.now.state) pid call.now) }
        ensures run { IsRun B.limits self.now.history self.now.state }
    {
        self.node.read(pid, call)
    }

    /// Like `read`, but writes over `reply` and uses its memory again, as `Node::read_into` does. Returns whether it
    /// replied.
    pub fn read_into(&self, pid: u32, call: &Call, reply: &mut Reply) -> Result<bool, AllocError>
        ensures answer { IfOk result (λ replied. Reads (observable self.now.state) pid call.now
            (if replied then Some reply.new else None)) }
        ensures run { IsRun B.limits self.now.history self.now.state }
        ensures reply { IfOk result (λ replied. replied ≡ false → reply.new ≡ reply.old) }
        ensures err { OnErr result (reply.new ≡ NoProcess) }
    {
        self.node.read_into(pid, call, reply)
    }

    /// Replies to several calls, each as `read` does, in order: `None` for a call that does not only read. If memory
    /// runs out, it returns no reply.
    pub fn read_all(
        &self,
        alloc: Global,
        pid: u32,
        calls: &[Call],
    ) -> Result<Vec<Option<Reply>>, AllocError>
        ensures answers { IfOk result (λ replies. AreRead (observable self.now.state) pid calls.now replies.items) }
        ensures run { IsRun B.limits self.now.history self.now.state }
    {
        // The borrow gives the proof the invariant of `self`.
        let _node = &self.node;
        let mut replies = Vec::with_capacity(alloc, calls.len())?;
        for call in calls {
            replies.push_reserved(self.read(pid, call)?);
        }
        Ok(replies)
    }

    /// Returns a token of the history, which takes no memory.
    pub(crate) fn token(&self) -> SeenHistory<B>
        ensures { result ≡ self.now.history }
    {
        self.owner.token()
    }

    /// Shows that the history has all that `seen` has, which becomes the whole history. The node does not change.
    pub(crate) fn show(&mut self, word: &HistoryWord, seen: &mut SeenHistory<B>)
        requires word { word.now ≡ head_of B.book }
        ensures same { self.new ≡ self.old }
        ensures seen { seen.new ≡ self.old.history }
        ensures before { IsPrefix seen.old self.old.history }
        ensures run { IsRun B.limits self.old.history self.old.state }
    {
        self.owner.show(word, seen);
    }

    /// Runs a step of the writer's process, adds its entry to the history and to the writer's entries, and returns the
    /// reply. The history had all that `seen` has, and of the process the writer's entries. `seen` becomes the whole
    /// history. Running out of memory changes nothing.
    pub(crate) fn step(
        &mut self,
        word: &HistoryWord,
        writer: &mut HistoryWriter<B>,
        seen: &mut SeenHistory<B>,
        event: Step,
    ) -> Result<Reply, AllocError>
        requires word { word.now ≡ head_of B.book }
        requires own { is_step_of writer.old.pid event ≡ true }
        ensures step { IfOk result (λ r. ServesStep self.old event r self.new) }
        ensures own { IfOk result (λ r. writer.new ≡ with_entry writer.old event r) }
        ensures seen { OnOk result (seen.new ≡ self.new.history) }
        ensures before { OnOk result (IsPrefix seen.old self.old.history) }
        ensures exact { OnOk result (entries_of writer.old.pid self.old.history ≡ writer.old.entries) }
        ensures run { OnOk result (IsRun B.limits self.new.history self.new.state) }
        ensures err { OnErr result ((self.new ≡ self.old) × (writer.new ≡ writer.old) × (seen.new ≡ seen.old)) }
    {
        let reply = self.node.step(&event)?;
        writer.has_joined();
        let added = Entry { step: event, reply };
        let entered = self.owner.enter(word, writer, seen, added);
        self.count = self.count.saturating_add(1);
        let Entry { step: _, reply } = entered;
        Ok(reply)
    }

    /// Enrols a process, adds the entry to the history, and returns the writer of the process's entries and the reply.
    /// The history had no entry of the process. A fault changes nothing.
    pub(crate) fn join(
        &mut self,
        word: &HistoryWord,
        pid: u32,
    ) -> Result<(HistoryWriter<B>, Reply), BookFault>
        requires word { word.now ≡ head_of B.book }
        ensures step { IfOk result (λ joined. ServesStep self.old (Enrol pid) joined.1 self.new) }
        ensures value { IfOk result (λ joined. is_value joined.1 ≡ true) }
        ensures pid { IfOk result (λ joined. joined.1 ≡ Value (Pid pid)) }
        ensures own { IfOk result (λ joined. joined.0 ≡ enrolled_record pid joined.1) }
        ensures none { OnOk result (entries_of pid self.old.history ≡ []) }
        ensures run { OnOk result (IsRun B.limits self.new.history self.new.state) }
        ensures err { OnErr result (self.new ≡ self.old) }
        ensures refused { IfErr result (Refuses self.old.state pid) }
        ensures refused_run { IfErr result (RefusesWith (RefusesCaller B.limits pid)) }
    {
        let enrol = Step::Enrol(pid);
        let Ok(reply) = self.node.step(&enrol) else {
            return Err(BookFault::Memory);
        };
        if !reply.is_value() {
            return Err(BookFault::Refused(reply));
        }
        let added = Entry { step: enrol, reply };
        let (writer, entered) = self.owner.enter_first(word, pid, added);
        self.count = self.count.saturating_add(1);
        let Entry { step: _, reply } = entered;
        Ok((writer, reply))
    }

    /// Runs the node's pending growth step, if there is one, and adds its entry to the history. The step doubles the
    /// buckets of a table, or readies one bucket. Returns whether it ran one: `false` if none is pending. Running out
    /// of memory changes nothing.
    pub(crate) fn tend(&mut self, word: &HistoryWord) -> Result<bool, AllocError>
        requires word { word.now ≡ head_of B.book }
        ensures growth { IfOk result (ServesGrowth self.old self.new) }
        ensures err { OnErr result (self.new ≡ self.old) }
    {
        let Some(due) = self.node.due() else {
            return Ok(false);
        };
        let reply = self.node.step(&due)?;
        self.owner.enter_growth(word, Entry { step: due, reply });
        self.count = self.count.saturating_add(1);
        Ok(true)
    }

    /// Runs the pending growth step as `tend` does. Returns whether it ran one. `false` means that none is pending or
    /// that memory ran out, and that nothing changed.
    pub(crate) fn try_tend(&mut self, word: &HistoryWord) -> bool
        requires word { word.now ≡ head_of B.book }
        ensures { TriesServingGrowth self.old self.new result }
    {
        matches!(self.tend(word), Ok(true))
    }
}
