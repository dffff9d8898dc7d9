//! A caller of a server: it makes the calls of one process. Its tokens know, in proofs only, what the caller saw of the
//! server's history, and which entries it added.
ghost use Rattle.std.specs.Prelude.{◌≡◌, ◌≤◌, true, [], length, vec_capacity, IfOk, IfErr, OnOk, OnErr};
ghost use mathlib.Core.List.{IsPrefix};
ghost use Rattle.node_core.specs.declared.step.Step.TheVariants.{End, Ask};
ghost use Rattle.node_core.specs.Woven.{is_step_of};
ghost use Rattle.node_shared.specs.Calling.{HasAsked};
ghost use Rattle.node_shared.specs.Journal.{entries_of};
ghost use Rattle.node_shared.specs.Serving.{Continues, ContinuesBy};
ghost use Rattle.node_shared.specs.inside.Steps.{ServesStep, entry_count};
ghost use Rattle.node_shared.specs.inside.Lines.{head_of};

mod looks;
mod reads;

use crate::history::{HistoryId, HistoryWord, HistoryWriter, SeenHistory};
use crate::served::ServedNode;
use crate::server::Server;
use crate::server_lock::AnyLock;
use ets_term::{Items, KeyHash};
use node_core::{Call, Reply, RunFault, Step};
use std::alloc::{AllocError, Global};
use std::marker::Model;
use std::sync::Wait;

/// Makes the calls of one process of a server. A contract sees the process, its own steps with their replies, and all
/// entries of the server's history that the caller saw. The entries exist in proofs only; `count` is how many it saw.
#[derive(Drop)]
pub struct Caller<B: HistoryId> {
    /// The token that knows, in proofs only, which entries this caller added.
    writer: HistoryWriter<B>,
    /// The token that knows, in proofs only, the entries that this caller saw.
    seen: SeenHistory<B>,
    /// The number of the entries that this caller saw, at most the greatest `u64`.
    count: u64,
}

impl<B: HistoryId> Model for Caller<B> {
    ghost use Rattle.std.specs.Prelude.{◌≡◌};
    ghost use mathlib.Core.List.{IsPrefix};
    ghost use Rattle.node_shared.specs.Journal.{entries_of};
    ghost use Rattle.node_shared.specs.Serving.{CallerState};
    ghost use Rattle.node_shared.specs.inside.Steps.{entry_count};
    ghost use Rattle.node_shared.specs.inside.Codes.{caller_code};

    ghost Value = { CallerState };

    ghost coded = { caller_code };

    ghost view = { λ c. record { own = c.writer; seen = c.seen } };

    ghost invariant = { λ c. (c.count ≡ entry_count c.seen)
        × IsPrefix c.writer.entries (entries_of c.writer.pid c.seen) };
}

impl<B: HistoryId> Caller<B> {
    /// Makes the caller of a process, which saw `count` entries, its own among them.
    pub(crate) fn new(writer: HistoryWriter<B>, seen: SeenHistory<B>, count: u64) -> Self
        requires count { count ≡ entry_count seen }
        requires own { IsPrefix writer.entries (entries_of writer.pid seen) }
        ensures { result ≡ record { own = writer; seen = seen } }
    {
        Caller {
            writer,
            seen,
            count,
        }
    }

    /// Returns the number of the process. It takes no memory.
    pub fn pid(&self) -> u32
        ensures { result ≡ self.now.own.pid }
    {
        self.writer.pid()
    }

    /// Learns all that another caller of this server saw: the next calls of this caller come after it. Call it when the
    /// other caller tells this one something.
    pub fn learn(&mut self, other: &Caller<B>)
        ensures own { self.new.own ≡ self.old.own }
        ensures this { IsPrefix self.old.seen self.new.seen }
        ensures that { IsPrefix other.now.seen self.new.seen }
    {
        if self.count < other.count {
            self.seen.begins(&other.seen);
            self.seen = other.seen.again();
            self.count = other.count;
        } else if other.count < u64::MAX {
            other.seen.begins(&self.seen);
        } else {
            // Both counts are the greatest `u64`, so they tell nothing.
            self.seen = self.seen.with(&other.seen);
        }
    }

    /// Makes a call and returns its reply. The call is the last of a run of the node, after all that this caller saw,
    /// and after exactly its own earlier calls with their replies. Running out of memory changes nothing. It may wait
    /// for the lock.
    pub fn ask<H: KeyHash + Copy + Drop, R: Wait>(
        &mut self,
        rt: &R,
        server: &Server<B, H>,
        call: Call,
    ) -> Result<Reply, AllocError>
        ensures ok { IfOk result (λ r. ContinuesBy B.limits self.old (Ask self.old.own.pid call) r self.new) }
        ensures err { OnErr result (self.new ≡ self.old) }
    {
        let event = Step::Ask(self.pid(), call);
        self.step(rt, server, event)
    }

    /// Makes these calls in order, with no step of another process between them, and returns their replies. `ask` says
    /// what holds of each. Then runs at most `max_growth_steps` pending growth steps, which no call observes, before it
    /// releases the lock. If memory runs out for a call, it makes no further call, and the fault has the replies so
    /// far. It may wait for the lock.
    pub fn ask_all<H: KeyHash + Copy + Drop, R: Wait>(
        &mut self,
        rt: &R,
        server: &Server<B, H>,
        calls: Vec<Call>,
        max_growth_steps: u32,
    ) -> Result<Vec<Reply>, RunFault>
        ensures ok { IfOk result (λ replies. HasAsked B.limits self.old calls.items replies.items self.new) }
        ensures all { IfOk result (λ replies. length replies.items ≡ length calls.items) }
        ensures err { IfErr result (λ fault. HasAsked B.limits self.old calls.items fault.replies self.new) }
    {
        match &server.lock.kind {
            AnyLock::Single(lock) => {
                self.ask_and_grow(&server.word, &mut *lock.write(rt), calls, max_growth_steps)
            }
            AnyLock::Sharded(lock) => {
                self.ask_and_grow(&server.word, &mut **lock.write(rt), calls, max_growth_steps)
            }
        }
    }

    /// Makes calls on the node, which is under the lock, and returns their replies. Then runs at most
    /// `max_growth_steps` pending growth steps. If memory runs out for a call, the fault has the replies so far.
    fn ask_and_grow<H: KeyHash + Copy + Drop>(
        &mut self,
        word: &HistoryWord,
        served: &mut ServedNode<B, H>,
        calls: Vec<Call>,
        max_growth_steps: u32,
    ) -> Result<Vec<Reply>, RunFault>
        requires word { word.now ≡ head_of B.book }
        ensures ok { IfOk result (λ replies. HasAsked B.limits self.old calls.items replies.items self.new) }
        ensures all { IfOk result (λ replies. length replies.items ≡ length calls.items) }
        ensures err { IfErr result (λ fault. HasAsked B.limits self.old calls.items fault.replies self.new) }
    {
        self.look_alone(word, served);
        let mut replies = Vec::new(*calls.allocator());
        if replies.reserve(calls.len()).is_err() {
            return Err(fault_after(replies));
        }
        let replies = self.ask_each(word, served, calls, replies)?;
        for _ in 0..max_growth_steps {
            if !served.try_tend(word) {
                break;
            }
        }
        Ok(replies)
    }

    /// Makes the calls in order, until one runs out of memory: then the fault has the replies so far. `replies` is
    /// passed empty, with room for all replies, and is returned with them. The caller has seen the whole history.
    fn ask_each<H: KeyHash + Copy + Drop>(
        &mut self,
        word: &HistoryWord,
        served: &mut ServedNode<B, H>,
        calls: Vec<Call>,
        mut replies: Vec<Reply>,
    ) -> Result<Vec<Reply>, RunFault>
        requires word { word.now ≡ head_of B.book }
        requires all { self.old.seen ≡ served.old.history }
        requires more { Continues B.limits self.old [] self.old }
        requires none { replies.items ≡ [] }
        requires room { length calls.items ≤ vec_capacity replies }
        ensures ok { IfOk result (λ replies. HasAsked B.limits self.old calls.items replies.items self.new) }
        ensures all { IfOk result (λ replies. length replies.items ≡ length calls.items) }
        ensures err { IfErr result (λ fault. HasAsked B.limits self.old calls.items fault.replies self.new) }
    {
        for call in calls {
            let next = Step::Ask(self.pid(), call);
            match self.step_locked(word, served, next) {
                Ok(reply) => replies.push_reserved(reply),
                Err(_) => return Err(fault_after(replies)),
            }
        }
        Ok(replies)
    }

    /// Ends the process and returns the reply; the reply to later calls is `NoProcess`. `ask` says what holds of order
    /// and of running out of memory. It may wait for the lock.
    pub fn end<H: KeyHash + Copy + Drop, R: Wait>(
        &mut self,
        rt: &R,
        server: &Server<B, H>,
    ) -> Result<Reply, AllocError>
        ensures ok { IfOk result (λ r. ContinuesBy B.limits self.old (End self.old.own.pid) r self.new) }
        ensures err { OnErr result (self.new ≡ self.old) }
    {
        let event = Step::End(self.pid());
        self.step(rt, server, event)
    }

    /// Takes the lock, of whichever kind, runs one step, and returns its reply.
    fn step<H: KeyHash + Copy + Drop, R: Wait>(
        &mut self,
        rt: &R,
        server: &Server<B, H>,
        event: Step,
    ) -> Result<Reply, AllocError>
        requires { is_step_of self.old.own.pid event ≡ true }
        ensures ok { IfOk result (λ r. ContinuesBy B.limits self.old event r self.new) }
        ensures err { OnErr result (self.new ≡ self.old) }
    {
        match &server.lock.kind {
            AnyLock::Single(lock) => self.step_locked(&server.word, &mut *lock.write(rt), event),
            AnyLock::Sharded(lock) => self.step_locked(&server.word, &mut **lock.write(rt), event),
        }
    }

    /// Runs a step on the node under the lock, after which this caller saw the whole history, and returns the reply.
    fn step_locked<H: KeyHash + Copy + Drop>(
        &mut self,
        word: &HistoryWord,
        served: &mut ServedNode<B, H>,
        event: Step,
    ) -> Result<Reply, AllocError>
        requires word { word.now ≡ head_of B.book }
        requires own { is_step_of self.old.own.pid event ≡ true }
        ensures ok { IfOk result (λ r. ContinuesBy B.limits self.old event r self.new) }
        ensures step { IfOk result (λ r. ServesStep served.old event r served.new) }
        ensures all { OnOk result (self.new.seen ≡ served.new.history) }
        ensures err { OnErr result (self.new ≡ self.old) }
    {
        let reply = served.step(word, &mut self.writer, &mut self.seen, event)?;
        self.count = served.count();
        Ok(reply)
    }
}

/// Makes the fault of calls that ran out of memory after these replies.
fn fault_after(replies: Vec<Reply>) -> RunFault
    ensures { result.replies ≡ replies.items }
{
    RunFault {
        replies: Items::from_vec(replies),
    }
}
