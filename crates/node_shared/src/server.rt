//! A server: a node that threads share through a lock, and that stores no journal. Its history, all steps with their
//! replies, exists only in proofs, as what tokens know.
ghost use Rattle.std.specs.Prelude.{◌≡◌, ◌≤◌, true, false, IfOk, IfErr};
ghost use Rattle.ets_term.specs.declared.term.Term.TheVariants.{Pid};
ghost use Rattle.node_core.specs.declared.step.Reply.TheVariants.{Value};
ghost use Rattle.node_core.specs.Values.{is_value};
ghost use Rattle.node_shared.specs.Records.{enrolled_record};
ghost use Rattle.node_shared.specs.Serving.{IsEnrolledCaller, RefusesCaller};
ghost use Rattle.node_shared.specs.Faults.{HandsBack, JoinRefusesWith, RefusesWith};
ghost use Rattle.node_shared.specs.inside.Lines.{head_of};

use crate::book::BookFault;
use crate::caller::Caller;
use crate::history::{HistoryId, HistoryWord, NewHistory};
use crate::pids::Drawn;
use crate::served::ServedNode;
use crate::server_lock::{AnyLock, Locking, ServerLock};
use crate::shared::JoinFault;
use ets_term::KeyHash;
use node_core::Limits;
use std::alloc::{AllocError, Global};
use std::sync::Wait;

/// A node that threads share. It stores nothing of a call after the reply, so it can be shared for any length of time.
/// Readers run in parallel. `Locking` chooses its lock. `B` names the history and the limits, in proofs only, and `H`
/// is the hasher of keys.
#[derive(Drop)]
pub struct Server<B: HistoryId, H: KeyHash + Copy + Drop> {
    /// The atomic word of the history.
    pub(crate) word: HistoryWord,
    /// The lock, with the node and the owner of its history under it.
    pub(crate) lock: ServerLock<B, H>,
    ghost word_is: { word ≡ head_of B.book },
}

impl<B: HistoryId, H: KeyHash + Copy + Drop> Server<B, H> {
    /// Puts a node without processes and tables, as `ServedNode::new` makes it, under a lock, with the given history.
    /// The contract of a lock says nothing of its value but the invariant of its type: the history is a run of a node
    /// with these limits. `Err` is out of memory for the lock.
    pub fn new(
        alloc: Global,
        locking: Locking,
        history: NewHistory,
        limits: Limits,
        hasher: H,
    ) -> Result<Self, AllocError>
        requires book { history.seen.book ≡ B.book }
        requires root { history.turn.nib.key ≡ B.root }
        requires limits { limits ≡ B.limits }
        ensures { IfOk result (λ server. server.word ≡ history.word) }
    {
        let (word, owner) = history.into_named::<B>();
        let served = ServedNode::new(alloc, owner, limits, hasher);
        Ok(Server {
            word,
            lock: ServerLock::new(alloc, locking, served)?,
        })
    }

    /// Enrols the number that was drawn, and returns the caller of that process. A fault gives the number back. It may
    /// wait for the lock.
    pub fn client<R: Wait>(&self, rt: &R, drawn: Drawn) -> Result<Caller<B>, JoinFault>
        ensures ok { IfOk result (IsEnrolledCaller B.limits drawn.number) }
        ensures start { IfOk result (λ caller. caller.own ≡ enrolled_record drawn.number (Value (Pid drawn.number))) }
        ensures err { IfErr result (HandsBack drawn) }
        ensures refused { IfErr result (JoinRefusesWith (RefusesCaller B.limits drawn.number)) }
    {
        match self.join(rt, drawn.pid()) {
            Ok(caller) => Ok(caller),
            Err(BookFault::Refused(reply)) => Err(JoinFault::Refused(reply, drawn)),
            Err(BookFault::Memory) => Err(JoinFault::Memory(drawn)),
        }
    }

    /// Takes the lock, of whichever kind, enrols a process, and returns its caller.
    fn join<R: Wait>(&self, rt: &R, pid: u32) -> Result<Caller<B>, BookFault>
        ensures ok { IfOk result (IsEnrolledCaller B.limits pid) }
        ensures start { IfOk result (λ caller. caller.own ≡ enrolled_record pid (Value (Pid pid))) }
        ensures refused { IfErr result (RefusesWith (λ r. is_value r ≡ false)) }
        ensures refused_run { IfErr result (RefusesWith (RefusesCaller B.limits pid)) }
    {
        match &self.lock.kind {
            AnyLock::Single(lock) => self.join_locked(&mut *lock.write(rt), pid),
            AnyLock::Sharded(lock) => self.join_locked(&mut **lock.write(rt), pid),
        }
    }

    /// Enrols a process on the node, which is under the lock, and returns its caller.
    fn join_locked(&self, served: &mut ServedNode<B, H>, pid: u32) -> Result<Caller<B>, BookFault>
        ensures ok { IfOk result (IsEnrolledCaller B.limits pid) }
        ensures start { IfOk result (λ caller. caller.own ≡ enrolled_record pid (Value (Pid pid))) }
        ensures refused { IfErr result (RefusesWith (λ r. is_value r ≡ false)) }
        ensures refused_run { IfErr result (RefusesWith (RefusesCaller B.limits pid)) }
    {
        let (writer, _reply) = served.join(&self.word, pid)?;
        Ok(Caller::new(writer, served.token(), served.count()))
    }

    /// Runs at most `turns` pending growth steps, and takes the lock anew for each. Such a step doubles the buckets of
    /// a table, or readies one bucket. Stops earlier if no step is pending, or memory runs out. Returns the number of
    /// growth steps that it ran. It may wait for the lock.
    pub fn keep<R: Wait>(&self, rt: &R, turns: u32) -> u32
        ensures { result ≤ turns }
    {
        let mut done = 0;
        for _ in 0..turns {
            if !self.try_tend(rt) {
                break;
            }
            done += 1;
        }
        done
    }

    /// Takes the lock, of whichever kind, and runs the pending growth step. Returns whether it ran one: `false` if none
    /// is pending, or memory runs out.
    fn try_tend<R: Wait>(&self, rt: &R) -> bool {
        match &self.lock.kind {
            AnyLock::Single(lock) => lock.write(rt).try_tend(&self.word),
            AnyLock::Sharded(lock) => lock.write(rt).try_tend(&self.word),
        }
    }
}
