//! The calls of a caller that only read: they take the lock as readers, and add no entry to the history. After a read
//! the caller saw the whole history.
// `look` may fail to show that the history has all that the caller saw. Then a read takes the lock as a writer, and
// `look_alone` shows it. This never happens while a history has fewer entries than the greatest `u64`.
ghost use Rattle.std.specs.Prelude.{◌≡◌, false, if◌then◌else◌, Some, None, IfOk, IfSome, IfNone, OnErr};
ghost use Rattle.node_core.specs.declared.step.Reply.TheVariants.{NoProcess};
ghost use Rattle.node_shared.specs.Serving.{AnswersRead, AnswersReads, SeesMore};
ghost use Rattle.node_shared.specs.inside.Lines.{head_of};

use super::Caller;
use crate::history::{HistoryId, HistoryWord};
use crate::served::ServedNode;
use crate::server::Server;
use crate::server_lock::AnyLock;
use ets_term::KeyHash;
use node_core::{Call, Reply};
use std::alloc::{AllocError, Global};
use std::sync::Wait;

impl<B: HistoryId> Caller<B> {
    /// Replies to a call that only reads, in parallel with other readers. Returns `None` for any other call. The state
    /// that it reads is that after a run, which begins with all that this caller saw. `Err` is out of memory. It may
    /// wait for the lock.
    pub fn read<H: KeyHash + Copy + Drop, R: Wait>(
        &mut self,
        rt: &R,
        server: &Server<B, H>,
        call: &Call,
    ) -> Result<Option<Reply>, AllocError>
        ensures ok { IfOk result (AnswersRead B.limits self.new.seen self.old.own.pid call.now) }
        ensures more { SeesMore self.old self.new }
    {
        match &server.lock.kind {
            AnyLock::Single(lock) => {
                let shared = self.read_shared(&*lock.read(rt), call);
                match shared {
                    Some(result) => result,
                    None => self.read_alone(&server.word, &mut *lock.write(rt), call),
                }
            }
            AnyLock::Sharded(lock) => {
                let shared = self.read_shared(&**lock.read(rt, self.shard()), call);
                match shared {
                    Some(result) => result,
                    None => self.read_alone(&server.word, &mut **lock.write(rt), call),
                }
            }
        }
    }

    /// Replies to a call that only reads, from the node under the lock. Returns `None` if this does not show that the
    /// history has all that the caller saw.
    fn read_shared<H: KeyHash + Copy + Drop>(
        &mut self,
        served: &ServedNode<B, H>,
        call: &Call,
    ) -> Option<Result<Option<Reply>, AllocError>>
        ensures ok { IfSome result (λ r. IfOk r (AnswersRead B.limits self.new.seen self.old.own.pid call.now)) }
        ensures more { IfSome result (λ _. SeesMore self.old self.new) }
        ensures unseen { IfNone result (self.new ≡ self.old) }
    {
        if !self.look(served) {
            return None;
        }
        Some(served.read(self.pid(), call))
    }

    /// Replies to a call that only reads, from the node under the lock that a writer has.
    fn read_alone<H: KeyHash + Copy + Drop>(
        &mut self,
        word: &HistoryWord,
        served: &mut ServedNode<B, H>,
        call: &Call,
    ) -> Result<Option<Reply>, AllocError>
        requires { word.now ≡ head_of B.book }
        ensures ok { IfOk result (AnswersRead B.limits self.new.seen self.old.own.pid call.now) }
        ensures more { SeesMore self.old self.new }
    {
        self.look_alone(word, served);
        served.read(self.pid(), call)
    }

    /// Like `read`, but writes over `reply` and uses its memory again, as `Node::read_into` does. Returns `false` for a
    /// call that does not only read, and then leaves `reply` as it is. After an error, `reply` is `NoProcess`.
    pub fn read_into<H: KeyHash + Copy + Drop, R: Wait>(
        &mut self,
        rt: &R,
        server: &Server<B, H>,
        call: &Call,
        reply: &mut Reply,
    ) -> Result<bool, AllocError>
        ensures ok { IfOk result (λ replied. AnswersRead B.limits self.new.seen self.old.own.pid call.now
            (if replied then Some reply.new else None)) }
        ensures more { SeesMore self.old self.new }
        ensures reply { IfOk result (λ replied. replied ≡ false → reply.new ≡ reply.old) }
        ensures err { OnErr result (reply.new ≡ NoProcess) }
    {
        match &server.lock.kind {
            AnyLock::Single(lock) => {
                let shared = self.read_into_shared(&*lock.read(rt), call, reply);
                match shared {
                    Some(result) => result,
                    None => self.read_into_alone(&server.word, &mut *lock.write(rt), call, reply),
                }
            }
            AnyLock::Sharded(lock) => {
                let shared = self.read_into_shared(&**lock.read(rt, self.shard()), call, reply);
                match shared {
                    Some(result) => result,
                    None => self.read_into_alone(&server.word, &mut **lock.write(rt), call, reply),
                }
            }
        }
    }

    /// Writes the reply to a call that only reads over `reply`, as `read_shared` finds it. Returns `false` for any other
    /// call, and then leaves `reply` as it is. After an error, `reply` is `NoProcess`.
    fn read_into_shared<H: KeyHash + Copy + Drop>(
        &mut self,
        served: &ServedNode<B, H>,
        call: &Call,
        reply: &mut Reply,
    ) -> Option<Result<bool, AllocError>>
        ensures ok { IfSome result (λ r. IfOk r (λ replied.
            AnswersRead B.limits self.new.seen self.old.own.pid call.now (if replied then Some reply.new else None))) }
        ensures more { IfSome result (λ _. SeesMore self.old self.new) }
        ensures unseen { IfNone result (self.new ≡ self.old) }
        ensures reply { IfSome result (λ r. IfOk r (λ replied. replied ≡ false → reply.new ≡ reply.old)) }
        ensures err { IfSome result (λ r. OnErr r (reply.new ≡ NoProcess)) }
        ensures none { IfNone result (reply.new ≡ reply.old) }
    {
        if !self.look(served) {
            return None;
        }
        Some(served.read_into(self.pid(), call, reply))
    }

    /// Writes the reply to a call that only reads over `reply`, as `read_alone` finds it.
    fn read_into_alone<H: KeyHash + Copy + Drop>(
        &mut self,
        word: &HistoryWord,
        served: &mut ServedNode<B, H>,
        call: &Call,
        reply: &mut Reply,
    ) -> Result<bool, AllocError>
        requires { word.now ≡ head_of B.book }
        ensures ok { IfOk result (λ replied. AnswersRead B.limits self.new.seen self.old.own.pid call.now
            (if replied then Some reply.new else None)) }
        ensures more { SeesMore self.old self.new }
        ensures reply { IfOk result (λ replied. replied ≡ false → reply.new ≡ reply.old) }
        ensures err { OnErr result (reply.new ≡ NoProcess) }
    {
        self.look_alone(word, served);
        served.read_into(self.pid(), call, reply)
    }

    /// Replies to several calls that only read, in order and all from one state, under one hold of the lock. `read`
    /// says what holds of that state, for which calls there is no reply, and what `Err` is.
    pub fn read_all<H: KeyHash + Copy + Drop, R: Wait>(
        &mut self,
        rt: &R,
        alloc: Global,
        server: &Server<B, H>,
        calls: &[Call],
    ) -> Result<Vec<Option<Reply>>, AllocError>
        ensures ok { IfOk result (λ replies.
            AnswersReads B.limits self.new.seen self.old.own.pid calls.now replies.items) }
        ensures more { SeesMore self.old self.new }
    {
        match &server.lock.kind {
            AnyLock::Single(lock) => {
                let shared = self.read_all_shared(alloc, &*lock.read(rt), calls);
                match shared {
                    Some(result) => result,
                    None => self.read_all_alone(alloc, &server.word, &mut *lock.write(rt), calls),
                }
            }
            AnyLock::Sharded(lock) => {
                let shared = self.read_all_shared(alloc, &**lock.read(rt, self.shard()), calls);
                match shared {
                    Some(result) => result,
                    None => self.read_all_alone(alloc, &server.word, &mut **lock.write(rt), calls),
                }
            }
        }
    }

    /// Replies to each call that only reads, from one state of the node under the lock. For any other call the result
    /// has `None`. Returns `None` as `read_shared` does.
    fn read_all_shared<H: KeyHash + Copy + Drop>(
        &mut self,
        alloc: Global,
        served: &ServedNode<B, H>,
        calls: &[Call],
    ) -> Option<Result<Vec<Option<Reply>>, AllocError>>
        ensures ok { IfSome result (λ r. IfOk r (λ replies.
            AnswersReads B.limits self.new.seen self.old.own.pid calls.now replies.items)) }
        ensures more { IfSome result (λ _. SeesMore self.old self.new) }
        ensures unseen { IfNone result (self.new ≡ self.old) }
    {
        if !self.look(served) {
            return None;
        }
        Some(served.read_all(alloc, self.pid(), calls))
    }

    /// Replies to each call that only reads, from the node under the lock that a writer has.
    fn read_all_alone<H: KeyHash + Copy + Drop>(
        &mut self,
        alloc: Global,
        word: &HistoryWord,
        served: &mut ServedNode<B, H>,
        calls: &[Call],
    ) -> Result<Vec<Option<Reply>>, AllocError>
        requires { word.now ≡ head_of B.book }
        ensures ok { IfOk result (λ replies.
            AnswersReads B.limits self.new.seen self.old.own.pid calls.now replies.items) }
        ensures more { SeesMore self.old self.new }
    {
        self.look_alone(word, served);
        served.read_all(alloc, self.pid(), calls)
    }

    /// Returns the number that chooses the shard of a sharded lock for a read. Callers whose numbers differ modulo 8,
    /// the number of shards, write to different words of memory.
    fn shard(&self) -> usize {
        self.pid() as usize
    }
}
