//! The steps that start a process, here called enrolling, and that end it.
ghost use Rattle.std.specs.Prelude.{◌≡◌, IfOk, OnErr};
ghost use Rattle.node_core.specs.Machine.{step};
ghost use Rattle.node_core.specs.declared.step.Step.TheVariants.{Enrol, End};

use super::Node;
use super::ask::into_reply;
use super::replies::{refusal_of, true_reply};
use crate::step::Reply;
use ets_term::{KeyHash, Term};
use std::alloc::AllocError;

impl<H: KeyHash + Copy + Drop> Node<H> {
    /// Enrols (starts) a process. The reply is its pid, or a refusal.
    pub(crate) fn enrol(&mut self, pid: u32) -> Result<Reply, AllocError>
        ensures ok { IfOk result (λ r. step self.old (Enrol pid) r self.new) }
        ensures err { OnErr result (self.new ≡ self.old) }
    {
        match self.world.enrol(pid) {
            Ok(()) => Ok(Reply::Value(Term::Pid(pid))),
            Err(fault) => into_reply(refusal_of(fault)),
        }
    }

    /// Ends a process. Its tables pass to their heirs or are deleted. The reply is `true`, or `NoProcess` if the
    /// process does not live.
    pub(crate) fn end(&mut self, pid: u32) -> Result<Reply, AllocError>
        ensures ok { IfOk result (λ r. step self.old (End pid) r self.new) }
        ensures err { OnErr result (self.new ≡ self.old) }
    {
        match self.world.end(pid) {
            Ok(()) => Ok(true_reply(self.alloc)),
            Err(fault) => into_reply(refusal_of(fault)),
        }
    }
}
