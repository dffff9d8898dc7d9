//! How a node runs a list of steps. `run` stops at a step that runs out of memory, and `run_through` skips such steps.
ghost use Rattle.std.specs.Prelude.{◌≡◌, IfOk, IfErr, OnErr, length, take};
ghost use Rattle.node_core.specs.Observable.{observable};
ghost use Rattle.node_core.specs.Machine.{run};
ghost use Rattle.node_core.specs.Buckets.{run_on_buckets};
ghost use Rattle.node_core.specs.Through.{steps_with_reply, replies_in};
ghost use Rattle.node_core.specs.inside.Passing.{StepsOrUnchanged};

use super::{Node, RunFault};
use crate::step::{Reply, Step};
use ets_term::{Items, KeyHash};
use std::alloc::AllocError;

impl<H: KeyHash + Copy + Drop> Node<H> {
    /// Runs steps in order, each as `step` does. If memory runs out, it stops and returns the replies so far.
    pub fn run(&mut self, steps: &[Step]) -> Result<Vec<Reply>, RunFault>
        ensures ok { IfOk result (λ replies.
            run (observable self.old) steps.now replies.items (observable self.new)) }
        ensures err { IfErr result (λ f.
            run (observable self.old) (take (length f.replies) steps.now) f.replies
            (observable self.new)) }
        ensures ok_buckets { IfOk result (λ replies.
            run_on_buckets self.old steps.now replies.items self.new) }
        ensures err_buckets { IfErr result (λ f.
            run_on_buckets self.old (take (length f.replies) steps.now) f.replies self.new) }
    {
        let mut replies = Vec::new(self.alloc);
        if replies.reserve(steps.len()).is_err() {
            return Err(RunFault::with_replies(replies));
        }
        for event in steps {
            match self.step(event) {
                Ok(reply) => {
                    // This does not fail, because capacity is reserved.
                    if replies.push(reply).is_err() {
                        return Err(RunFault::with_replies(replies));
                    }
                }
                Err(_) => return Err(RunFault::with_replies(replies)),
            }
        }
        Ok(replies)
    }

    /// Runs steps in order, each as `step` does, and skips those that run out of memory: such a step has no reply, and
    /// changes nothing. Capacity for the replies is reserved before the first step. `Err` means that there was no
    /// memory for it.
    pub fn run_through(&mut self, steps: &[Step]) -> Result<Vec<Option<Reply>>, AllocError>
        ensures len { IfOk result (λ answers. length answers.items ≡ length steps.now) }
        ensures ok { IfOk result (λ answers.
            run (observable self.old) (steps_with_reply steps.now answers.items)
            (replies_in answers.items) (observable self.new)) }
        ensures ok_buckets { IfOk result (λ answers.
            run_on_buckets self.old (steps_with_reply steps.now answers.items)
            (replies_in answers.items) self.new) }
        ensures err { OnErr result (self.new ≡ self.old) }
    {
        let mut answers = Vec::with_capacity(self.alloc, steps.len())?;
        for event in steps {
            answers.push_reserved(self.try_step(event));
        }
        Ok(answers)
    }

    /// Runs a step. Returns its reply, or `None` if it ran out of memory and changed nothing.
    fn try_step(&mut self, event: &Step) -> Option<Reply>
        ensures { StepsOrUnchanged self.old event.now result self.new }
    {
        self.step(event).ok()
    }
}

impl RunFault {
    /// Makes the fault of a run that ran out of memory after these replies.
    fn with_replies(replies: Vec<Reply>) -> RunFault
        ensures { result.replies ≡ replies.items }
    {
        RunFault {
            replies: Items::from_vec(replies),
        }
    }
}
