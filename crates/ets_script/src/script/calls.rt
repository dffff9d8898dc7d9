//! The calls of a script's processes, which most lines make. A call reuses the memory of earlier arguments and of the
//! earlier answer, to allocate less.
ghost use Rattle.std.specs.Prelude.{◌≡◌, ◌⊎◌, [], Some, IfSome};
ghost use Rattle.ets_script.specs.Commands as spec;
ghost use Rattle.ets_script.specs.declared.answer.Answer.TheVariants.{NoMemory};
ghost use Rattle.ets_script.specs.Script.{pid_of, KeepsState, Steps, Executes};

use super::Script;
use crate::answer::Answer;
use ets_term::{Items, KeyHash, Term};
use node_core::{Call, Step};
use std::alloc::Global;

impl<H: KeyHash + Copy + Drop> Script<H> {
    /// Makes a call for the process with this name, and then runs at most two pending growth steps. Answers `NoProcess`
    /// if the name was not spawned.
    #[inline(always)]
    pub(super) fn ask(&mut self, name: &[u8], call: Call, answer: &mut Answer)
        ensures { Executes (spec.ask name.now call.name call.args) self.old answer.new self.new
            ⊎ KeepsState self.old NoMemory answer.new self.new }
    {
        match self.caller(name) {
            Some(pid) => {
                let step = Step::Ask(pid, call);
                self.step(&step, answer);
                self.keep_call(step);
                self.run_pending_steps();
            }
            None => answer.set_no_process(),
        }
    }

    /// Returns an empty list for the arguments of a call, with the memory of earlier arguments, if any is kept.
    #[inline(always)]
    pub(super) fn take_arguments(&mut self, alloc: Global) -> Items<Term>
        ensures empty { result ≡ [] }
        ensures same { self.new ≡ self.old }
    {
        match self.arguments.take() {
            Some(mut earlier) => {
                earlier.clear();
                Items::from_vec(earlier)
            }
            None => Items::new(alloc),
        }
    }

    /// Drops the call of a step, and keeps the memory of its arguments.
    #[inline(always)]
    fn keep_call(&mut self, step: Step)
        ensures { self.new ≡ self.old }
    {
        match step {
            Step::Ask(_, call) => self.keep_arguments(call.args),
            _ => {}
        }
    }

    /// Drops the arguments of a call, and keeps their memory for the next call.
    #[inline(always)]
    pub(super) fn keep_arguments(&mut self, args: Items<Term>)
        ensures { self.new ≡ self.old }
    {
        let mut terms = args.into_vec();
        terms.clear();
        self.arguments = Some(terms);
    }

    /// Returns the process with this name, which makes a call. Most calls have the same process as the previous call,
    /// which is kept in `last_caller`. Contracts do not see that field.
    #[inline(always)]
    fn caller(&mut self, name: &[u8]) -> Option<u32>
        ensures pid { result ≡ pid_of self.old name.now }
        ensures same { self.new ≡ self.old }
    {
        if let Some(pid) = self.last_caller_with_name(name) {
            return Some(pid);
        }
        let pid = self.pid(name);
        if let Some(number) = pid {
            self.last_caller = number;
        }
        pid
    }

    /// Returns the process in `last_caller` if this is its name, and `None` if not.
    #[inline(always)]
    fn last_caller_with_name(&self, name: &[u8]) -> Option<u32>
        ensures { IfSome result (λ p. pid_of self.now name.now ≡ Some p) }
    {
        // The contract of `len` gives the proof that all names are different.
        let _count = self.names.len();
        match self.names.get_index(self.last_caller as usize) {
            Some(last_name) if name == last_name.as_slice() => Some(self.last_caller),
            _ => None,
        }
    }

    /// Runs a step of the node, and writes the answer. The reply uses the memory of the previous reply.
    #[inline(always)]
    pub(super) fn step(&mut self, step: &Step, answer: &mut Answer)
        ensures { Steps self.old step.now answer.new self.new
            ⊎ KeepsState self.old NoMemory answer.new self.new }
    {
        let step_result = match answer {
            Answer::Replied(reply) => self.node.step_into(step, reply),
            _ => {
                *answer = self.step_anew(step);
                return;
            }
        };
        if step_result.is_err() {
            *answer = Answer::NoMemory;
        }
    }

    /// Runs a step of the node after an answer that is not a reply, so that there is no memory to use again.
    #[inline(never)]
    fn step_anew(&mut self, step: &Step) -> Answer
        ensures { Steps self.old step.now result self.new
            ⊎ KeepsState self.old NoMemory result self.new }
    {
        match self.node.step(step) {
            Ok(reply) => Answer::Replied(reply),
            Err(_) => Answer::NoMemory,
        }
    }

    /// Runs at most two pending growth steps, which no call observes: first those of the table that was changed last.
    #[inline(always)]
    fn run_pending_steps(&mut self)
        ensures { self.new ≡ self.old }
    {
        // Two, so that the buckets keep up with insertions, and no line waits for more.
        self.node.run_pending_steps(2);
    }
}
