//! The phases of the benchmark: one step for each key, in an order of the phase's own. A table goes through all phases.
use crate::calls::{
    call_of_key, count_up_call, has_object, insert_call, is_atom, write_call,
    write_with_default_call,
};
use crate::node::{ask_step, grow};
use crate::order::shuffle;
use ets_term::{KeyHash, Term};
use node_core::{Call, Node, Reply, Step};
use std::alloc::{AllocError, Global};

/// A phase of the benchmark. All its calls are of one kind.
#[derive(Clone, Copy)]
pub enum Phase {
    /// Insertions of new keys.
    Insert,
    /// Lookups of keys in the table.
    Hit,
    /// `member` calls for keys that are not in the table.
    Miss,
    /// Additions of one to the value of a key.
    Counter,
    /// Updates of the value of a key by `update_element`.
    Write,
    /// The same updates with a default object, which is not used, since each key has an object.
    WriteWithDefault,
    /// Deletions of keys in the table.
    Delete,
}

/// All phases, in the order in which a table goes through them.
pub const PHASES: [Phase; 7] = [
    Phase::Insert,
    Phase::Hit,
    Phase::Miss,
    Phase::Counter,
    Phase::Write,
    Phase::WriteWithDefault,
    Phase::Delete,
];

/// The number of steps in each list that `Node::run` gets.
const LIST_LEN: usize = 64;

/// The method of a node that runs the steps.
#[derive(Clone, Copy)]
pub enum Way {
    /// `Node::step`: each step has a new reply.
    Step,
    /// `Node::step_into`: each step writes its reply over the previous reply.
    StepInto,
    /// `Node::run`: runs a list of steps.
    Run,
}

impl Phase {
    /// Returns the name of the phase in a report.
    pub(crate) fn name(self) -> &'static str {
        match self {
            Phase::Insert => "insert",
            Phase::Hit => "hit",
            Phase::Miss => "miss",
            Phase::Counter => "counter",
            Phase::Write => "write",
            Phase::WriteWithDefault => "write-or",
            Phase::Delete => "delete",
        }
    }

    /// Returns the `count` keys of the phase in its order.
    pub(crate) fn keys(self, alloc: Global, count: u32) -> Result<Vec<u64>, AllocError> {
        shuffle(alloc, u64::from(count), self.seed())
    }

    /// Builds the steps of the phase, one for each of these keys. The table has `count` objects.
    pub(crate) fn steps(
        self,
        alloc: Global,
        keys: &[u64],
        count: u32,
    ) -> Result<Vec<Step>, AllocError> {
        let mut steps = Vec::new(alloc);
        for k in keys {
            steps.push(ask_step(self.call(alloc, *k, count)?))?;
        }
        Ok(steps)
    }

    /// Runs the steps. Each insertion is followed by at most two growth steps. Returns the number of right replies.
    pub(crate) fn run<H: KeyHash + Copy + Drop>(
        self,
        way: Way,
        node: &mut Node<H>,
        steps: &[Step],
    ) -> Result<u64, AllocError> {
        let mut reply = Reply::NoProcess;
        match way {
            Way::Step => self.run_steps(node, steps),
            Way::StepInto => self.run_steps_into(node, steps, &mut reply),
            Way::Run => self.run_lists(node, steps),
        }
    }

    /// Runs the steps one by one, each with a new reply. Returns the number of right replies.
    fn run_steps<H: KeyHash + Copy + Drop>(
        self,
        node: &mut Node<H>,
        steps: &[Step],
    ) -> Result<u64, AllocError> {
        let mut right_count: u64 = 0;
        for step in steps {
            right_count = right_count.wrapping_add(u64::from(self.is_step_right(node, step)?));
            if matches!(self, Phase::Insert) {
                grow(node)?;
            }
        }
        Ok(right_count)
    }

    /// Runs a step. Returns whether the reply is right.
    fn is_step_right<H: KeyHash + Copy + Drop>(
        self,
        node: &mut Node<H>,
        step: &Step,
    ) -> Result<bool, AllocError> {
        let reply = node.step(step)?;
        Ok(self.is_right(&reply))
    }

    /// Runs the steps one by one. Each writes its reply over the previous reply. Returns the number of right replies.
    fn run_steps_into<H: KeyHash + Copy + Drop>(
        self,
        node: &mut Node<H>,
        steps: &[Step],
        reply: &mut Reply,
    ) -> Result<u64, AllocError> {
        let mut right_count: u64 = 0;
        for step in steps {
            node.step_into(step, reply)?;
            right_count = right_count.wrapping_add(u64::from(self.is_right(reply)));
            if matches!(self, Phase::Insert) {
                grow(node)?;
            }
        }
        Ok(right_count)
    }

    /// Runs the steps in lists of `LIST_LEN`. Returns the number of right replies.
    fn run_lists<H: KeyHash + Copy + Drop>(
        self,
        node: &mut Node<H>,
        steps: &[Step],
    ) -> Result<u64, AllocError> {
        let mut right_count: u64 = 0;
        for list in steps.chunks(LIST_LEN) {
            right_count = right_count.wrapping_add(self.run_list(node, list)?);
            if matches!(self, Phase::Insert) {
                for _ in 0..list.len() {
                    grow(node)?;
                }
            }
        }
        Ok(right_count)
    }

    /// Runs a list of steps. Returns the number of right replies.
    fn run_list<H: KeyHash + Copy + Drop>(
        self,
        node: &mut Node<H>,
        list: &[Step],
    ) -> Result<u64, AllocError> {
        let Ok(replies) = node.run(list) else {
            return Err(AllocError);
        };
        let mut right_count: u64 = 0;
        for reply in replies.as_slice() {
            right_count = right_count.wrapping_add(u64::from(self.is_right(reply)));
        }
        Ok(right_count)
    }

    /// Returns the seed of the order in which the phase takes the keys. Each phase has an order of its own.
    fn seed(self) -> u64 {
        match self {
            Phase::Insert => 1,
            Phase::Hit => 2,
            Phase::Miss => 3,
            Phase::Counter => 4,
            Phase::Write => 6,
            Phase::WriteWithDefault => 7,
            Phase::Delete => 5,
        }
    }

    /// Builds the call of a key. `Miss` takes keys that are not in the table: those from `count` on.
    fn call(self, alloc: Global, k: u64, count: u32) -> Result<Call, AllocError> {
        match self {
            Phase::Insert => insert_call(alloc, k),
            Phase::Hit => call_of_key(alloc, "lookup", k),
            Phase::Miss => call_of_key(alloc, "member", k.wrapping_add(u64::from(count))),
            Phase::Counter => count_up_call(alloc, k),
            Phase::Write => write_call(alloc, k),
            Phase::WriteWithDefault => write_with_default_call(alloc, k),
            Phase::Delete => call_of_key(alloc, "delete", k),
        }
    }

    /// Returns whether a reply is right for a call of this phase.
    fn is_right(self, reply: &Reply) -> bool {
        match self {
            Phase::Insert | Phase::Write | Phase::WriteWithDefault | Phase::Delete => is_atom(
                reply, "true",
            ),
            Phase::Hit => has_object(reply),
            Phase::Miss => is_atom(reply, "false"),
            // The value was 1, and the call has added 1.
            Phase::Counter => matches!(reply, Reply::Value(Term::Int(2))),
        }
    }
}
