//! An `Others` for tests: it hands in the steps of a plan after each key that the traversal visits.
// `Others` is the trait by which `walk_among` gets the steps of other processes. The index of the key, from 0, is the
// turn.
ghost use Rattle.std.specs.Prelude.{◌≡◌, []};

use super::super::StepText::{Ask, Grow, Ready};
use super::super::{Bucket, Pid, StepText, Tid, build_step};
use crate::tests::keep_if_ok;
use ets_term::{Integer, Term};
use node_core::{Others, Step};
use std::alloc::{AllocError, Global};

/// Which steps the others hand in after a visited key.
#[derive(Clone, Copy)]
pub enum Plan {
    /// These steps, after each key.
    Always(&'static [StepText<'static>]),
    /// Process 1 deletes the visited key and inserts it again, the buckets double, and the bucket whose number is the
    /// turn becomes ready.
    DeleteAndInsert,
    /// Process 1 inserts a new key, 10 plus the turn: greater than all keys of the table.
    InsertNewKey,
    /// No steps: the others report out of memory.
    NoMemory,
}

/// Others that follow a plan. They keep the keys that they saw, and the steps that they handed in, each with its turn.
#[derive(Drop)]
pub struct PlanFollower {
    alloc: Global,
    plan: Plan,
    /// The visited keys, in the order of the traversal.
    keys: Vec<Term>,
    /// The steps handed in so far, each with its turn.
    handed_in: Vec<(usize, Step)>,
}

impl PlanFollower {
    /// Returns others with this plan, before the first key.
    pub fn new(alloc: Global, plan: Plan) -> PlanFollower
        ensures keys { result.keys.items ≡ [] }
        ensures handed_in { result.handed_in.items ≡ [] }
    {
        PlanFollower {
            alloc,
            plan,
            keys: Vec::new(alloc),
            handed_in: Vec::new(alloc),
        }
    }
}

impl Others for PlanFollower {
    // The visited keys, as the contracts of `Others` see them.
    ghost keys = { λ h. h.keys.items };

    // The steps handed in so far, as the contracts of `Others` see them.
    ghost steps = { λ h. h.handed_in.items };

    // Returns the visited keys.
    fn seen(&self) -> &[Term] {
        self.keys.as_slice()
    }

    // Returns the steps handed in so far, each with its turn.
    fn given(&self) -> &[(usize, Step)] {
        self.handed_in.as_slice()
    }

    // Called after the visit of the key `last`. Reserves all memory first, because running out of memory must change
    // nothing.
    fn between(&mut self, last: &Term) -> Result<(), AllocError> {
        let turn = self.keys.len();
        self.keys.reserve(1)?;
        let steps = plan_steps(self.alloc, self.plan, turn, last)?;
        self.handed_in.reserve(steps.len())?;
        let key = last.try_clone(self.alloc)?;
        self.keys.push_reserved(key);
        for step in steps {
            self.handed_in.push_reserved((turn, step));
        }
        Ok(())
    }
}

/// Returns the steps that the plan hands in after the key `last`, in this turn.
fn plan_steps(
    alloc: Global,
    plan: Plan,
    turn: usize,
    last: &Term,
) -> Result<Vec<Step>, AllocError> {
    match plan {
        Plan::Always(step_texts) => steps_of(alloc, step_texts),
        Plan::DeleteAndInsert => delete_and_insert(alloc, turn, last),
        Plan::InsertNewKey => insert_new_key(alloc, turn),
        Plan::NoMemory => Err(AllocError),
    }
}

/// Builds the steps of `StepText`s.
fn steps_of(alloc: Global, step_texts: &[StepText]) -> Result<Vec<Step>, AllocError> {
    let mut steps = Vec::with_capacity(alloc, step_texts.len())?;
    keep_if_ok(push_steps(alloc, &mut steps, step_texts), steps)
}

/// Builds the steps of `StepText`s and appends them.
fn push_steps(
    alloc: Global,
    steps: &mut Vec<Step>,
    step_texts: &[StepText],
) -> Result<(), AllocError> {
    for step_text in step_texts {
        steps.push(build_step(alloc, *step_text)?)?;
    }
    Ok(())
}

/// Returns the steps of `Plan::DeleteAndInsert`: they delete the key `last` and insert it again, double the buckets of
/// table 0, and make the bucket whose number is the turn ready.
fn delete_and_insert(alloc: Global, turn: usize, last: &Term) -> Result<Vec<Step>, AllocError> {
    let Term::Int(key) = last else {
        // Cannot happen: all keys of the tables are integers.
        return Err(AllocError);
    };
    let Ok(bucket) = u32::try_from(turn) else {
        // Cannot happen: a turn is below the limit of the walk, which is a `u32`.
        return Err(AllocError);
    };
    let mut steps = Vec::new(alloc);
    keep_if_ok(
        push_delete_and_insert(alloc, &mut steps, *key, bucket),
        steps,
    )
}

/// Appends the steps that delete the key and insert it again, double the buckets of table 0, and ready this bucket.
fn push_delete_and_insert(
    alloc: Global,
    steps: &mut Vec<Step>,
    key: Integer,
    bucket: u32,
) -> Result<(), AllocError> {
    push_ask(alloc, steps, format!(in alloc; "delete(t,{key})")?)?;
    push_ask(alloc, steps, format!(in alloc; "insert(t,{{{key}}})")?)?;
    push_steps(alloc, steps, &[Grow(Tid(0)), Ready(Tid(0), Bucket(bucket))])
}

/// Appends the step of a call that process 1 makes, and drops the text of the call.
fn push_ask(alloc: Global, steps: &mut Vec<Step>, call: String) -> Result<(), AllocError> {
    let pushed = push_steps(alloc, steps, &[Ask(Pid(1), call.as_str())]);
    drop(call);
    pushed
}

/// Returns the step of `Plan::InsertNewKey`: it inserts the key 10 plus the turn, into the table t.
fn insert_new_key(alloc: Global, turn: usize) -> Result<Vec<Step>, AllocError> {
    let key = turn.saturating_add(10);
    let call = format!(in alloc; "insert(t,{{{key}}})")?;
    let mut steps = Vec::new(alloc);
    keep_if_ok(push_ask(alloc, &mut steps, call), steps)
}
