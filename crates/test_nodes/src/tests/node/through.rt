//! Tests of `Node::run` and `Node::run_through`, which run a list of steps. A row is a step and its wanted reply.
// Both reply to each step, a refused one too, if memory suffices. The answer of `run_through` to a step is `None` if
// memory ran out.
use super::StepText::{Ask, End, Enrol, Grow, Ready};
use super::{Bucket, Pid, Row, Tid, build_step, reply_has_text};
use crate::tests::keep_if_ok;
use ets_term::Fnv;
use node_core::{Limits, Node, Reply, Step};
use std::alloc::{AllocError, Global};
use std::process::Abort;

/// Steps of each kind with their wanted replies; some are refused. There is no process 1 and no table 1.
static EACH_KIND: [Row; 16] = [
    (Enrol(Pid(0)), "<0.0.0>"),
    (Enrol(Pid(0)), "** badarg"),
    (Ask(Pid(0), "new(t,[named_table])"), "t"),
    (Ask(Pid(0), "new(t,[named_table])"), "** badarg"),
    (Ask(Pid(0), "insert(t,[{a,1},{b,2},{c,3}])"), "true"),
    (Ask(Pid(0), "insert_new(t,{a,4})"), "false"),
    (Ask(Pid(0), "update_counter(t,c,[{2,1},{2,1}])"), "[4,5]"),
    (Ask(Pid(1), "lookup(t,a)"), "** noproc"),
    (Grow(Tid(0)), "ok"),
    (Ready(Tid(0), Bucket(3)), "ok"),
    (Ready(Tid(1), Bucket(0)), "** badarg"),
    (Ask(Pid(0), "take(t,b)"), "[{b,2}]"),
    (Ask(Pid(0), "take(t,b)"), "[]"),
    (Ask(Pid(0), "tab2list(t)"), "any order: [{a,1},{c,5}]"),
    (End(Pid(0)), "true"),
    (End(Pid(0)), "** noproc"),
];

/// Builds the steps of the rows and appends them.
fn push_steps(alloc: Global, steps: &mut Vec<Step>, rows: &[Row]) -> Result<(), AllocError> {
    for (step_text, _) in rows {
        steps.push(build_step(alloc, *step_text)?)?;
    }
    Ok(())
}

/// Builds the steps of the rows.
fn steps_of(alloc: Global, rows: &[Row]) -> Result<Vec<Step>, AllocError> {
    let mut steps = Vec::new(alloc);
    keep_if_ok(push_steps(alloc, &mut steps, rows), steps)
}

/// Returns the index of the first row whose answer is not the wanted reply: it is another reply, it is `None`, or it is
/// missing. Returns `None` if each answer is the wanted reply.
fn first_wrong_answer(
    alloc: Global,
    rows: &[Row],
    answers: &[Option<Reply>],
) -> Result<Option<usize>, AllocError> {
    for (index, (_, wanted)) in rows.iter().enumerate() {
        let Some(Some(reply)) = answers.get(index) else {
            return Ok(Some(index));
        };
        if !reply_has_text(alloc, reply, *wanted)? {
            return Ok(Some(index));
        }
    }
    Ok(None)
}

/// Runs the steps of the rows by `run_through`, and returns the index of the first row with another reply or no reply.
fn first_wrong_row_through(
    alloc: Global,
    node: &mut Node<Fnv>,
    steps: &[Step],
    rows: &[Row],
) -> Result<Option<usize>, AllocError> {
    let answers = node.run_through(steps)?;
    let index = first_wrong_answer(alloc, rows, answers.as_slice());
    drop(answers);
    index
}

/// Returns the index of the first row with another reply or no reply, or `None` if each has its reply.
fn first_wrong_reply(
    alloc: Global,
    rows: &[Row],
    replies: &[Reply],
) -> Result<Option<usize>, AllocError> {
    for (index, (_, wanted)) in rows.iter().enumerate() {
        let Some(reply) = replies.get(index) else {
            return Ok(Some(index));
        };
        if !reply_has_text(alloc, reply, *wanted)? {
            return Ok(Some(index));
        }
    }
    Ok(None)
}

/// Runs the steps of the rows by `run`. Returns the index of the first row with another reply or no reply, or 0 if the
/// run stops because memory runs out. `None` means that each row has its reply.
fn first_wrong_row_of_run(
    alloc: Global,
    node: &mut Node<Fnv>,
    steps: &[Step],
    rows: &[Row],
) -> Result<Option<usize>, AllocError> {
    match node.run(steps) {
        Ok(replies) => {
            let index = first_wrong_reply(alloc, rows, replies.as_slice());
            drop(replies);
            index
        }
        Err(fault) => {
            drop(fault);
            Ok(Some(0))
        }
    }
}

/// The method that runs the steps.
#[derive(Clone, Copy)]
enum Runner {
    Run,
    RunThrough,
}

/// Runs the steps of the rows in a new node, and returns the index of the first row with another reply or no reply.
fn first_wrong_row_of_steps(
    alloc: Global,
    runner: Runner,
    steps: &[Step],
    rows: &[Row],
) -> Result<Option<usize>, AllocError> {
    let mut node = Node::new(alloc, Limits::usual(), Fnv);
    let index = match runner {
        Runner::Run => first_wrong_row_of_run(alloc, &mut node, steps, rows),
        Runner::RunThrough => first_wrong_row_through(alloc, &mut node, steps, rows),
    };
    drop(node);
    index
}

/// Builds the steps of the rows and runs them in a new node. Returns the index of the first row with another reply or
/// no reply.
fn first_wrong_row_by(
    alloc: Global,
    runner: Runner,
    rows: &[Row],
) -> Result<Option<usize>, AllocError> {
    let steps = steps_of(alloc, rows)?;
    let index = first_wrong_row_of_steps(alloc, runner, steps.as_slice(), rows);
    drop(steps);
    index
}

#[test]
fn run_through_replies_to_every_step_if_memory_suffices(rt: HostRuntime) {
    assert_eq!(rt;
        first_wrong_row_by(rt.alloc(), Runner::RunThrough, &EACH_KIND),
        Ok(None)
    );
}

/// A process enrols twice and exits twice; the second time is refused.
static TWICE: [Row; 4] = [
    (Enrol(Pid(0)), "<0.0.0>"),
    (Enrol(Pid(0)), "** badarg"),
    (End(Pid(0)), "true"),
    (End(Pid(0)), "** noproc"),
];

#[test]
fn run_replies_to_refused_steps_too(rt: HostRuntime) {
    assert_eq!(rt;
        first_wrong_row_by(rt.alloc(), Runner::Run, &TWICE),
        Ok(None)
    );
    assert_eq!(rt;
        first_wrong_row_by(rt.alloc(), Runner::Run, &EACH_KIND),
        Ok(None)
    );
}
