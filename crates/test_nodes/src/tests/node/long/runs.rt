//! Tests of `Node::run` and `Node::run_through` with thousands of steps: each step has a reply, and the last reply is
//! the object inserted last.
use super::super::{ask, build_step, reply_has_text};
use super::*;
use node_core::{Reply, Step};

/// Builds the steps of a process that makes a table, and then `count` times inserts an object and looks it up.
fn steps_of_run(alloc: Global, count: u32) -> Result<Vec<Step>, AllocError> {
    let mut steps = Vec::new(alloc);
    keep_if_ok(push_steps_of_run(alloc, &mut steps, count), steps)
}

/// Appends the steps of a process that makes a table, and then `count` times inserts an object and looks it up.
fn push_steps_of_run(alloc: Global, steps: &mut Vec<Step>, count: u32) -> Result<(), AllocError> {
    push_step(steps, build_step(alloc, Enrol(Pid(0)))?)?;
    push_step(steps, ask(alloc, Pid(0), "new(t,[])")?)?;
    for number in 0..count {
        push_step(steps, insertion(alloc, number)?)?;
        push_step(steps, ask(alloc, Pid(0), "lookup(#Tid<0>,a)")?)?;
    }
    Ok(())
}

/// Appends a step.
fn push_step(steps: &mut Vec<Step>, step: Step) -> Result<(), AllocError> {
    Ok(steps.push(step)?)
}

/// Builds the step that inserts the object of a number, always under the same key.
fn insertion(alloc: Global, number: u32) -> Result<Step, AllocError> {
    let call = fill_template(alloc, "insert(#Tid<0>,{a,N})", number)?;
    let step = ask(alloc, Pid(0), call.as_str());
    drop(call);
    step
}

/// Returns whether the last reply exists, and is a list of the object that was inserted last: `{a,2099}`, whose number
/// is `COUNT` - 1.
fn is_last_object(alloc: Global, reply: Option<&Reply>) -> Result<bool, AllocError> {
    match reply {
        Some(reply) => reply_has_text(alloc, reply, "[{a,2099}]"),
        None => Ok(false),
    }
}

/// Runs the steps by `run`. Returns whether each has a reply, and the last reply is the object that was inserted last.
fn run_replies_to_each(
    alloc: Global,
    node: &mut Node<Fnv>,
    steps: &[Step],
) -> Result<bool, AllocError> {
    match node.run(steps) {
        Ok(replies) => {
            let has_all = replies.len() == steps.len();
            let is_last = is_last_object(alloc, replies.as_slice().last());
            drop(replies);
            Ok(is_last? && has_all)
        }
        // Memory ran out.
        Err(fault) => {
            drop(fault);
            Ok(false)
        }
    }
}

/// Runs the steps by `run_through`. Returns whether each has a reply, and the last reply is the object that was
/// inserted last.
fn run_through_replies_to_each(
    alloc: Global,
    node: &mut Node<Fnv>,
    steps: &[Step],
) -> Result<bool, AllocError> {
    let answers = node.run_through(steps)?;
    let has_all = answers.iter().all(|answer| answer.is_some());
    let is_last = is_last_answer(alloc, answers.as_slice());
    drop(answers);
    Ok(is_last? && has_all)
}

/// Returns whether the last answer is the object that was inserted last.
fn is_last_answer(alloc: Global, answers: &[Option<Reply>]) -> Result<bool, AllocError> {
    match answers.last() {
        Some(answer) => is_last_object(alloc, answer.as_ref()),
        None => Ok(false),
    }
}

/// Returns whether `run` replies to thousands of steps, and the last reply is the object that was inserted last.
pub fn runs_many_steps(alloc: Global, node: &mut Node<Fnv>) -> Result<bool, AllocError> {
    let steps = steps_of_run(alloc, COUNT)?;
    let all_replied = run_replies_to_each(alloc, node, steps.as_slice());
    drop(steps);
    all_replied
}

/// Returns whether `run_through` replies to thousands of steps, and the last reply is the object that was inserted
/// last.
pub fn runs_through_many_steps(alloc: Global, node: &mut Node<Fnv>) -> Result<bool, AllocError> {
    let steps = steps_of_run(alloc, COUNT)?;
    let all_replied = run_through_replies_to_each(alloc, node, steps.as_slice());
    drop(steps);
    all_replied
}

#[test]
fn run_replies_to_thousands_of_steps(rt: HostRuntime) {
    assert!(rt; new_node_passes(rt.alloc(), Check::Runs) == Ok(true));
}

#[test]
fn run_through_replies_to_thousands_of_steps(rt: HostRuntime) {
    assert!(rt; new_node_passes(rt.alloc(), Check::RunsThrough) == Ok(true));
}
