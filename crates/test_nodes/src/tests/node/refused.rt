//! Tests of out of memory: a step that runs out of memory changes nothing, so a second run must have the wanted reply.
// `.ci/refusals` runs these tests many times, each time with another allocation refused. A test also retries its own
// allocations.
use super::StepText::{Ask, End, Enrol, Grow, Ready};
use super::insertions::INSERTIONS;
use super::{Bucket, Pid, Row, StepText, Tid, build_step, reply_has_text};
use ets_term::Fnv;
use node_core::{Limits, Node, Reply, Step};
use std::alloc::{AllocError, Global};
use std::process::Abort;

/// Builds the step of a `StepText`, and retries once if memory runs out.
pub(super) fn build_step_with_retry(
    alloc: Global,
    step_text: StepText,
) -> Result<Step, AllocError> {
    match build_step(alloc, step_text) {
        Ok(step) => Ok(step),
        Err(_) => build_step(alloc, step_text),
    }
}

/// Returns the reply to a step, which runs a second time if memory runs out.
fn reply_with_retry(node: &mut Node<Fnv>, step: &Step) -> Result<Reply, AllocError> {
    match node.step(step) {
        Ok(reply) => Ok(reply),
        Err(_) => node.step(step),
    }
}

/// Returns whether a reply is the wanted one. Compares a second time if memory runs out.
pub(super) fn reply_has_text_with_retry(
    alloc: Global,
    reply: &Reply,
    wanted: &str,
) -> Result<bool, AllocError> {
    match reply_has_text(alloc, reply, wanted) {
        Ok(same) => Ok(same),
        Err(_) => reply_has_text(alloc, reply, wanted),
    }
}

/// Runs a step, a second time if memory runs out, and returns whether it has the wanted reply.
fn step_has_reply_with_retry(
    alloc: Global,
    node: &mut Node<Fnv>,
    step: &Step,
    wanted: &str,
) -> Result<bool, AllocError> {
    let reply = reply_with_retry(node, step)?;
    let same = reply_has_text_with_retry(alloc, &reply, wanted);
    drop(reply);
    same
}

/// Runs a step by `step_into`, a second time if memory runs out. Returns whether it writes the wanted reply over
/// `reply`, which must be `NoProcess` if memory ran out.
fn step_into_has_reply_with_retry(
    alloc: Global,
    node: &mut Node<Fnv>,
    step: &Step,
    reply: &mut Reply,
    wanted: &str,
) -> Result<bool, AllocError> {
    if node.step_into(step, reply).is_err() {
        if !matches!(reply, Reply::NoProcess) {
            return Ok(false);
        }
        node.step_into(step, reply)?;
    }
    reply_has_text_with_retry(alloc, reply, wanted)
}

/// The method that runs a step: `step` returns the reply, and `step_into` writes it over the previous reply.
#[derive(Clone, Copy)]
enum Runner {
    Step,
    StepInto,
}

/// Runs the step of a row, a second time if memory runs out, and returns whether it has its wanted reply. `reply` is
/// the previous reply, which `step_into` overwrites.
fn row_has_reply_with_retry(
    alloc: Global,
    node: &mut Node<Fnv>,
    runner: Runner,
    reply: &mut Reply,
    row: Row,
) -> Result<bool, AllocError> {
    let (step_text, wanted) = row;
    let step = build_step_with_retry(alloc, step_text)?;
    let same = match runner {
        Runner::StepInto => step_into_has_reply_with_retry(alloc, node, &step, reply, wanted),
        Runner::Step => step_has_reply_with_retry(alloc, node, &step, wanted),
    };
    drop(step);
    same
}

/// Runs the rows in a node, each a second time if memory runs out. Returns the index of the first row with another
/// reply.
fn first_wrong_row_with_retry_in(
    alloc: Global,
    node: &mut Node<Fnv>,
    runner: Runner,
    reply: &mut Reply,
    rows: &[Row],
) -> Result<Option<usize>, AllocError> {
    for (index, row) in rows.iter().enumerate() {
        if !row_has_reply_with_retry(alloc, node, runner, reply, *row)? {
            return Ok(Some(index));
        }
    }
    Ok(None)
}

/// Runs the rows in a new node, each a second time if memory runs out. Returns the index of the first row with another
/// reply. The first reply is written over `NoProcess`, each later one over the reply before it.
fn first_wrong_row_with_retry(
    alloc: Global,
    runner: Runner,
    rows: &[Row],
) -> Result<Option<usize>, AllocError> {
    let mut node = Node::new(alloc, Limits::usual(), Fnv);
    let mut reply = Reply::NoProcess;
    let index = first_wrong_row_with_retry_in(alloc, &mut node, runner, &mut reply, rows);
    drop(reply);
    drop(node);
    index
}

/// Steps, each with the reply that it must have when memory suffices. The long name is not stored inline in its atom,
/// so it takes memory.
static STEPS: [Row; 27] = [
    (Enrol(Pid(0)), "<0.0.0>"),
    (
        Ask(
            Pid(0),
            "new(a_name_that_is_longer_than_its_place,[named_table])",
        ),
        "a_name_that_is_longer_than_its_place",
    ),
    (Ask(Pid(0), "new(u,[bag])"), "#Tid<1>"),
    (Ask(Pid(0), "insert(#Tid<0>,[{k,1},{l,1}])"), "true"),
    (Ask(Pid(0), "insert(#Tid<0>,{k,2})"), "true"),
    (Ask(Pid(0), "insert_new(#Tid<0>,{k,3})"), "false"),
    (Ask(Pid(0), "lookup(#Tid<0>,k)"), "[{k,2}]"),
    (Ask(Pid(0), "insert(#Tid<1>,[{k,1},{k,2}])"), "true"),
    (Ask(Pid(0), "insert(#Tid<1>,{k,2})"), "true"),
    (Ask(Pid(0), "lookup_element(#Tid<1>,k,2)"), "[1,2]"),
    (Ask(Pid(0), "take(#Tid<1>,k)"), "[{k,1},{k,2}]"),
    (Ask(Pid(0), "tab2list(#Tid<0>)"), "any order: [{k,2},{l,1}]"),
    (Grow(Tid(0)), "ok"),
    (Ready(Tid(0), Bucket(3)), "ok"),
    (Ask(Pid(0), "safe_fixtable(#Tid<0>,true)"), "true"),
    (Ask(Pid(0), "delete(#Tid<0>,l)"), "true"),
    (Ask(Pid(0), "first(#Tid<0>)"), "k"),
    (Ask(Pid(0), "member(#Tid<0>,l)"), "false"),
    (Enrol(Pid(1)), "<0.1.0>"),
    (Enrol(Pid(2)), "<0.2.0>"),
    (Ask(Pid(0), "give_away(#Tid<1>,<0.1.0>,{a,gift})"), "true"),
    (
        Ask(Pid(0), "setopts(#Tid<0>,{heir,<0.2.0>,{an,heir}})"),
        "true",
    ),
    (Ask(Pid(0), "info(#Tid<0>,heir)"), "<0.2.0>"),
    (End(Pid(0)), "true"),
    (
        Ask(Pid(1), "receive()"),
        "[{'ETS-TRANSFER',#Tid<1>,<0.0.0>,{a,gift}}]",
    ),
    (
        Ask(Pid(2), "receive()"),
        "[{'ETS-TRANSFER',a_name_that_is_longer_than_its_place,<0.0.0>,{an,heir}}]",
    ),
    (Ask(Pid(2), "info(#Tid<0>,fixed)"), "false"),
];

#[test]
fn a_step_that_ran_out_of_memory_runs_again(rt: HostRuntime) {
    assert_eq!(rt;
        first_wrong_row_with_retry(rt.alloc(), Runner::Step, &STEPS),
        Ok(None)
    );
}

/// Steps and their replies. Most replies are lists, each written over the previous one, which has the same length or
/// another, and objects of the same shape or another.
static LISTS_OVER_LISTS: [Row; 14] = [
    (Enrol(Pid(0)), "<0.0.0>"),
    (Ask(Pid(0), "new(t,[named_table,bag])"), "t"),
    (
        Ask(Pid(0), "insert(t,[{a,1},{a,{b,[c]}},{b,2},{c,3,4}])"),
        "true",
    ),
    (Ask(Pid(0), "lookup(t,b)"), "[{b,2}]"),
    (Ask(Pid(0), "lookup(t,c)"), "[{c,3,4}]"),
    (Ask(Pid(0), "lookup(t,b)"), "[{b,2}]"),
    (Ask(Pid(0), "lookup(t,a)"), "[{a,1},{a,{b,[c]}}]"),
    (Ask(Pid(0), "lookup(t,a)"), "[{a,1},{a,{b,[c]}}]"),
    (Ask(Pid(0), "lookup(t,d)"), "[]"),
    (Ask(Pid(0), "member(t,b)"), "true"),
    (Ask(Pid(0), "lookup(u,b)"), "** badarg"),
    (Ask(Pid(0), "lookup(t,c)"), "[{c,3,4}]"),
    (Ask(Pid(1), "lookup(t,c)"), "** noproc"),
    (Ask(Pid(0), "lookup(t,b)"), "[{b,2}]"),
];

#[test]
fn a_reply_is_written_over_another(rt: HostRuntime) {
    assert_eq!(rt;
        first_wrong_row_with_retry(rt.alloc(), Runner::StepInto, &LISTS_OVER_LISTS),
        Ok(None)
    );
}

#[test]
fn an_insertion_that_ran_out_of_memory_runs_again(rt: HostRuntime) {
    assert_eq!(rt;
        first_wrong_row_with_retry(rt.alloc(), Runner::StepInto, &INSERTIONS),
        Ok(None)
    );
}
