//! Tests of `node_core::Node`, the store, for what no script of tests/scripts can say.
// A test is a table of rows: a step, and the reply that the rules of docs/calls.md want, written by hand and called
// `wanted`. A test reports the index of the first wrong row, or `None` if each row is right.
use crate::tests::text::{is_spelled, term, terms};
use crate::tests::{Bucket, Pid, Tid, keep_if_ok};
use ets_term::{AllSame, Atom, Fnv, Items, KeyHash, Term};
use node_core::{Call, Limits, Node, Reply, Step};
use std::alloc::{AllocError, Global};

// The greatest depth of arguments and objects.
mod depths;
// The pending growth step after each step.
mod growth;
// Objects under new and old keys.
mod insertions;
// Thousands of objects, tables, processes and steps.
mod long;
// Enrolment and exit of processes, and their limit.
mod processes;
// `Node::read` and `Node::read_into`.
mod reads;
// Steps that run out of memory and run again.
mod refused;
// Names, identifiers and the limit of tables.
mod tables;
// `Node::run` and `Node::run_through`.
mod through;
// `node_core::walk_among`: a traversal with steps of others between its calls.
mod walk_among;
// `node_reasons::why`: the reason of each refusal.
mod why;

/// A step to run. Its call is a text, so that tables of rows can be constants.
#[derive(Clone, Copy)]
enum StepText<'a> {
    /// The process starts.
    Enrol(Pid),
    /// The process exits.
    End(Pid),
    /// The process makes this call, such as `lookup(t,a)`.
    Ask(Pid, &'a str),
    /// The buckets of the table are doubled.
    Grow(Tid),
    /// The bucket of the table becomes ready.
    Ready(Tid, Bucket),
}

/// A step, and its wanted reply: a term, a list after `any order: `, or a refusal such as `** badarg`. In the tests of
/// `why`, the text is the wanted reason.
type Row = (StepText<'static>, &'static str);

/// Builds the step of a call that a process makes, such as `lookup(t,a)`. A text that is not a call is a fault of the
/// test, reported as out of memory.
fn ask(alloc: Global, pid: Pid, call: &str) -> Result<Step, AllocError> {
    let Some((name, rest)) = call.split_once('(') else {
        return Err(AllocError);
    };
    let Some(arguments) = rest.strip_suffix(')') else {
        return Err(AllocError);
    };
    let arguments = terms(alloc, arguments)?;
    match Atom::new(alloc, name) {
        Ok(name) => Ok(Step::Ask(pid.0, Call::new(name, arguments))),
        Err(_) => {
            drop(arguments);
            Err(AllocError)
        }
    }
}

/// Builds the step that a `StepText` describes.
fn build_step(alloc: Global, step_text: StepText) -> Result<Step, AllocError> {
    match step_text {
        StepText::Enrol(pid) => Ok(Step::Enrol(pid.0)),
        StepText::End(pid) => Ok(Step::End(pid.0)),
        StepText::Ask(pid, call) => ask(alloc, pid, call),
        StepText::Grow(id) => Ok(Step::Grow(id.0)),
        StepText::Ready(id, bucket) => Ok(Step::Ready(id.0, bucket.0)),
    }
}

/// Returns the items of a list. Any other term is a fault of the test, reported as out of memory.
fn items_of(term: Term) -> Result<Items<Term>, AllocError> {
    match term {
        Term::List(items) => Ok(items),
        other => {
            drop(other);
            Err(AllocError)
        }
    }
}

/// Returns the items of a list, sorted in Erlang's order of terms.
fn sort_items(term: Term) -> Result<Vec<Term>, AllocError> {
    let mut items = items_of(term)?.into_vec();
    keep_if_ok(items.sort(), items)
}

/// Returns whether a list has the items of the list that a text spells, in any order.
fn has_items(alloc: Global, value: &Term, wanted: &str) -> Result<bool, AllocError> {
    let items = sort_items(value.try_clone(alloc)?)?;
    let same = are_spelled(alloc, items.as_slice(), wanted);
    drop(items);
    same
}

/// Returns whether a text spells a list that has these items after it is sorted.
fn are_spelled(alloc: Global, items: &[Term], text: &str) -> Result<bool, AllocError> {
    let expected = sort_items(term(alloc, text)?)?;
    let same = items == expected.as_slice();
    drop(expected);
    Ok(same)
}

/// Returns whether a reply is the wanted one: a term, a list after `any order: `, or a refusal.
fn reply_has_text(alloc: Global, reply: &Reply, wanted: &str) -> Result<bool, AllocError> {
    match reply {
        Reply::Value(value) => match wanted.strip_prefix("any order: ") {
            Some(wanted) => has_items(alloc, value, wanted),
            None => is_spelled(alloc, value, wanted),
        },
        Reply::Badarg => Ok(wanted == "** badarg"),
        Reply::SystemLimit => Ok(wanted == "** system_limit"),
        Reply::NoProcess => Ok(wanted == "** noproc"),
    }
}

/// Runs the step of a `StepText`, and returns whether it has the wanted reply.
fn step_text_has_reply<H: KeyHash + Copy + Drop>(
    alloc: Global,
    node: &mut Node<H>,
    step_text: StepText,
    wanted: &str,
) -> Result<bool, AllocError> {
    let step = build_step(alloc, step_text)?;
    let has_reply = step_has_reply(alloc, node, &step, wanted);
    drop(step);
    has_reply
}

/// Runs a step, and returns whether it has the wanted reply.
fn step_has_reply<H: KeyHash + Copy + Drop>(
    alloc: Global,
    node: &mut Node<H>,
    step: &Step,
    wanted: &str,
) -> Result<bool, AllocError> {
    let reply = node.step(step)?;
    let same = reply_has_text(alloc, &reply, wanted);
    drop(reply);
    same
}

/// Runs the rows in a node, up to the first row with another reply than wanted. Returns the index of that row, or
/// `None` if each reply is the wanted one.
fn first_wrong_row_in<H: KeyHash + Copy + Drop>(
    alloc: Global,
    node: &mut Node<H>,
    rows: &[Row],
) -> Result<Option<usize>, AllocError> {
    for (index, (step_text, wanted)) in rows.iter().enumerate() {
        if !step_text_has_reply(alloc, node, *step_text, *wanted)? {
            return Ok(Some(index));
        }
    }
    Ok(None)
}

/// Runs the rows in a new node with these limits and this hasher. Returns the index of the first row with another
/// reply.
fn first_wrong_row_by_hasher<H: KeyHash + Copy + Drop>(
    alloc: Global,
    limits: Limits,
    hasher: H,
    rows: &[Row],
) -> Result<Option<usize>, AllocError> {
    let mut node = Node::new(alloc, limits, hasher);
    let index = first_wrong_row_in(alloc, &mut node, rows);
    drop(node);
    index
}

/// Runs the rows in two new nodes. `Fnv` spreads the keys; `AllSame` gives all keys one hash. Returns the index of the
/// first row with another reply.
fn first_wrong_row_within_limits(
    alloc: Global,
    limits: Limits,
    rows: &[Row],
) -> Result<Option<usize>, AllocError> {
    match first_wrong_row_by_hasher(alloc, limits, Fnv, rows)? {
        Some(index) => Ok(Some(index)),
        None => first_wrong_row_by_hasher(alloc, limits, AllSame, rows),
    }
}

/// Runs the rows in two new nodes with the usual limits, and returns the index of the first row with another reply.
fn first_wrong_row(alloc: Global, rows: &[Row]) -> Result<Option<usize>, AllocError> {
    first_wrong_row_within_limits(alloc, Limits::usual(), rows)
}
