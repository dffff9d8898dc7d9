//! Tests of pending growth steps: of `Node::due` and `Node::due_of`, which return them, and of
//! `Node::run_pending_steps`, which runs them. A row is a step, its wanted reply, and what is pending after it.
// A growth step doubles the buckets of a table, or makes one bucket ready.
use super::StepText::{Ask, Enrol, Grow, Ready};
use super::{Bucket, Pid, Row, Tid, first_wrong_row_in};
use Pending::{Nothing, ToGrow, ToReady};
use ets_term::{AllSame, Fnv, KeyHash};
use node_core::{Limits, Node, Step};
use std::alloc::{AllocError, Global};
use std::process::Abort;

/// The pending step of a node.
#[derive(Clone, Copy, PartialEq, Eq)]
enum Pending {
    /// No step.
    Nothing,
    /// To double the buckets of the table.
    ToGrow(Tid),
    /// To make the bucket of the table ready.
    ToReady(Tid, Bucket),
    /// Another step, which is never pending.
    Other,
}

/// Returns the pending step of the node, if any.
fn first_pending_step<H: KeyHash + Copy + Drop>(node: &Node<H>) -> Pending {
    pending_of(node.due())
}

/// Returns this step, if any, as a `Pending`.
fn pending_of(step: Option<Step>) -> Pending {
    match step {
        Some(step) => {
            let pending = pending_step_of(&step);
            drop(step);
            pending
        }
        None => Nothing,
    }
}

/// Returns this step as a `Pending`.
fn pending_step_of(step: &Step) -> Pending {
    match step {
        Step::Grow(id) => ToGrow(Tid(*id)),
        Step::Ready(id, bucket) => ToReady(Tid(*id), Bucket(*bucket)),
        _ => Pending::Other,
    }
}

/// A step and its wanted reply, and the step that is pending after it.
type PendingRow = (Row, Pending);

/// Two tables. The pending step is that of the table created first. A new table has two buckets, of which bucket 1 is
/// not ready. Its doubling is pending if it has more than four slots for each bucket, so after the ninth key. A
/// tombstone counts as a slot, so the doubling stays pending until the fix ends. An emptied table has no pending step.
static STEPS: [PendingRow; 15] = [
    ((Enrol(Pid(0)), "<0.0.0>"), Nothing),
    (
        (Ask(Pid(0), "new(t,[])"), "#Tid<0>"),
        ToReady(Tid(0), Bucket(1)),
    ),
    (
        (Ask(Pid(0), "new(u,[])"), "#Tid<1>"),
        ToReady(Tid(0), Bucket(1)),
    ),
    ((Ready(Tid(0), Bucket(1)), "ok"), ToReady(Tid(1), Bucket(1))),
    ((Ready(Tid(1), Bucket(1)), "ok"), Nothing),
    (
        (
            Ask(Pid(0), "insert(#Tid<0>,[{1},{2},{3},{4},{5},{6},{7},{8}])"),
            "true",
        ),
        Nothing,
    ),
    (
        (Ask(Pid(0), "safe_fixtable(#Tid<0>,true)"), "true"),
        Nothing,
    ),
    ((Ask(Pid(0), "insert(#Tid<0>,{9})"), "true"), ToGrow(Tid(0))),
    ((Ask(Pid(0), "delete(#Tid<0>,9)"), "true"), ToGrow(Tid(0))),
    (
        (Ask(Pid(0), "safe_fixtable(#Tid<0>,false)"), "true"),
        Nothing,
    ),
    ((Ask(Pid(0), "insert(#Tid<0>,{9})"), "true"), ToGrow(Tid(0))),
    ((Grow(Tid(0)), "ok"), ToReady(Tid(0), Bucket(2))),
    ((Ready(Tid(0), Bucket(3)), "ok"), ToReady(Tid(0), Bucket(2))),
    ((Ready(Tid(0), Bucket(2)), "ok"), Nothing),
    (
        (Ask(Pid(0), "delete_all_objects(#Tid<0>)"), "true"),
        Nothing,
    ),
];

/// Runs the rows in a node, and returns the index of the first row with another reply or another pending step.
fn first_wrong_pending_in<H: KeyHash + Copy + Drop>(
    alloc: Global,
    node: &mut Node<H>,
    rows: &[PendingRow],
) -> Result<Option<usize>, AllocError> {
    for (index, (row, wanted)) in rows.iter().enumerate() {
        if first_wrong_row_in(alloc, node, &[*row])?.is_some()
            || first_pending_step(node) != *wanted
        {
            return Ok(Some(index));
        }
    }
    Ok(None)
}

/// Runs the rows in a new node with this hasher, and returns the index of the first row with another reply or another
/// pending step.
fn first_wrong_pending<H: KeyHash + Copy + Drop>(
    alloc: Global,
    hasher: H,
    rows: &[PendingRow],
) -> Result<Option<usize>, AllocError> {
    let mut node = Node::new(alloc, Limits::usual(), hasher);
    let index = first_wrong_pending_in(alloc, &mut node, rows);
    drop(node);
    index
}

#[test]
fn pending_steps_come_in_order_of_creation(rt: HostRuntime) {
    assert_eq!(rt; first_wrong_pending(rt.alloc(), Fnv, &STEPS), Ok(None));
    assert_eq!(rt; first_wrong_pending(rt.alloc(), AllSame, &STEPS), Ok(None));
}

/// A step and its wanted reply, how many growth steps may run after it, and the pending steps of the two tables after
/// them.
type GrowthRow = (Row, u32, [Pending; 2]);

/// Two tables, of which the older gets nine objects and no growth step. Then the younger is changed: its own steps are
/// run first. When it has none left, one step of the older is run after one of four calls, also if more may run. That
/// step is a change, so the next steps are of the older, until the younger is changed again.
static SHARED_STEPS: [GrowthRow; 13] = [
    ((Enrol(Pid(0)), "<0.0.0>"), 2, [Nothing, Nothing]),
    (
        (Ask(Pid(0), "new(t,[])"), "#Tid<0>"),
        0,
        [ToReady(Tid(0), Bucket(1)), Nothing],
    ),
    (
        (Ask(Pid(0), "new(u,[])"), "#Tid<1>"),
        0,
        [ToReady(Tid(0), Bucket(1)), ToReady(Tid(1), Bucket(1))],
    ),
    (
        (
            Ask(
                Pid(0),
                "insert(#Tid<0>,[{1},{2},{3},{4},{5},{6},{7},{8},{9}])",
            ),
            "true",
        ),
        0,
        [ToGrow(Tid(0)), ToReady(Tid(1), Bucket(1))],
    ),
    (
        (Ask(Pid(0), "insert(#Tid<1>,{1})"), "true"),
        1,
        [ToGrow(Tid(0)), Nothing],
    ),
    (
        (Ask(Pid(0), "lookup(#Tid<1>,1)"), "[{1}]"),
        2,
        [ToReady(Tid(0), Bucket(1)), Nothing],
    ),
    (
        (
            Ask(Pid(0), "insert(#Tid<1>,[{2},{3},{4},{5},{6},{7},{8},{9}])"),
            "true",
        ),
        1,
        [ToReady(Tid(0), Bucket(1)), ToReady(Tid(1), Bucket(2))],
    ),
    (
        (Ask(Pid(0), "lookup(#Tid<0>,1)"), "[{1}]"),
        1,
        [ToReady(Tid(0), Bucket(1)), ToReady(Tid(1), Bucket(3))],
    ),
    (
        (Ask(Pid(0), "insert(#Tid<1>,{10})"), "true"),
        4,
        [ToReady(Tid(0), Bucket(1)), Nothing],
    ),
    (
        (Ask(Pid(0), "lookup(#Tid<1>,1)"), "[{1}]"),
        5,
        [ToReady(Tid(0), Bucket(1)), Nothing],
    ),
    (
        (Ask(Pid(0), "lookup(#Tid<1>,1)"), "[{1}]"),
        5,
        [ToReady(Tid(0), Bucket(1)), Nothing],
    ),
    (
        (Ask(Pid(0), "lookup(#Tid<1>,1)"), "[{1}]"),
        5,
        [ToReady(Tid(0), Bucket(2)), Nothing],
    ),
    (
        (Ask(Pid(0), "insert(#Tid<0>,{10})"), "true"),
        2,
        [Nothing, Nothing],
    ),
];

/// Returns whether the pending steps of the tables 0 and 1 are these, and whether a table that does not exist has none.
fn have_pending<H: KeyHash + Copy + Drop>(node: &Node<H>, wanted: [Pending; 2]) -> bool {
    pending_of(node.due_of(0)) == wanted[0]
        && pending_of(node.due_of(1)) == wanted[1]
        && pending_of(node.due_of(2)) == Nothing
}

/// Runs the rows in a node, with growth steps after each. Returns the index of the first row with another reply or
/// other pending steps.
fn first_wrong_growth_in<H: KeyHash + Copy + Drop>(
    alloc: Global,
    node: &mut Node<H>,
    rows: &[GrowthRow],
) -> Result<Option<usize>, AllocError> {
    for (index, (row, max_steps, wanted)) in rows.iter().enumerate() {
        let is_wrong = first_wrong_row_in(alloc, node, &[*row])?.is_some();
        node.run_pending_steps(*max_steps);
        if is_wrong || !have_pending(node, *wanted) {
            return Ok(Some(index));
        }
    }
    Ok(None)
}

/// Runs the rows in a new node with this hasher, as `first_wrong_growth_in` does.
fn first_wrong_growth<H: KeyHash + Copy + Drop>(
    alloc: Global,
    hasher: H,
    rows: &[GrowthRow],
) -> Result<Option<usize>, AllocError> {
    let mut node = Node::new(alloc, Limits::usual(), hasher);
    let index = first_wrong_growth_in(alloc, &mut node, rows);
    drop(node);
    index
}

#[test]
fn the_table_that_was_changed_last_grows_first(rt: HostRuntime) {
    assert_eq!(rt;
        first_wrong_growth(rt.alloc(), Fnv, &SHARED_STEPS),
        Ok(None)
    );
    assert_eq!(rt;
        first_wrong_growth(rt.alloc(), AllSame, &SHARED_STEPS),
        Ok(None)
    );
}
