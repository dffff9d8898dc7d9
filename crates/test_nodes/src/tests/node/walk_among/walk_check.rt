//! The check of one walk over the table t, with steps of others after each key: whether it ends with the wanted keys or
//! fault.
use super::super::{Row, first_wrong_row_in, has_items, step_text_has_reply, term};
use super::plan_follower::{Plan, PlanFollower};
use ets_term::{KeyHash, Term};
use node_core::{Limits, Node, Others, Walk, WalkFault, walk_among};
use std::alloc::{AllocError, Global};

/// A walk over the table t.
#[derive(Clone, Copy)]
pub struct WalkSetup<'a> {
    /// The steps before the walk, with their replies.
    pub rows: &'a [Row],
    /// The number of the process that walks.
    pub walker: u32,
    /// The greatest number of keys that the walk may visit.
    pub limit: u32,
    /// What others do after each visited key.
    pub plan: Plan,
}

/// The wanted end of a walk.
#[derive(Clone, Copy)]
pub enum WalkEnd<'a> {
    /// With these keys, in any order.
    Keys(&'a str),
    /// With any keys, after the others saw this number of keys.
    KeysSeen(usize),
    /// With this fault.
    Fault(&'a WalkFault),
    /// With this fault, after the others saw this number of keys.
    FaultAfter(&'a WalkFault, usize),
}

/// Returns whether a walk that reached these keys has the wanted end. The others saw `seen` keys.
fn keys_are_wanted_end(
    alloc: Global,
    keys: &Term,
    seen: usize,
    wanted_end: WalkEnd,
) -> Result<bool, AllocError> {
    match wanted_end {
        WalkEnd::Keys(wanted) => has_items(alloc, keys, wanted),
        WalkEnd::KeysSeen(wanted) => Ok(seen == wanted),
        // A fault was wanted.
        _ => Ok(false),
    }
}

/// Returns whether a walk that stopped with this fault has the wanted end. The others saw `seen` keys.
fn fault_is_wanted_end(fault: &WalkFault, seen: usize, wanted_end: WalkEnd) -> bool {
    match wanted_end {
        WalkEnd::Fault(wanted) => fault == wanted,
        WalkEnd::FaultAfter(wanted, count) => fault == wanted && seen == count,
        // Keys were wanted.
        _ => false,
    }
}

/// Returns whether the result of a walk is the wanted end. The others saw `seen` keys.
fn has_wanted_end(
    alloc: Global,
    walk_result: Result<Walk, WalkFault>,
    seen: usize,
    wanted_end: WalkEnd,
) -> Result<bool, AllocError> {
    match walk_result {
        Ok(Walk { keys }) => {
            let keys = Term::List(keys);
            let same = keys_are_wanted_end(alloc, &keys, seen, wanted_end);
            drop(keys);
            same
        }
        Err(fault) => {
            let same = fault_is_wanted_end(&fault, seen, wanted_end);
            drop(fault);
            Ok(same)
        }
    }
}

/// Walks over a table while others follow the plan, and returns whether the walk has the wanted end.
fn walk_over_has_wanted_end<H: KeyHash + Copy + Drop>(
    alloc: Global,
    node: &mut Node<H>,
    setup: WalkSetup,
    table: &Term,
    wanted_end: WalkEnd,
) -> Result<bool, AllocError> {
    let mut others = PlanFollower::new(alloc, setup.plan);
    let walk_result = walk_among(node, setup.walker, table, setup.limit, &mut others);
    let seen = others.seen().len();
    drop(others);
    has_wanted_end(alloc, walk_result, seen, wanted_end)
}

/// Runs the steps before a walk, and walks. If the walk has the wanted end, runs the step of `next_row`. Returns
/// whether the walk has the wanted end and the step its wanted reply. A wrong reply before the walk is a fault of the
/// test, reported as out of memory.
fn walk_has_wanted_end_in<H: KeyHash + Copy + Drop>(
    alloc: Global,
    node: &mut Node<H>,
    setup: WalkSetup,
    wanted_end: WalkEnd,
    next_row: Row,
) -> Result<bool, AllocError> {
    if first_wrong_row_in(alloc, node, setup.rows)?.is_some() {
        return Err(AllocError);
    }
    let table = term(alloc, "t")?;
    let has_end = walk_over_has_wanted_end(alloc, node, setup, &table, wanted_end);
    drop(table);
    let (step_text, wanted) = next_row;
    Ok(has_end? && step_text_has_reply(alloc, node, step_text, wanted)?)
}

/// Walks by the setup in a new node with this hasher. If the walk has the wanted end, then runs the step of `next_row`.
/// Returns whether the walk has the wanted end and the step its wanted reply.
pub fn walk_has_wanted_end<H: KeyHash + Copy + Drop>(
    alloc: Global,
    hasher: H,
    setup: WalkSetup,
    wanted_end: WalkEnd,
    next_row: Row,
) -> Result<bool, AllocError> {
    let mut node = Node::new(alloc, Limits::usual(), hasher);
    let all_right = walk_has_wanted_end_in(alloc, &mut node, setup, wanted_end, next_row);
    drop(node);
    all_right
}
