//! A node with one process, which has one table.
use crate::calls::{has_object, insert_call, new_table_call};
use crate::mixture::{KEYS, mixture};
use ets_term::{Fnv, KeyHash};
use node_core::{Call, Limits, Node, Step};
use std::alloc::{AllocError, Global};

/// The process that makes the calls.
const PID: u32 = 0;

/// Builds a node with this hasher, and makes the table in its only process.
pub(crate) fn node_with_table<H: KeyHash + Copy + Drop>(
    alloc: Global,
    hasher: H,
) -> Result<Node<H>, AllocError> {
    let limits = Limits {
        processes: 1,
        tables: 1,
        objects: u32::MAX,
    };
    let mut node = Node::new(alloc, limits, hasher);
    make_table(alloc, &mut node)?;
    Ok(node)
}

/// Enrols the process, and makes the table.
fn make_table<H: KeyHash + Copy + Drop>(
    alloc: Global,
    node: &mut Node<H>,
) -> Result<(), AllocError> {
    run_step(node, Step::Enrol(PID))?;
    run_step(node, ask_step(new_table_call(alloc)?))
}

/// Runs a step, and drops the reply.
fn run_step<H: KeyHash + Copy + Drop>(node: &mut Node<H>, step: Step) -> Result<(), AllocError> {
    let _reply = node.step(&step)?;
    Ok(())
}

/// Returns the step that makes this call in the process.
pub(crate) fn ask_step(call: Call) -> Step {
    Step::Ask(PID, call)
}

/// Runs at most two pending growth steps: as many as `GROWTH_STEPS` says.
pub(crate) fn grow<H: KeyHash + Copy + Drop>(node: &mut Node<H>) -> Result<(), AllocError> {
    node.run_pending()?;
    node.run_pending()?;
    Ok(())
}

/// Inserts the object of a key, and runs up to two growth steps.
pub(crate) fn insert_and_grow(
    alloc: Global,
    node: &mut Node<Fnv>,
    k: u64,
) -> Result<(), AllocError> {
    run_step(node, ask_step(insert_call(alloc, k)?))?;
    grow(node)
}

/// Inserts an object under each key below `KEYS`.
pub(crate) fn fill(alloc: Global, node: &mut Node<Fnv>) -> Result<(), AllocError> {
    for k in 0..KEYS {
        insert_and_grow(alloc, node, k)?;
    }
    Ok(())
}

/// Builds the steps that make a mixture of calls.
pub(crate) fn mixture_steps(alloc: Global, calls: u32) -> Result<Vec<Step>, AllocError> {
    let mut steps = Vec::new(alloc);
    for call in mixture(alloc, calls, 1)? {
        steps.push(ask_step(call))?;
    }
    Ok(steps)
}

/// Runs the steps, and returns how many found an object.
pub(crate) fn ask_all(node: &mut Node<Fnv>, steps: &[Step]) -> Result<u64, AllocError> {
    let mut found: u64 = 0;
    for step in steps {
        found = found.wrapping_add(u64::from(finds_object(node, step)?));
    }
    Ok(found)
}

/// Runs a step, and returns whether it found an object.
fn finds_object(node: &mut Node<Fnv>, step: &Step) -> Result<bool, AllocError> {
    let reply = node.step(step)?;
    Ok(has_object(&reply))
}
