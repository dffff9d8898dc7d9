//! Tests of `node_reasons::why`: the reason of each refusal, in words.
// A reply that is a value has no reason.

// The rows: steps that break a rule, each with its reason.
mod misuses;

use super::{Row, StepText, build_step};
use ets_term::Fnv;
use node_core::{Limits, Node, Reply, Step};
use node_reasons::{Reason, why};
use std::alloc::{AllocError, Global};
use std::process::Abort;

/// Returns whether a reason has these words.
fn reason_has_words(alloc: Global, reason: Reason, wanted: &str) -> Result<bool, AllocError> {
    let words = reason.to_string(alloc)?;
    let same = words.as_str() == wanted;
    drop(words);
    Ok(same)
}

/// Returns whether the reply to a step has the wanted reason. An empty text wants a value, which has no reason.
fn has_reason(
    alloc: Global,
    node: &Node<Fnv>,
    step: &Step,
    reply: &Reply,
    wanted: &str,
) -> Result<bool, AllocError> {
    match why(node, step, reply) {
        Some(reason) => reason_has_words(alloc, reason, wanted),
        None => Ok(wanted.is_empty() && reply.is_value()),
    }
}

/// Runs the step of a `StepText`, and returns whether its reply has the wanted reason.
fn step_text_has_reason(
    alloc: Global,
    node: &mut Node<Fnv>,
    step_text: StepText,
    wanted: &str,
) -> Result<bool, AllocError> {
    let step = build_step(alloc, step_text)?;
    let has_wanted_reason = step_has_reason(alloc, node, &step, wanted);
    drop(step);
    has_wanted_reason
}

/// Runs a step, and returns whether its reply has the wanted reason.
fn step_has_reason(
    alloc: Global,
    node: &mut Node<Fnv>,
    step: &Step,
    wanted: &str,
) -> Result<bool, AllocError> {
    let reply = node.step(step)?;
    let has_wanted_reason = has_reason(alloc, node, step, &reply, wanted);
    drop(reply);
    has_wanted_reason
}

/// Runs the rows in a node. Returns the index of the first row with another reason, or `None` if each is right.
fn first_wrong_reason_in(
    alloc: Global,
    node: &mut Node<Fnv>,
    rows: &[Row],
) -> Result<Option<usize>, AllocError> {
    for (index, (step_text, wanted)) in rows.iter().enumerate() {
        if !step_text_has_reason(alloc, node, *step_text, *wanted)? {
            return Ok(Some(index));
        }
    }
    Ok(None)
}

/// Runs the rows in a new node with these limits, and returns the index of the first row with another reason.
fn first_wrong_reason(
    alloc: Global,
    limits: Limits,
    rows: &[Row],
) -> Result<Option<usize>, AllocError> {
    let mut node = Node::new(alloc, limits, Fnv);
    let index = first_wrong_reason_in(alloc, &mut node, rows);
    drop(node);
    index
}

#[test]
fn misuses_of_steps_have_their_reasons(rt: HostRuntime) {
    assert_eq!(rt;
        first_wrong_reason(rt.alloc(), Limits::usual(), &misuses::STEPS),
        Ok(None)
    );
}

#[test]
fn misuses_of_objects_have_their_reasons(rt: HostRuntime) {
    assert_eq!(rt;
        first_wrong_reason(rt.alloc(), Limits::usual(), &misuses::OBJECTS),
        Ok(None)
    );
}

#[test]
fn misuses_of_updates_have_their_reasons(rt: HostRuntime) {
    assert_eq!(rt;
        first_wrong_reason(rt.alloc(), Limits::usual(), &misuses::UPDATES),
        Ok(None)
    );
}

#[test]
fn misuses_of_tables_have_their_reasons(rt: HostRuntime) {
    assert_eq!(rt;
        first_wrong_reason(rt.alloc(), Limits::usual(), &misuses::TABLES),
        Ok(None)
    );
}

#[test]
fn each_limit_has_its_reason(rt: HostRuntime) {
    let limits = Limits {
        processes: 1,
        tables: 1,
        objects: 1,
    };
    assert_eq!(rt;
        first_wrong_reason(rt.alloc(), limits, &misuses::LIMITED),
        Ok(None)
    );
}
