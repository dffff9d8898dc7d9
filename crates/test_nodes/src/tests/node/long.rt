//! Tests of a node with long inputs: thousands of objects, tables, processes and steps.
// They fail if a mutant reports out of memory at a small size. A template is a text such as `lookup(t,N)`, in which a
// number replaces each N.

// A table that grows while objects are inserted, found and deleted.
mod growth;
// Many objects in a table, and long arguments and replies.
mod objects;
// Many processes, tables and names.
mod processes;
// `Node::run` and `Node::run_through` of many steps.
mod runs;

use super::StepText::{Ask, Enrol};
use super::{Pid, Row, first_wrong_row_in, step_text_has_reply};
use crate::tests::keep_if_ok;
use ets_term::Fnv;
use node_core::{Limits, Node};
use std::alloc::{AllocError, Global};
use std::process::Abort;

/// How often a test repeats a call. The numbers that replace N are below it, so the last is 2099. It is more than
/// 2,048, so that an array that doubles its capacity is moved.
const COUNT: u32 = 2_100;

/// How many processes enrol: the usual limit.
const PROCESSES: u32 = 4_096;

/// Appends a template to a text, with the number in place of each N.
fn push_template(
    alloc: Global,
    text: &mut String,
    template: &str,
    number: u32,
) -> Result<(), AllocError> {
    let digits = format!(in alloc; "{number}")?;
    let pushed = push_filled(text, template, digits.as_str());
    drop(digits);
    pushed
}

/// Appends a template to a text, with these digits in place of each N.
fn push_filled(text: &mut String, template: &str, digits: &str) -> Result<(), AllocError> {
    for letter in template.chars() {
        match letter {
            'N' => text.push_str(digits)?,
            _ => text.push(letter)?,
        }
    }
    Ok(())
}

/// Returns a template with the number in place of each N.
fn fill_template(alloc: Global, template: &str, number: u32) -> Result<String, AllocError> {
    let mut text = String::new(alloc);
    keep_if_ok(push_template(alloc, &mut text, template, number), text)
}

/// Enrols process 0, and makes its table t, a duplicate bag. A row is a step and its wanted reply.
static STARTED: [Row; 2] = [
    (Enrol(Pid(0)), "<0.0.0>"),
    (Ask(Pid(0), "new(t,[named_table,duplicate_bag])"), "t"),
];

/// What a test checks of a new node.
#[derive(Clone, Copy)]
enum Check {
    /// Replies are right while a table grows.
    Growth,
    /// A table stores, finds and deletes many objects.
    Objects,
    /// As many processes as the limit enrol, and some exit.
    Processes,
    /// One process makes many tables and exits.
    Tables,
    /// Tables take names of every length.
    Names,
    /// `run` replies to many steps.
    Runs,
    /// `run_through` replies to many steps.
    RunsThrough,
}

/// Makes a check of a new node, and returns whether the node passes it.
fn node_passes(alloc: Global, node: &mut Node<Fnv>, check: Check) -> Result<bool, AllocError> {
    match check {
        Check::Growth => growth::replies_as_it_grows(alloc, node),
        Check::Objects => objects::stores_many_objects(alloc, node),
        Check::Processes => processes::exits_delete_tables(alloc, node, PROCESSES),
        Check::Tables => processes::exit_deletes_many_tables(alloc, node, COUNT),
        Check::Names => processes::tables_take_names(alloc, node),
        Check::Runs => runs::runs_many_steps(alloc, node),
        Check::RunsThrough => runs::runs_through_many_steps(alloc, node),
    }
}

/// Creates a node, and returns whether it passes a check.
fn new_node_passes(alloc: Global, check: Check) -> Result<bool, AllocError> {
    let mut node = Node::new(alloc, Limits::usual(), Fnv);
    let passed = node_passes(alloc, &mut node, check);
    drop(node);
    passed
}

/// Enrols process 0 and makes its table t, and returns whether both steps have their replies.
fn starts_with_table(alloc: Global, node: &mut Node<Fnv>) -> Result<bool, AllocError> {
    Ok(first_wrong_row_in(alloc, node, &STARTED)?.is_none())
}

/// Makes a call of process 0, and returns whether it has the wanted reply.
fn call_has_reply(
    alloc: Global,
    node: &mut Node<Fnv>,
    call: &str,
    wanted: &str,
) -> Result<bool, AllocError> {
    step_text_has_reply(alloc, node, Ask(Pid(0), call), wanted)
}

/// Fills a number into the templates of a call and a reply. Returns whether the call, made by process 0, has this
/// reply.
fn filled_call_has_reply(
    alloc: Global,
    node: &mut Node<Fnv>,
    call: &str,
    wanted: &str,
    number: u32,
) -> Result<bool, AllocError> {
    let call = fill_template(alloc, call, number)?;
    let has_reply = call_has_filled_reply(alloc, node, call.as_str(), wanted, number);
    drop(call);
    has_reply
}

/// Makes a call of process 0, and returns whether its reply is the template `wanted`, filled in with a number.
fn call_has_filled_reply(
    alloc: Global,
    node: &mut Node<Fnv>,
    call: &str,
    wanted: &str,
    number: u32,
) -> Result<bool, AllocError> {
    let wanted = fill_template(alloc, wanted, number)?;
    let has_reply = call_has_reply(alloc, node, call, wanted.as_str());
    drop(wanted);
    has_reply
}

/// Fills each number below `COUNT` into the templates of a call and a reply. Returns the first number whose call has
/// another reply, or `None` if each has its reply.
fn first_wrong_number(
    alloc: Global,
    node: &mut Node<Fnv>,
    call: &str,
    wanted: &str,
) -> Result<Option<u32>, AllocError> {
    for number in 0..COUNT {
        if !filled_call_has_reply(alloc, node, call, wanted, number)? {
            return Ok(Some(number));
        }
    }
    Ok(None)
}
