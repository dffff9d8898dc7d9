//! Updates of counters and elements of one object. Rows of text have the expected values, from the rules of `ets`.
//! `None` means out of memory, unless a comment says otherwise.
use counters::{
    CounterFault, ElementSpecs, Ops, apply_elements, apply_ops, is_valid_default,
    read_element_specs, read_ops, start_counter, start_with_elements, update_counter, with_key,
    write_elements,
};
use ets_term::{Items, MAX_DEPTH, Term};
use std::alloc::Global;
use std::process::Abort;
use term_text::read_term;

// `update_counter` without a default object.
mod counts;
// Both updates with a default object, for a missing key.
mod defaults;
// Element values near the greatest depth.
mod depths;
// `update_element` without a default object.
mod elements;
// Updates that run out of memory.
mod refused;
// Calls that are retried once.
mod retries;
// Rows of text, and how a test reads them.
mod rows;

/// Returns whether a call has the wanted answer. A wanted `badarg` or `system_limit` means that the call is refused.
fn is_answer(outcome: &Result<Term, CounterFault>, wanted: &Term) -> bool {
    match outcome {
        Ok(answer) => *answer == *wanted,
        Err(fault) => is_refusal(fault, wanted),
    }
}

/// Returns whether a call has the wanted answer, as `is_answer` does, and drops the outcome.
fn has_answer(outcome: Result<Term, CounterFault>, wanted: &Term) -> bool {
    let same = is_answer(&outcome, wanted);
    drop(outcome);
    same
}

/// Returns whether the refusal is the wanted atom. Out of memory equals no atom, so it fails the test.
fn is_refusal(fault: &CounterFault, wanted: &Term) -> bool {
    match fault {
        CounterFault::Badarg => wanted.is_atom("badarg"),
        CounterFault::SystemLimit => wanted.is_atom("system_limit"),
        CounterFault::Memory => false,
    }
}
