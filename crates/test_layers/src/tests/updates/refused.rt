//! Updates of counters and elements that run out of memory. `.ci/refusals` runs these tests with each allocation
//! refused in turn.
// A call that ran out of memory must leave the object as it was. Its retry must have the answer that it has with enough
// memory. Helpers `.._with_retry` make each call a second time if memory is refused.
use super::retries::{
    apply_elements_with_retry, apply_ops_with_retry, clone_with_retry,
    read_element_specs_with_retry, read_ops_with_retry, start_counter_with_retry,
    start_with_elements_with_retry, update_counter_with_retry,
};
use super::rows::{COUNTER_LABELS, ELEMENT_DEFAULT_LABELS, ELEMENT_LABELS, has_labels};
use super::*;
use crate::tests::text::refused::term_with_retry;

/// Returns whether an outcome is the expected answer and object, or the expected refusal. `expected` is the answer and
/// the object after the update; for a refusal its first part is the atom, such as `badarg`.
fn has_answer_and_object(
    outcome: Result<(Term, Term), CounterFault>,
    expected: (&Term, &Term),
) -> bool {
    let (expected_answer, expected_object) = expected;
    match outcome {
        Ok((object, answer)) => {
            let same = answer == *expected_answer && object == *expected_object;
            drop(object);
            drop(answer);
            same
        }
        Err(fault) => is_refusal(&fault, expected_answer),
    }
}

/// Returns whether `update_counter` of a copy has the expected answer and leaves the expected object.
fn updates_counter_in_place_with_retry(
    alloc: Global,
    object: &Term,
    ops: &Ops,
    expected: (&Term, &Term),
) -> Option<bool> {
    let mut copy = clone_with_retry(alloc, object)?;
    let (expected_answer, expected_object) = expected;
    let has_expected_answer = has_answer(
        update_counter_with_retry(alloc, &mut copy, object, ops),
        expected_answer,
    );
    let has_expected_object = copy == *expected_object;
    drop(copy);
    Some(has_expected_answer && has_expected_object)
}

/// Returns whether operations, for keypos 1, have the expected answer and object by `update_counter` and by
/// `apply_ops`.
fn updates_counter_as_expected_with_retry(
    alloc: Global,
    object: &Term,
    updates: &Term,
    expected: (&Term, &Term),
) -> Option<bool> {
    let ops = read_ops_with_retry(alloc, updates, 1)?;
    let has_result_in_place = updates_counter_in_place_with_retry(alloc, object, &ops, expected);
    let has_result_on_copy = has_answer_and_object(
        apply_ops_with_retry(alloc, object, &ops),
        expected,
    );
    drop(ops);
    Some(has_result_in_place? && has_result_on_copy)
}

/// Returns whether operations on a default object, with keypos 1, have the expected answer and object.
fn starts_counter_as_expected_with_retry(
    alloc: Global,
    default: &Term,
    key: &Term,
    updates: &Term,
    expected: (&Term, &Term),
) -> Option<bool> {
    let ops = read_ops_with_retry(alloc, updates, 1)?;
    let started = start_counter_with_retry(alloc, default, key, &ops);
    drop(ops);
    Some(has_answer_and_object(started, expected))
}

/// Returns whether element values update a copy of an object to `expected`, or are refused as expected.
fn writes_as_expected_with_retry(
    alloc: Global,
    object: &Term,
    values: &Term,
    expected: &Term,
) -> Option<bool> {
    let specs = read_element_specs_with_retry(alloc, values)?;
    let outcome = apply_elements_with_retry(alloc, object, &specs);
    drop(specs);
    Some(has_answer(outcome, expected))
}

/// Returns whether element values for a default object with this key give `expected`, or are refused as expected.
fn writes_default_as_expected_with_retry(
    alloc: Global,
    default: &Term,
    key: &Term,
    values: &Term,
    expected: &Term,
) -> Option<bool> {
    let specs = read_element_specs_with_retry(alloc, values)?;
    let outcome = start_with_elements_with_retry(alloc, default, key, &specs);
    drop(specs);
    Some(has_answer(outcome, expected))
}

/// The call that a row of text checks, and so the columns of the row. A lower-case column is a literal label. An answer
/// or a result may be a refusal.
#[derive(Clone, Copy)]
enum UpdateCall {
    /// `[Before, update, Operations, gives, Answer, leaves, After]`
    UpdateCounter,
    /// `[default, Default, key, Key, update, Operations, gives, Answer, leaves, Object]`. The object of a refusal is
    /// `none`, which is not compared.
    UpdateCounterWithDefault,
    /// `[Before, set, Values, gives, Result]`
    UpdateElement,
    /// `[default, Default, key, Key, set, Values, gives, Result]`
    UpdateElementWithDefault,
}

/// The labels of a row of `UpdateCounterWithDefault`, each with its index.
const COUNTER_DEFAULT_LABELS: [(usize, &str); 5] = [
    (0, "default"),
    (2, "key"),
    (4, "update"),
    (6, "gives"),
    (8, "leaves"),
];

/// Returns whether a row has the labels of its call.
fn has_labels_of(call: UpdateCall, row: &[Term]) -> bool {
    match call {
        UpdateCall::UpdateCounter => has_labels(row, &COUNTER_LABELS),
        UpdateCall::UpdateCounterWithDefault => has_labels(row, &COUNTER_DEFAULT_LABELS),
        UpdateCall::UpdateElement => has_labels(row, &ELEMENT_LABELS),
        UpdateCall::UpdateElementWithDefault => has_labels(row, &ELEMENT_DEFAULT_LABELS),
    }
}

/// Returns whether the operations of a row have its answer and leave its object.
fn counter_row_holds_with_retry(alloc: Global, row: &[Term]) -> Option<bool> {
    let [before, _, updates, _, answer, _, after] = row else {
        return None;
    };
    updates_counter_as_expected_with_retry(alloc, before, updates, (answer, after))
}

/// Returns whether the operations of a row have its answer and object on its default object.
fn counter_default_row_holds_with_retry(alloc: Global, row: &[Term]) -> Option<bool> {
    let [_, default, _, key, _, updates, _, answer, _, after] = row else {
        return None;
    };
    starts_counter_as_expected_with_retry(alloc, default, key, updates, (answer, after))
}

/// Returns whether the element values of a row have its result.
fn element_row_holds_with_retry(alloc: Global, row: &[Term]) -> Option<bool> {
    let [before, _, values, _, expected] = row else {
        return None;
    };
    writes_as_expected_with_retry(alloc, before, values, expected)
}

/// Returns whether the element values of a row have its result on the default object.
fn element_default_row_holds_with_retry(alloc: Global, row: &[Term]) -> Option<bool> {
    let [_, default, _, key, _, values, _, expected] = row else {
        return None;
    };
    writes_default_as_expected_with_retry(alloc, default, key, values, expected)
}

/// Returns whether the call of a row has the expected result. None means wrong columns, or a failed retry.
fn row_holds_with_retry(alloc: Global, call: UpdateCall, row: &[Term]) -> Option<bool> {
    if !has_labels_of(call, row) {
        return None;
    }
    match call {
        UpdateCall::UpdateCounter => counter_row_holds_with_retry(alloc, row),
        UpdateCall::UpdateCounterWithDefault => counter_default_row_holds_with_retry(alloc, row),
        UpdateCall::UpdateElement => element_row_holds_with_retry(alloc, row),
        UpdateCall::UpdateElementWithDefault => element_default_row_holds_with_retry(alloc, row),
    }
}

/// Reads the row of a text, and returns whether it holds, with one retry of each call.
fn text_row_holds_with_retry(alloc: Global, call: UpdateCall, row: &str) -> Option<bool> {
    let row = term_with_retry(alloc, row)?;
    let holds = match &row {
        Term::List(parts) => row_holds_with_retry(alloc, call, parts.as_slice()),
        _ => None,
    };
    drop(row);
    holds
}

/// Returns the first row that does not hold, even with one retry of each call.
fn first_mismatch_with_retry(
    alloc: Global,
    rows: &[(UpdateCall, &'static str)],
) -> Option<&'static str> {
    for (call, row) in rows {
        if text_row_holds_with_retry(alloc, *call, *row) != Some(true) {
            return Some(*row);
        }
    }
    None
}

/// Each row is a call and its row of text, with the columns of `UpdateCall`. The updates take memory, and some are
/// refused.
const UPDATES: [(UpdateCall, &str); 9] = [
    (
        UpdateCall::UpdateCounter,
        "[{c,5}, update, 3, gives, 8, leaves, {c,8}]",
    ),
    (
        UpdateCall::UpdateCounter,
        "[{c,5,x}, update, [{2,1},{2,1},{2,1},{2,1},{2,1},{2,1},{2,1},{2,1},{2,-9}], gives, [6,7,8,9,10,11,12,13,4], leaves, {c,4,x}]",
    ),
    (
        UpdateCall::UpdateCounter,
        "[{c,5,a}, update, [{2,1},{2,1},{3,1}], gives, badarg, leaves, {c,5,a}]",
    ),
    (
        UpdateCall::UpdateCounterWithDefault,
        "[default, {x,10,[1,2,3]}, key, [a,key], update, [{2,1},{2,-5}], gives, [11,6], leaves, {[a,key],6,[1,2,3]}]",
    ),
    (
        UpdateCall::UpdateCounterWithDefault,
        "[default, {x}, key, [a,key], update, [{2,1}], gives, badarg, leaves, none]",
    ),
    (
        UpdateCall::UpdateElement,
        "[{k,1,2}, set, [{2,'a text that needs memory of its own'},{3,[x,{y}]}], gives, {k,'a text that needs memory of its own',[x,{y}]}]",
    ),
    (
        UpdateCall::UpdateElement,
        "[{k,1,2}, set, [{2,[a,list]},{4,x}], gives, badarg]",
    ),
    (
        UpdateCall::UpdateElementWithDefault,
        "[default, {0,1,<<\"binary\">>}, key, [a,key], set, [{2,[9]}], gives, {[a,key],[9],<<\"binary\">>}]",
    ),
    (
        UpdateCall::UpdateElementWithDefault,
        "[default, {0,1}, key, [a,key], set, [{3,[9]}], gives, badarg]",
    ),
];

#[test]
fn a_retried_update_has_the_expected_answer(rt: HostRuntime) {
    assert_eq!(rt; first_mismatch_with_retry(rt.alloc(), &UPDATES), None);
}
