//! `update_counter` of an object, in place and on a copy. A row has an object, operations, the expected answer, and the
//! object that they leave.
use super::rows::{Call, Update, first_mismatch, first_valid_text};
use super::*;

/// Returns whether `update_counter`, which changes the object in place, has the expected answer and leaves the expected
/// object. `expected` is the answer, or the atom of a refusal, and the object.
fn updates_counter(alloc: Global, object: &mut Term, ops: &Ops, expected: (&Term, &Term)) -> bool {
    let (expected_answer, expected_object) = expected;
    has_answer(update_counter(alloc, object, ops), expected_answer) && *object == *expected_object
}

/// Returns whether `apply_ops`, which changes a copy, returns the expected object and answer, or has the expected
/// refusal.
fn applies_ops(alloc: Global, object: &Term, ops: &Ops, expected: (&Term, &Term)) -> bool {
    let (expected_answer, expected_object) = expected;
    match apply_ops(alloc, object, ops) {
        Ok((copy, answer)) => {
            let same = answer == *expected_answer && copy == *expected_object;
            drop(copy);
            drop(answer);
            same
        }
        Err(fault) => is_refusal(&fault, expected_answer),
    }
}

/// Returns whether `update_counter` in place and `apply_ops` on a copy have the expected answer and object. None means
/// out of memory.
fn updates_counter_and_copy(
    alloc: Global,
    object: &Term,
    ops: &Ops,
    expected: (&Term, &Term),
) -> Option<bool> {
    let mut copy = object.try_clone(alloc).ok()?;
    let in_place = updates_counter(alloc, &mut copy, ops, expected);
    drop(copy);
    Some(in_place && applies_ops(alloc, object, ops, expected))
}

/// Reads operations, and returns whether they have the expected answer and object, in place and on a copy.
pub fn updates_counter_as_expected(
    alloc: Global,
    keypos: u32,
    object: &Term,
    updates: &Term,
    expected: (&Term, &Term),
) -> Option<bool> {
    match read_ops(alloc, updates, keypos) {
        Ok(ops) => {
            let holds = updates_counter_and_copy(alloc, object, &ops, expected);
            drop(ops);
            holds
        }
        Err(_) => Some(false),
    }
}

/// Rows `[Before, update, Operations, gives, Answer, leaves, After]` whose operations succeed. An operation is `Incr`,
/// `{Pos,Incr}` or `{Pos,Incr,Threshold,SetValue}`. The greatest integer, 2^127 - 1, is
/// 170141183460469231731687303715884105727.
const COUNTED: [&str; 16] = [
    "[{c,5}, update, 3, gives, 8, leaves, {c,8}]",
    "[{c,5}, update, -7, gives, -2, leaves, {c,-2}]",
    "[{c,170141183460469231731687303715884105727}, update, 0, gives, 170141183460469231731687303715884105727, leaves, {c,170141183460469231731687303715884105727}]",
    "[{c,5}, update, {2,3,7,0}, gives, 0, leaves, {c,0}]",
    "[{c,5}, update, {2,3,8,0}, gives, 8, leaves, {c,8}]",
    "[{c,-5}, update, {2,-3,-8,1}, gives, -8, leaves, {c,-8}]",
    "[{c,-5}, update, {2,-3,-7,1}, gives, 1, leaves, {c,1}]",
    "[{c,9}, update, {2,0,8,4}, gives, 4, leaves, {c,4}]",
    "[{c,170141183460469231731687303715884105727}, update, {2,1,170141183460469231731687303715884105727,0}, gives, 0, leaves, {c,0}]",
    "[{c,170141183460469231731687303715884105727}, update, {2,0,170141183460469231731687303715884105727,0}, gives, 170141183460469231731687303715884105727, leaves, {c,170141183460469231731687303715884105727}]",
    "[{c,-170141183460469231731687303715884105728}, update, {2,-1,0,5}, gives, 5, leaves, {c,5}]",
    "[{c,5}, update, [{2,1},{2,10}], gives, [6,16], leaves, {c,16}]",
    "[{c,5}, update, [{2,10},{2,1,15,0}], gives, [15,0], leaves, {c,0}]",
    "[{c,5}, update, [{2,1}], gives, [6], leaves, {c,6}]",
    "[{c,5}, update, [], gives, [], leaves, {c,5}]",
    "[{c,5,6}, update, [{3,1},{2,-1}], gives, [7,4], leaves, {c,4,7}]",
];

/// Checks the answers of operations that succeed, and the objects that they leave.
#[test]
fn operations_on_counters_succeed(rt: HostRuntime) {
    assert_eq!(rt;
        first_mismatch(rt.alloc(), Call::UpdateCounter(1), &COUNTED),
        Some(None)
    );
}

/// Rows with the columns of `COUNTED` whose operations are refused. A sum is out of range, or a position has no
/// integer. If both are true, the answer is `badarg`, also if the overflow comes first: all positions are tested before
/// the first operation.
const REFUSED: [&str; 10] = [
    "[{c,170141183460469231731687303715884105727}, update, 1, gives, system_limit, leaves, {c,170141183460469231731687303715884105727}]",
    "[{c,-170141183460469231731687303715884105728}, update, -1, gives, system_limit, leaves, {c,-170141183460469231731687303715884105728}]",
    "[{c,2}, update, 170141183460469231731687303715884105727, gives, system_limit, leaves, {c,2}]",
    "[{c,170141183460469231731687303715884105727}, update, [{2,1}], gives, system_limit, leaves, {c,170141183460469231731687303715884105727}]",
    "[{c,170141183460469231731687303715884105727}, update, [{2,1},{2,-1}], gives, system_limit, leaves, {c,170141183460469231731687303715884105727}]",
    "[{c,170141183460469231731687303715884105727}, update, [{2,-3},{2,2},{2,2}], gives, system_limit, leaves, {c,170141183460469231731687303715884105727}]",
    "[{c,170141183460469231731687303715884105727}, update, [{2,1},{9,1}], gives, badarg, leaves, {c,170141183460469231731687303715884105727}]",
    "[{c,170141183460469231731687303715884105727}, update, [{3,1},{2,1}], gives, badarg, leaves, {c,170141183460469231731687303715884105727}]",
    "[{c,170141183460469231731687303715884105727}, update, [{3,1}], gives, badarg, leaves, {c,170141183460469231731687303715884105727}]",
    "[{c,5}, update, {3,1}, gives, badarg, leaves, {c,5}]",
];

/// Checks that refused operations leave the object as it was.
#[test]
fn refused_operations_leave_the_object(rt: HostRuntime) {
    assert_eq!(rt;
        first_mismatch(rt.alloc(), Call::UpdateCounter(1), &REFUSED),
        Some(None)
    );
}

/// Rows with the columns of `COUNTED` for an object whose key is second. The operation 4 updates the element after the
/// key. The others are refused: an atom is not a counter, and 5 is not a tuple.
const KEY_SECOND: [&str; 3] = [
    "[{1,2,3}, update, 4, gives, 7, leaves, {1,2,7}]",
    "[{c,5}, update, {1,1}, gives, badarg, leaves, {c,5}]",
    "[5, update, {1,1}, gives, badarg, leaves, 5]",
];

/// Checks operations on objects whose key is the second element.
#[test]
fn the_key_may_be_the_second_element(rt: HostRuntime) {
    assert_eq!(rt;
        first_mismatch(rt.alloc(), Call::UpdateCounter(2), &KEY_SECOND),
        Some(None)
    );
}

/// Terms that are not operations on an object whose key is first.
const NOT_OPERATIONS: [&str; 18] = [
    "{0,1}",
    "{-1,1}",
    "{1,1}",
    "{2}",
    "{2,1,1}",
    "{2,a}",
    "{a,1}",
    "{}",
    "[{2,1},{0,1}]",
    "[{2,1},{-1,1}]",
    "[{2,1},{1,1}]",
    "[{2,1},{2}]",
    "[{2,1},{2,1,1}]",
    "[{2,1},{2,a}]",
    "[{2,1},{a,1}]",
    "[{2,1},{}]",
    "[1]",
    "a",
];

/// Checks that `read_ops` refuses each term of `NOT_OPERATIONS`.
#[test]
fn texts_that_are_not_operations_are_refused(rt: HostRuntime) {
    assert_eq!(rt;
        first_valid_text(rt.alloc(), Update::Operations, &NOT_OPERATIONS),
        Some(None)
    );
}
