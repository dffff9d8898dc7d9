//! `update_element` of an object, in place and on a copy. A row has an object, element values `{Pos,Value}`, and the
//! expected object or refusal.
use super::rows::{Call, Update, first_mismatch, first_valid_text};
use super::*;

/// Returns whether `write_elements` changes the object to `expected`. If `expected` is the atom of a refusal, checks
/// this refusal, and that the object is still `before`.
fn writes_in_place(
    alloc: Global,
    object: &mut Term,
    specs: &ElementSpecs,
    before: &Term,
    expected: &Term,
) -> bool {
    match write_elements(alloc, object, specs) {
        Ok(()) => *object == *expected,
        Err(fault) => is_refusal(&fault, expected) && *object == *before,
    }
}

/// Returns whether `apply_elements` returns the object `expected`, or is refused if `expected` is the atom of a
/// refusal. The keypos is 1.
fn writes_on_a_copy(alloc: Global, object: &Term, values: &Term, expected: &Term) -> bool {
    match read_element_specs(alloc, values, 1) {
        Ok(specs) => has_answer(apply_elements(alloc, object, &specs), expected),
        Err(_) => false,
    }
}

/// Reads element values for keypos 1, and returns whether `write_elements` writes them to the object as expected.
fn reads_and_writes_in_place(
    alloc: Global,
    object: &mut Term,
    values: &Term,
    before: &Term,
    expected: &Term,
) -> bool {
    match read_element_specs(alloc, values, 1) {
        Ok(specs) => writes_in_place(alloc, object, &specs, before, expected),
        Err(_) => false,
    }
}

/// Returns whether element values update an object to `expected`, in place and on a copy. They must be refused if
/// `expected` is the atom of a refusal.
pub fn writes_as_expected(
    alloc: Global,
    object: &Term,
    values: &Term,
    expected: &Term,
) -> Option<bool> {
    let mut copy = object.try_clone(alloc).ok()?;
    let in_place = reads_and_writes_in_place(alloc, &mut copy, values, object, expected);
    drop(copy);
    Some(in_place && writes_on_a_copy(alloc, object, values, expected))
}

/// Rows `[Before, set, Values, gives, Result]`. The result is the object afterwards or a refusal. Of several values for
/// a position, the last is written. A position above the size is refused anywhere in a list.
const WRITTEN: [&str; 11] = [
    "[{k,1,2}, set, {2,y}, gives, {k,y,2}]",
    "[{k,1,2}, set, [{2,y}], gives, {k,y,2}]",
    "[{k,1,2}, set, [{2,x},{2,y}], gives, {k,y,2}]",
    "[{k,1,2}, set, [{2,y},{2,x},{2,y}], gives, {k,y,2}]",
    "[{k,1,2}, set, [{3,x},{2,y}], gives, {k,y,x}]",
    "[{k,1,2}, set, [], gives, {k,1,2}]",
    "[{k,1,2}, set, {4,x}, gives, badarg]",
    "[{k,1,2}, set, [{4,x}], gives, badarg]",
    "[{k,1,2}, set, [{2,x},{4,x}], gives, badarg]",
    "[{k,1,2}, set, [{4,x},{2,x}], gives, badarg]",
    "[1, set, [], gives, badarg]",
];

/// Checks element values that are written, and positions that are refused.
#[test]
fn element_values_are_written_or_refused(rt: HostRuntime) {
    assert_eq!(rt;
        first_mismatch(rt.alloc(), Call::UpdateElement, &WRITTEN),
        Some(None)
    );
}

/// Terms that are not element values for an object whose key is first.
const NOT_ELEMENT_VALUES: [&str; 15] = [
    "{0,x}",
    "{1,x}",
    "{-2,x}",
    "{x,2}",
    "{2}",
    "{2,3,4}",
    "{}",
    "[{2,3},{0,x}]",
    "[{2,3},{1,x}]",
    "[{2,3},{-2,x}]",
    "[{2,3},{x,2}]",
    "[{2,3},{2}]",
    "[{2,3},{2,3,4}]",
    "[{2,3},{}]",
    "2",
];

/// Checks that `read_element_specs` refuses each term of `NOT_ELEMENT_VALUES`.
#[test]
fn texts_that_are_not_element_values_are_refused(rt: HostRuntime) {
    assert_eq!(rt;
        first_valid_text(rt.alloc(), Update::Values, &NOT_ELEMENT_VALUES),
        Some(None)
    );
}
