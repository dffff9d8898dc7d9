//! Updates with a default object, as `update_counter/4` and `update_element/4` make them for a missing key. A row has
//! the default object, the key, the update and its expected result.
use super::rows::{Call, first_mismatch};
use super::*;

/// Returns whether `expected` is the pair `{Answer,Object}` of this answer and this object.
fn is_answer_and_object(expected: &Term, answer: &Term, object: &Term) -> bool {
    expected.element(1) == Some(answer) && expected.element(2) == Some(object)
}

/// Returns whether both `with_key` and `is_valid_default` accept a default object with this key.
fn default_is_accepted(alloc: Global, keypos: u32, default: &Term, key: &Term) -> bool {
    let outcome = with_key(alloc, default, keypos, key);
    let has_object = outcome.is_ok();
    drop(outcome);
    has_object && is_valid_default(default, keypos, key)
}

/// Returns whether both `with_key` and `is_valid_default` refuse a default object with this key.
fn default_is_refused(alloc: Global, keypos: u32, default: &Term, key: &Term) -> bool {
    let fault = with_key(alloc, default, keypos, key).err();
    !is_valid_default(default, keypos, key) && matches!(fault, Some(CounterFault::Badarg))
}

/// Returns whether `start_counter` gives the object and the answer of `expected`, `{Answer,Object}`, or the expected
/// refusal. If it succeeds, `with_key` and `is_valid_default` must accept the default object too.
fn applies_ops_to_default(
    alloc: Global,
    keypos: u32,
    default_and_key: (&Term, &Term),
    ops: &Ops,
    expected: &Term,
) -> bool {
    let (default, key) = default_and_key;
    match start_counter(alloc, default, keypos, key, ops) {
        Ok(started) => {
            let same = is_answer_and_object(expected, &started.1, &started.0);
            drop(started);
            same && default_is_accepted(alloc, keypos, default, key)
        }
        Err(fault) => is_refusal(&fault, expected),
    }
}

/// Reads operations, and returns whether they give the expected result on a default object with a key.
pub fn starts_counter_as_expected(
    alloc: Global,
    keypos: u32,
    default_and_key: (&Term, &Term),
    updates: &Term,
    expected: &Term,
) -> Option<bool> {
    match read_ops(alloc, updates, keypos) {
        Ok(ops) => {
            let holds = applies_ops_to_default(alloc, keypos, default_and_key, &ops, expected);
            drop(ops);
            Some(holds)
        }
        Err(_) => Some(false),
    }
}

/// Returns whether `start_with_elements`, with keypos 1, builds the object `expected`, or is refused if `expected` is
/// the atom of a refusal.
pub fn writes_default_as_expected(
    alloc: Global,
    default: &Term,
    key: &Term,
    values: &Term,
    expected: &Term,
) -> Option<bool> {
    match read_element_specs(alloc, values, 1) {
        Ok(specs) => Some(has_answer(
            start_with_elements(alloc, default, 1, key, &specs),
            expected,
        )),
        Err(_) => Some(false),
    }
}

/// Rows `[default, Default, key, Key, update, Operations, gives, Result]`. The result is `{Answer,Object}` or a
/// refusal.
const COUNTED_WITH_DEFAULT: [&str; 7] = [
    "[default, {x,10}, key, h, update, {2,1}, gives, {11,{h,11}}]",
    "[default, {x,10}, key, h, update, 1, gives, {11,{h,11}}]",
    "[default, {x,10}, key, h, update, [{2,1},{2,-5}], gives, {[11,6],{h,6}}]",
    "[default, {x}, key, h, update, [], gives, {[],{h}}]",
    "[default, {x}, key, h, update, 1, gives, badarg]",
    "[default, {x}, key, {x}, update, 1, gives, badarg]",
    "[default, 7, key, h, update, 1, gives, badarg]",
];

/// Checks operations on a missing key: they count from the default object.
#[test]
fn counters_begin_at_their_defaults(rt: HostRuntime) {
    assert_eq!(rt;
        first_mismatch(
            rt.alloc(),
            Call::UpdateCounterWithDefault(1),
            &COUNTED_WITH_DEFAULT
        ),
        Some(None)
    );
}

/// Rows `[default, Default, key, Key, set, Values, gives, Result]`. The result is the new object or a refusal.
const WRITTEN: [&str; 4] = [
    "[default, {0,1}, key, 3, set, {2,9}, gives, {3,9}]",
    "[default, {0,1}, key, 3, set, [], gives, {3,1}]",
    "[default, {x}, key, {x}, set, {2,9}, gives, badarg]",
    "[default, 7, key, 3, set, {2,9}, gives, badarg]",
];

/// Checks element values for a missing key: they are written to the default object.
#[test]
fn values_are_written_to_a_default_object(rt: HostRuntime) {
    assert_eq!(rt;
        first_mismatch(rt.alloc(), Call::UpdateElementWithDefault, &WRITTEN),
        Some(None)
    );
}

/// Returns whether `with_key` and `is_valid_default` both accept a default object with the key of this text, and
/// whether both refuse it.
fn verdicts_on_default(
    alloc: Global,
    keypos: u32,
    default: &Term,
    key: &str,
) -> Option<(bool, bool)> {
    let (key, _) = read_term(alloc, key).ok()?;
    let is_accepted = default_is_accepted(alloc, keypos, default, &key);
    let is_refused = default_is_refused(alloc, keypos, default, &key);
    drop(key);
    Some((is_accepted, is_refused))
}

/// Returns whether the default object and the key of these texts make an object. None means out of memory, a text that
/// is not a term, or that `with_key` and `is_valid_default` disagree.
fn default_makes_object(alloc: Global, keypos: u32, default: &str, key: &str) -> Option<bool> {
    let (default, _) = read_term(alloc, default).ok()?;
    let verdicts = verdicts_on_default(alloc, keypos, &default, key);
    drop(default);
    match verdicts? {
        (true, false) => Some(true),
        (false, true) => Some(false),
        _ => None,
    }
}

/// Each row is a keypos, a default object and a key that do not make an object: `{x}` has no position 2 or 0, no object
/// has the key `'$end_of_table'`, and 7 is not a tuple.
const INVALID_DEFAULTS: [(u32, &str, &str); 4] = [
    (2, "{x}", "h"),
    (0, "{x}", "h"),
    (1, "{x}", "'$end_of_table'"),
    (1, "7", "h"),
];

/// Returns whether no row makes an object. None is as in `default_makes_object`.
fn are_invalid_defaults(alloc: Global, rows: &[(u32, &'static str, &'static str)]) -> Option<bool> {
    for (keypos, default, key) in rows {
        if default_makes_object(alloc, *keypos, *default, *key)? {
            return Some(false);
        }
    }
    Some(true)
}

/// Checks that `with_key` and `is_valid_default` accept a default object only if it is an object with the key.
#[test]
fn only_objects_are_valid_defaults(rt: HostRuntime) {
    assert!(rt; default_makes_object(rt.alloc(), 1, "{x}", "h") == Some(true));
    assert!(rt; are_invalid_defaults(rt.alloc(), &INVALID_DEFAULTS) == Some(true));
}
