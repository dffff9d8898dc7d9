//! Element values near the greatest depth that an object may have.
use super::elements::writes_as_expected;
use super::*;
use crate::tests::depths::nested_list;
use crate::tests::keep_if_some;

/// Pushes the position 2 and a value of this depth.
fn push_element_value(alloc: Global, items: &mut Items<Term>, levels: usize) -> Option<()> {
    items.push(Term::Int(2)).ok()?;
    items.push(nested_list(alloc, levels)?).ok()
}

/// Builds the element value `{2,Value}` with a value of this depth.
fn element_value(alloc: Global, levels: usize) -> Option<Term> {
    let mut items = Items::new(alloc);
    Some(Term::Tuple(keep_if_some(push_element_value(alloc, &mut items, levels), items)?))
}

/// Pushes an element value for each depth.
fn push_element_values(alloc: Global, items: &mut Items<Term>, depths: &[usize]) -> Option<()> {
    for levels in depths {
        items.push(element_value(alloc, *levels)?).ok()?;
    }
    Some(())
}

/// Builds the list of element values with values of these depths.
fn element_values(alloc: Global, depths: &[usize]) -> Option<Term> {
    let mut items = Items::new(alloc);
    Some(Term::List(keep_if_some(push_element_values(alloc, &mut items, depths), items)?))
}

/// Each row is the depths of the values in a list, all for the second element, and whether the list is refused. If it
/// is not refused, its last value makes the object as deep as it may be.
const ROWS: [(&[usize], bool); 5] = [
    (&[MAX_DEPTH], true),
    (&[1, MAX_DEPTH], true),
    (&[MAX_DEPTH + 1], true),
    (&[MAX_DEPTH - 1], false),
    (&[MAX_DEPTH, MAX_DEPTH - 1], false),
];

/// Pushes the terms that the rows need: the object `{2,1}` before an update, the object `{2,Value}` with the deepest
/// value, which is built as an element value is, and the atom of the refusal.
fn push_row_terms(alloc: Global, terms: &mut Items<Term>) -> Option<()> {
    terms.push(read_term(alloc, "{2,1}").ok()?.0).ok()?;
    terms.push(element_value(alloc, MAX_DEPTH - 1)?).ok()?;
    terms.push(read_term(alloc, "system_limit").ok()?.0).ok()
}

/// Returns whether these element values update an object to `expected`, or are refused if `expected` is the atom of a
/// refusal. Drops the values.
fn values_write_as_expected(
    alloc: Global,
    object: &Term,
    values: Option<Term>,
    expected: &Term,
) -> Option<bool> {
    let values = values?;
    let holds = writes_as_expected(alloc, object, &values, expected);
    drop(values);
    holds
}

/// Returns whether each row holds, and a single value of depth `MAX_DEPTH` is refused. The terms are those of
/// `push_row_terms`.
fn all_rows_hold(alloc: Global, terms: &[Term], rows: &[(&'static [usize], bool)]) -> Option<bool> {
    let [object, deepest, refusal] = terms else {
        return None;
    };
    for (depths, is_refused) in rows {
        let expected = if *is_refused { refusal } else { deepest };
        if !values_write_as_expected(alloc, object, element_values(alloc, *depths), expected)? {
            return Some(false);
        }
    }
    values_write_as_expected(alloc, object, element_value(alloc, MAX_DEPTH), refusal)
}

/// Builds the terms, and returns whether all rows hold.
fn deep_value_rows_hold(alloc: Global) -> Option<bool> {
    let mut terms = Items::new(alloc);
    let pushed = push_row_terms(alloc, &mut terms);
    let hold = all_rows_hold(alloc, terms.as_slice(), &ROWS);
    drop(terms);
    // Checked last, so that `terms` is dropped before each `?`.
    pushed?;
    hold
}

/// Checks that a value is refused if it makes the object deeper than `MAX_DEPTH`.
#[test]
fn values_that_are_too_deep_are_refused(rt: HostRuntime) {
    assert!(rt; deep_value_rows_hold(rt.alloc()) == Some(true));
}
