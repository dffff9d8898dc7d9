//! The result of a match specification on an object, by the plain reading.
use super::*;
use crate::tests::plain::matching::{Binding, pattern_matches};
use crate::tests::plain::values::expression_value;

/// Returns the elements of a tuple or the items of a list. Other terms have none.
pub(crate) fn parts_of(term: &Term) -> &[Term] {
    match term {
        Term::Tuple(items) => items.as_slice(),
        Term::List(items) => items.as_slice(),
        _ => &[],
    }
}

/// Returns whether the value of a condition is `true`. A condition that fails is not true.
fn condition_is_true(alloc: Global, condition: &Term, object: &Term, bindings: &[Binding]) -> bool {
    match expression_value(alloc, condition, object, bindings) {
        Some(term) => term.is_atom("true"),
        None => false,
    }
}

/// Returns whether all conditions of a clause are true.
fn conditions_are_true(
    alloc: Global,
    conditions: &[Term],
    object: &Term,
    bindings: &[Binding],
) -> bool {
    for condition in conditions {
        if !condition_is_true(alloc, condition, object, bindings) {
            return false;
        }
    }
    true
}

/// Returns the value of the last expression of a body, or `None` if one of the expressions fails.
fn last_value(alloc: Global, body: &[Term], object: &Term, bindings: &[Binding]) -> Option<Term> {
    // Replaced by the first value, because a body is not empty.
    let mut last = Term::default();
    for expression in body {
        last = expression_value(alloc, expression, object, bindings)?;
    }
    Some(last)
}

/// Returns the result of a clause, or `None` if its pattern does not match or a condition is not true. A body that
/// fails gives `'EXIT'`.
fn clause_result(alloc: Global, clause: &Term, object: &Term) -> Option<Term> {
    let [pattern, conditions, body] = parts_of(clause) else {
        return None;
    };
    let mut bindings = Vec::new(alloc);
    if !pattern_matches(alloc, pattern, object, &mut bindings)
        || !conditions_are_true(alloc, parts_of(conditions), object, bindings.as_slice())
    {
        return None;
    }
    match last_value(alloc, parts_of(body), object, bindings.as_slice()) {
        Some(last) => Some(last),
        None => atom(alloc, "EXIT"),
    }
}

/// Returns the result of the first clause that has one, or `None` if no clause has one.
pub(crate) fn result(alloc: Global, spec: &Term, object: &Term) -> Option<Term> {
    for clause in parts_of(spec) {
        if let Some(result) = clause_result(alloc, clause, object) {
            return Some(result);
        }
    }
    None
}
