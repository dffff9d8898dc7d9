//! Which terms are match specifications, by the plain reading.
use super::*;
use crate::tests::plain::clauses::parts_of;
use crate::tests::plain::functions::{is_kind_test, is_one_of};
use crate::tests::plain::matching::{Binding, bound_value, push_binding, variable_number};
use crate::tests::plain::operations::is_arithmetic_operator;

/// Functions of one or more arguments.
const VARIADIC_FUNCTIONS: [&str; 4] = ["and", "or", "andalso", "orelse"];

/// Functions of one argument, without `KIND_TESTS`.
const UNARY_FUNCTIONS: [&str; 7] = ["is_number", "not", "abs", "hd", "tl", "length", "size"];

/// Functions of two arguments, without the arithmetic operators.
const BINARY_FUNCTIONS: [&str; 10] = [
    "xor", "element", ">", ">=", "<", "=<", "=:=", "==", "=/=", "/=",
];

/// Returns whether a function of this name takes this number of arguments.
fn is_function(name: &Term, count: usize) -> bool {
    if is_one_of(name, &VARIADIC_FUNCTIONS) {
        count > 0
    } else if is_kind_test(name) || is_one_of(name, &UNARY_FUNCTIONS) {
        count == 1
    } else {
        count == 2 && (is_arithmetic_operator(name) || is_one_of(name, &BINARY_FUNCTIONS))
    }
}

/// Returns whether a term is an expression all of whose variables are in the pattern, and so in `bindings`.
#[cycle(plain_check)]
fn is_expression(term: &Term, bindings: &[Binding]) -> bool {
    match term {
        Term::Atom(_) => match variable_number(term) {
            Some(n) => bound_value(n, bindings).is_some(),
            None => true,
        },
        Term::List(items) => are_expressions(items.as_slice(), 0, bindings),
        Term::Tuple(items) => is_tuple_expression(items.as_slice(), bindings),
        _ => true,
    }
}

/// Returns whether the terms from the index `start` on are expressions.
#[cycle(plain_check)]
fn are_expressions(terms: &[Term], start: usize, bindings: &[Binding]) -> bool {
    for i in start..terms.len() {
        if !is_expression(&terms[i], bindings) {
            return false;
        }
    }
    true
}

/// Returns whether a tuple is an expression: `{{..}}` (which builds a tuple), a constant, or a function with arguments.
#[cycle(plain_check)]
fn is_tuple_expression(items: &[Term], bindings: &[Binding]) -> bool {
    if items.is_empty() {
        return false;
    }
    match &items[0] {
        Term::Tuple(parts) => {
            let parts_are_expressions = are_expressions(parts.as_slice(), 0, bindings);
            items.len() == 1 && parts_are_expressions
        }
        name => {
            let count = items.len() - 1;
            // The arguments are the items after the name.
            let arguments_fit = are_expressions(items, 1, bindings);
            (name.is_atom("const") && count == 1) || (is_function(name, count) && arguments_fit)
        }
    }
}

/// Collects the variables of a pattern in `found`, as bindings whose values are the variables themselves.
#[cycle(plain_variables)]
fn collect_variables(alloc: Global, pattern: &Term, found: &mut Vec<Binding>) {
    match pattern {
        Term::Tuple(items) => collect_all_variables(alloc, items.as_slice(), found),
        Term::List(items) => collect_all_variables(alloc, items.as_slice(), found),
        _ => {
            if let Some(n) = variable_number(pattern) {
                // The result is ignored: it is `None` only if memory runs out.
                let _pushed = push_binding(alloc, n, pattern, found);
            }
        }
    }
}

/// Collects the variables of the parts of a pattern in `found`.
#[cycle(plain_variables)]
fn collect_all_variables(alloc: Global, parts: &[Term], found: &mut Vec<Binding>) {
    for part in parts {
        collect_variables(alloc, part, found);
    }
}

/// Returns whether all conditions and all parts of a body are expressions, and the body is not empty.
fn are_conditions_and_body(conditions: &Term, body: &Term, variables: &[Binding]) -> bool {
    are_expressions(parts_of(conditions), 0, variables)
        && are_expressions(parts_of(body), 0, variables)
        && !parts_of(body).is_empty()
}

/// Returns whether a term is a clause: a pattern, which is an atom or a tuple, conditions and a body.
fn is_clause(alloc: Global, clause: &Term) -> bool {
    let [pattern, conditions, body] = parts_of(clause) else {
        return false;
    };
    let mut found = Vec::new(alloc);
    collect_variables(alloc, pattern, &mut found);
    matches!(pattern, Term::Atom(_) | Term::Tuple(_))
        && are_conditions_and_body(conditions, body, found.as_slice())
}

/// Returns whether a list of tuples is a match specification. Conditions and body of each tuple must be lists, which is
/// not checked.
pub(crate) fn is_spec(alloc: Global, spec: &Term) -> bool {
    for clause in parts_of(spec) {
        if !is_clause(alloc, clause) {
            return false;
        }
    }
    !parts_of(spec).is_empty()
}
