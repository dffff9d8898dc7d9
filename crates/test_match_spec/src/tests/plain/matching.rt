//! Which terms a pattern matches, and what its variables are bound to, by the plain reading.
use super::*;

/// A variable and the term that it is bound to.
#[derive(Drop)]
pub(crate) struct Binding {
    /// The number of the variable.
    pub(crate) number: u32,
    /// A copy of the term.
    pub(crate) value: Term,
}

/// Returns the number of a variable, or `None` if the term is not a variable. The tests have only the variables `$0`,
/// `$1` and `$2`.
pub(crate) fn variable_number(term: &Term) -> Option<u32> {
    for (n, name) in [(0, "$0"), (1, "$1"), (2, "$2")] {
        if term.is_atom(name) {
            return Some(n);
        }
    }
    None
}

/// Returns the value to which a variable is bound, if it is bound.
pub(crate) fn bound_value(n: u32, bindings: &[Binding]) -> Option<&Term> {
    for binding in bindings {
        if binding.number == n {
            return Some(&binding.value);
        }
    }
    None
}

/// Returns whether a pattern matches a term, and appends the bindings of its variables. Returns false also if memory
/// runs out.
#[cycle(plain_match)]
pub(crate) fn pattern_matches(
    alloc: Global,
    pattern: &Term,
    term: &Term,
    bindings: &mut Vec<Binding>,
) -> bool {
    if let Some(n) = variable_number(pattern) {
        return bind_variable(alloc, n, term, bindings);
    }
    match (pattern, term) {
        (Term::Tuple(parts), Term::Tuple(items)) => {
            parts_match(alloc, parts.as_slice(), items.as_slice(), bindings)
        }
        (Term::List(parts), Term::List(items)) => {
            parts_match(alloc, parts.as_slice(), items.as_slice(), bindings)
        }
        _ => pattern.is_atom("_") || *pattern == *term,
    }
}

/// Returns whether the parts of a pattern match the items, one by one.
#[cycle(plain_match)]
fn parts_match(alloc: Global, parts: &[Term], items: &[Term], bindings: &mut Vec<Binding>) -> bool {
    for i in 0..parts.len() {
        let matched = match (parts.get(i), items.get(i)) {
            (Some(part), Some(item)) => pattern_matches(alloc, part, item, bindings),
            _ => false,
        };
        if !matched {
            return false;
        }
    }
    parts.len() == items.len()
}

/// Binds a variable to a copy of a term. Returns `None` if memory runs out.
pub(crate) fn push_binding(
    alloc: Global,
    n: u32,
    term: &Term,
    bindings: &mut Vec<Binding>,
) -> Option<()> {
    let value = copy(alloc, term)?;
    bindings.push(Binding { number: n, value }).ok()
}

/// Binds a variable to this term if the variable is not bound. Returns whether it is then bound to the term.
fn bind_variable(alloc: Global, n: u32, term: &Term, bindings: &mut Vec<Binding>) -> bool {
    match bound_value(n, bindings.as_slice()) {
        Some(value) => *value == *term,
        None => push_binding(alloc, n, term, bindings) == Some(()),
    }
}

/// Returns the list of the bound values, in the order of the variables.
pub(crate) fn values_in_order(alloc: Global, bindings: &[Binding]) -> Option<Term> {
    let mut values = Items::new(alloc);
    // The variables of the tests are `$0`, `$1` and `$2`.
    for n in 0..3 {
        if let Some(value) = bound_value(n, bindings) {
            values.push(copy(alloc, value)?).ok()?;
        }
    }
    Some(Term::List(values))
}

/// Returns the list of the values of a pattern's variables, or `None` if the pattern does not match the object.
pub(crate) fn bindings(alloc: Global, pattern: &Term, object: &Term) -> Option<Term> {
    let mut bindings = Vec::new(alloc);
    if !pattern_matches(alloc, pattern, object, &mut bindings) {
        return None;
    }
    values_in_order(alloc, bindings.as_slice())
}
