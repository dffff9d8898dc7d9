//! The values of expressions, by the plain reading. `None` means that an expression fails.
use super::*;
use crate::tests::plain::functions::{apply_function, boolean_of, boolean_term};
use crate::tests::plain::matching::{Binding, bound_value, values_in_order, variable_number};

/// Returns the value of an expression on an object, or `None` if it fails.
#[cycle(plain_value)]
pub(crate) fn expression_value(
    alloc: Global,
    expression: &Term,
    object: &Term,
    bindings: &[Binding],
) -> Option<Term> {
    match expression {
        Term::Atom(_) => atom_value(alloc, expression, object, bindings),
        Term::List(items) => {
            let values = expression_values(alloc, items.as_slice(), 0, object, bindings)?;
            Some(Term::List(values))
        }
        Term::Tuple(items) => tuple_value(alloc, items.as_slice(), object, bindings),
        _ => copy(alloc, expression),
    }
}

/// Returns the value of an atom: of a variable its binding, of `$_` the object, of `$$` all bindings, else the atom.
fn atom_value(alloc: Global, name: &Term, object: &Term, bindings: &[Binding]) -> Option<Term> {
    if let Some(n) = variable_number(name) {
        copy(alloc, bound_value(n, bindings)?)
    } else if name.is_atom("$_") {
        copy(alloc, object)
    } else if name.is_atom("$$") {
        values_in_order(alloc, bindings)
    } else {
        copy(alloc, name)
    }
}

/// Returns the values of the expressions from the index `start` on, or `None` if one fails.
#[cycle(plain_value)]
fn expression_values(
    alloc: Global,
    items: &[Term],
    start: usize,
    object: &Term,
    bindings: &[Binding],
) -> Option<Items<Term>> {
    let mut values = Items::new(alloc);
    for i in start..items.len() {
        values
            .push(expression_value(alloc, &items[i], object, bindings)?)
            .ok()?;
    }
    Some(values)
}

/// Returns the value of a tuple: `{{..}}` (which builds a tuple), a constant, or a function with arguments.
#[cycle(plain_value)]
fn tuple_value(alloc: Global, items: &[Term], object: &Term, bindings: &[Binding]) -> Option<Term> {
    if items.is_empty() {
        return None;
    }
    match &items[0] {
        Term::Tuple(parts) => {
            let values = expression_values(alloc, parts.as_slice(), 0, object, bindings)?;
            Some(Term::Tuple(values))
        }
        name => {
            if name.is_atom("const") {
                return copy(alloc, items.get(1)?);
            }
            if name.is_atom("andalso") || name.is_atom("orelse") {
                return short_circuit_value(alloc, items, name.is_atom("orelse"), object, bindings);
            }
            // The arguments are the items after the name.
            let values = expression_values(alloc, items, 1, object, bindings)?;
            apply_function(alloc, name, values.as_slice())
        }
    }
}

/// Returns the value of `orelse` if `stop` is true, else of `andalso`. The items are the name and the arguments.
/// Arguments after the first that is `stop` are not evaluated.
#[cycle(plain_value)]
fn short_circuit_value(
    alloc: Global,
    items: &[Term],
    stop: bool,
    object: &Term,
    bindings: &[Binding],
) -> Option<Term> {
    for i in 1..items.len() {
        let term = expression_value(alloc, &items[i], object, bindings)?;
        if boolean_of(&term)? == stop {
            return boolean_term(alloc, stop);
        }
    }
    boolean_term(alloc, !stop)
}
