//! The check of an expression before it is compiled: the clause's pattern has its variables, and its calls have known
//! names and numbers of arguments.
ghost use Rattle.std.specs.Prelude.{◌≡◌, ◌&&◌, ◌||◌, drop, map};
ghost use Rattle.ets_term.specs.Data.{tuple, data_of, data_list};
ghost use Rattle.match_spec.specs.Expressions.{is_expression, are_expressions, is_constant, is_bound};
ghost use Rattle.match_spec.specs.inside.Functions.{is_function};
ghost use Rattle.match_spec.specs.inside.FirstPaths.{numbers_of};

use crate::expression::function::{function_of, short_circuit_connective, strict_connective};
use crate::pattern::path::FirstPaths;
use crate::variable::variable;
use ets_term::Term;

/// Checks whether the term is an expression. It may use only the variables in `bound_variables`, which the pattern of
/// the clause binds.
#[cycle(checked)]
pub(crate) fn is_expression(term: &Term, bound_variables: &FirstPaths) -> bool
    ensures { result ≡ is_expression (numbers_of bound_variables.now.entries) (data_of term.now) }
{
    match term {
        Term::Atom(name) => is_bound(variable(name.text().as_bytes()), bound_variables),
        Term::List(items) => are_expressions(items.as_slice(), 0, bound_variables),
        Term::Tuple(items) => is_tuple_expression(items.as_slice(), bound_variables),
        _ => true,
    }
}

/// Checks whether the pattern of the clause binds this variable. `None` means that the name is not a variable; the
/// result is then `true`.
#[tactic(auto, using(crate::proofs::PathLaws::is_bound_lookup))]
fn is_bound(number: Option<u32>, bound_variables: &FirstPaths) -> bool
    ensures { result ≡ is_bound (numbers_of bound_variables.now.entries) number }
{
    match number {
        Some(number) => bound_variables.contains_key(&number),
        None => true,
    }
}

/// Checks whether the terms from index `start` on are expressions.
#[cycle(checked)]
pub(crate) fn are_expressions(terms: &[Term], start: usize, bound_variables: &FirstPaths) -> bool
    ensures { result ≡ are_expressions (numbers_of bound_variables.now.entries) (data_list (map data_of (drop start terms.now))) }
{
    for i in start..terms.len() {
        if !is_expression(&terms[i], bound_variables) {
            return false;
        }
    }
    true
}

/// Checks whether a tuple of these elements is an expression: `{{..}}`, `{const,T}` or a call. It may use only the
/// variables of the clause's pattern.
#[cycle(checked)]
fn is_tuple_expression(terms: &[Term], bound_variables: &FirstPaths) -> bool
    ensures { result ≡ is_expression (numbers_of bound_variables.now.entries) (tuple (data_list (map data_of terms.now))) }
{
    if terms.is_empty() {
        return false;
    }
    match &terms[0] {
        Term::Tuple(parts) => {
            if terms.len() == 1 {
                are_expressions(parts.as_slice(), 0, bound_variables)
            } else {
                false
            }
        }
        Term::Atom(name) => {
            let count = terms.len() - 1;
            let arguments_are_expressions = are_expressions(terms, 1, bound_variables);
            is_application(name.text(), count, arguments_are_expressions)
        }
        _ => false,
    }
}

/// Checks whether a name with `count` arguments is a call: `const`, or a function whose arguments are expressions.
fn is_application(name: &str, count: usize, arguments_are_expressions: bool) -> bool
    ensures { result ≡ (is_constant name.now count
        || (is_function name.now count && arguments_are_expressions)) }
{
    is_constant(name, count) || (is_function(name, count) && arguments_are_expressions)
}

/// Checks whether the name and the number of arguments are those of `{const,T}`.
fn is_constant(name: &str, count: usize) -> bool
    ensures { result ≡ is_constant name.now count }
{
    count == 1 && name == "const"
}

/// Checks whether there is a function or connective of this name with `count` arguments. A connective takes one
/// argument or more.
fn is_function(name: &str, count: usize) -> bool
    ensures { result ≡ is_function name.now count }
{
    ((short_circuit_connective(name).is_some() || strict_connective(name).is_some()) && count > 0)
        || function_of(name, count).is_some()
}
