//! Compiles the checked raw term of an expression to a tree that is evaluated. A variable becomes the path (element
//! indices) of its value in the object.
ghost use Rattle.std.specs.Prelude.{◌≡◌, drop, length, map, IfOk};
ghost use Rattle.ets_term.specs.Data.{tuple, data_of, data_list};
ghost use Rattle.match_spec.specs.Variables.{variable};
ghost use Rattle.match_spec.specs.inside.CompiledExpressions.{expression_of, expressions_of, name_expression, constant_else, call_expression};

use crate::expression::Expression;
use crate::expression::function::{function_of, short_circuit_connective, strict_connective};
use crate::pattern::path::{FirstPaths, first_path};
use crate::variable::variable;
use ets_term::{Atom, Items, Term};
use std::alloc::{AllocError, Global};

/// Compiles the raw term of an expression, which the caller has checked. `first` has the first paths of the variables
/// of the clause's pattern.
#[cycle(expression)]
#[tactic(auto, using(ets_term::specs::laws::Exact::back))]
pub(crate) fn expression_of(
    alloc: Global,
    term: &Term,
    first: &FirstPaths,
) -> Result<Expression, AllocError>
    ensures { IfOk result (λ e. e ≡ expression_of first.now.entries (data_of term.now)) }
{
    match term {
        Term::Atom(name) => name_expression(alloc, name, first),
        Term::Tuple(items) => tuple_expression(alloc, items.as_slice(), first),
        Term::List(items) => Ok(Expression::List(expressions_of(
            alloc,
            items.as_slice(),
            0,
            first,
        )?)),
        Term::Int(_) => Ok(Expression::Constant(term.try_clone(alloc)?)),
        Term::Pid(_) => Ok(Expression::Constant(term.try_clone(alloc)?)),
        Term::Tid(_) => Ok(Expression::Constant(term.try_clone(alloc)?)),
        Term::Binary(_) => Ok(Expression::Constant(term.try_clone(alloc)?)),
    }
}

/// Compiles the terms from index `start` on.
#[cycle(expression)]
pub(crate) fn expressions_of(
    alloc: Global,
    terms: &[Term],
    start: usize,
    first: &FirstPaths,
) -> Result<Items<Expression>, AllocError>
    ensures { IfOk result (λ es. es ≡ expressions_of first.now.entries (data_list (map data_of (drop start terms.now)))) }
{
    let mut compiled = Vec::new(alloc);
    for i in start..terms.len() {
        compiled.push(expression_of(alloc, &terms[i], first)?)?;
    }
    Ok(Items::from_vec(compiled))
}

/// Compiles a tuple: `{{..}}` makes a tuple, and any other tuple is a call. For a tuple that is not an expression the
/// result is `Object`, which is never evaluated. The check refuses such a tuple, except inside the argument of `const`,
/// whose compiled form is dropped.
#[cycle(expression)]
fn tuple_expression(
    alloc: Global,
    terms: &[Term],
    first: &FirstPaths,
) -> Result<Expression, AllocError>
    ensures { IfOk result (λ e. e ≡ expression_of first.now.entries (tuple (data_list (map data_of terms.now)))) }
{
    if terms.is_empty() {
        return Ok(Expression::Object);
    }
    match &terms[0] {
        Term::Tuple(parts) => {
            if terms.len() == 1 {
                Ok(Expression::Tuple(expressions_of(alloc, parts.as_slice(), 0, first)?))
            } else {
                Ok(Expression::Object)
            }
        }
        Term::Atom(name) => {
            let compiled = expressions_of(alloc, terms, 1, first)?;
            application(alloc, name.text(), &terms[1..], compiled)
        }
        _ => Ok(Expression::Object),
    }
}

/// Compiles an atom: a variable, `$_` for the object, `$$` for the list of all bindings, or the atom itself.
fn name_expression(alloc: Global, name: &Atom, first: &FirstPaths) -> Result<Expression, AllocError>
    ensures { IfOk result (λ e. e ≡ name_expression first.now.entries name.now (variable name.now)) }
{
    let text = name.text();
    if let Some(number) = variable(text.as_bytes()) {
        return Ok(Expression::Variable(Items::from_vec(first_path(first, number).to_vec(alloc)?)));
    }
    if text == "$_" {
        return Ok(Expression::Object);
    }
    if text == "$$" {
        return Ok(Expression::Bindings);
    }
    Ok(Expression::Constant(Term::Atom(name.try_clone(alloc)?)))
}

/// Compiles a call. `arguments` are its raw arguments, and `compiled` the compiled ones. The value of `const` is its
/// raw argument; other calls use the compiled arguments.
fn application(
    alloc: Global,
    name: &str,
    arguments: &[Term],
    compiled: Items<Expression>,
) -> Result<Expression, AllocError>
    ensures { IfOk result (λ e. e
        ≡ constant_else name.now (data_list (map data_of arguments.now))
        (call_expression name.now (length arguments.now) compiled)) }
{
    if arguments.len() == 1 && name == "const" {
        return Ok(Expression::Constant(arguments[0].try_clone(alloc)?));
    }
    Ok(call_expression(name, arguments.len(), compiled))
}

/// Returns the call of the function or connective with this name. `count` is the number of its arguments, and
/// `compiled` has their compiled forms.
fn call_expression(name: &str, count: usize, compiled: Items<Expression>) -> Expression
    ensures { result ≡ call_expression name.now count compiled }
{
    if let Some(connective) = short_circuit_connective(name) {
        return Expression::ShortCircuit(connective, compiled);
    }
    if let Some(connective) = strict_connective(name) {
        return Expression::Strict(connective, compiled);
    }
    match function_of(name, count) {
        Some(function) => Expression::Apply(function, compiled),
        // The call is not an expression. As in `tuple_expression`, the result is never evaluated.
        None => Expression::Object,
    }
}
