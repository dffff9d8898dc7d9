//! The value of an expression for an object: a part of the object or expression, which is borrowed, or a new term.
//! `None` means that the expression fails, and an error that memory ran out.
ghost use Rattle.std.specs.Prelude.{◌≡◌, [], ◌∷◌, Some, map, IfOk, IfSome};
ghost use Rattle.std.specs.Option.{option_map, option_and_then};
ghost use Rattle.ets_term.specs.Data.{data_of};
ghost use Rattle.match_spec.specs.Functions.{boolean};
ghost use Rattle.match_spec.specs.inside.CompiledExpressions.{value_data, expression_value, all_of, strict_of, apply_of, short_circuit_of};

use crate::expression::apply::{apply_to_one, apply_to_two};
use crate::expression::connectives::{combine, decides, identity_of};
use crate::expression::function::Function;
use crate::expression::guards::{boolean, truth};
use crate::expression::{Connective, Expression};
use crate::pattern::path::{clone_subterms, subterm_at};
use ets_term::{Items, Term};
use std::alloc::{AllocError, Global};

/// The environment in which expressions are evaluated: the object, and the first paths of the variables of the clause's
/// pattern. `paths` is in the order of the variables' numbers, and `alloc` is the allocator of new terms.
#[derive(Clone, Copy)]
pub(crate) struct Env<'a> {
    pub(crate) alloc: Global,
    pub(crate) paths: &'a [Items<usize>],
    pub(crate) object: &'a Term,
}

/// The value of an expression: borrowed from the object or the expression, or a new term.
#[derive(Drop)]
pub(crate) enum ExprValue<'a> {
    Borrowed(&'a Term),
    Owned(Term),
}

impl<'a> ExprValue<'a> {
    /// Returns the value as a term.
    pub(crate) fn term(&self) -> &Term
        ensures { data_of result.now ≡ value_data self.now }
    {
        match self {
            ExprValue::Borrowed(term) => term,
            ExprValue::Owned(term) => term,
        }
    }

    /// Returns the value as an owned term. If the value is borrowed, the term is a copy.
    pub(crate) fn into_term(self, alloc: Global) -> Result<Term, AllocError>
        ensures { IfOk result (λ t. data_of t ≡ value_data self.entry) }
    {
        match self {
            ExprValue::Borrowed(term) => Ok(term.try_clone(alloc)?),
            ExprValue::Owned(term) => Ok(term),
        }
    }
}

/// Returns the value of an expression if it can be borrowed from the object or the expression. Returns `None` if a new
/// term must be made.
pub(crate) fn borrowed_value<'a>(env: Env<'a>, expression: &'a Expression) -> Option<&'a Term>
    ensures { IfSome result (λ term.
        expression_value env.entry.paths.now expression.now (data_of env.entry.object.now) ≡ Some (data_of term.now)) }
{
    match expression {
        Expression::Constant(term) => Some(term),
        Expression::Object => Some(env.object),
        Expression::Variable(path) => Some(subterm_at(path.as_slice(), env.object)),
        _ => None,
    }
}

/// Returns the value of the expression, or `None` if it fails. If the value can be borrowed, does not call `evaluate`,
/// which is slower.
#[inline(always)]
pub(crate) fn value_of<'a>(
    env: Env<'a>,
    expression: &'a Expression,
) -> Result<Option<ExprValue<'a>>, AllocError>
    ensures { IfOk result (λ v. option_map value_data v
        ≡ expression_value env.entry.paths.now expression.now (data_of env.entry.object.now)) }
{
    match borrowed_value(env, expression) {
        Some(term) => Ok(Some(ExprValue::Borrowed(term))),
        None => evaluate(env, expression),
    }
}

/// Returns the value of the expression for the object, or `None` if it fails.
#[cycle(evaluate)]
pub(crate) fn evaluate<'a>(
    env: Env<'a>,
    expression: &'a Expression,
) -> Result<Option<ExprValue<'a>>, AllocError>
    ensures { IfOk result (λ v. option_map value_data v
        ≡ expression_value env.entry.paths.now expression.now (data_of env.entry.object.now)) }
{
    match expression {
        Expression::Constant(term) => Ok(Some(ExprValue::Borrowed(term))),
        Expression::Object => Ok(Some(ExprValue::Borrowed(env.object))),
        Expression::Bindings => {
            let bindings = Items::from_vec(clone_subterms(env.alloc, env.paths, env.object)?);
            Ok(Some(ExprValue::Owned(Term::List(bindings))))
        }
        Expression::Variable(path) => Ok(Some(ExprValue::Borrowed(subterm_at(
            path.as_slice(),
            env.object,
        )))),
        Expression::Tuple(parts) => match evaluate_all(env, parts.as_slice())? {
            Some(terms) => Ok(Some(ExprValue::Owned(Term::Tuple(terms)))),
            None => Ok(None),
        },
        Expression::List(parts) => match evaluate_all(env, parts.as_slice())? {
            Some(terms) => Ok(Some(ExprValue::Owned(Term::List(terms)))),
            None => Ok(None),
        },
        Expression::Apply(function, arguments) => eval_call(env, *function, arguments.as_slice()),
        Expression::Strict(connective, arguments) => {
            match eval_strict(env, *connective, arguments.as_slice())? {
                Some(b) => Ok(Some(ExprValue::Owned(truth(env.alloc, b)?))),
                None => Ok(None),
            }
        }
        Expression::ShortCircuit(connective, arguments) => eval_short_circuit(
            env,
            *connective,
            arguments.as_slice(),
        ),
    }
}

/// Returns the values of all expressions, or `None` if one fails.
#[cycle(evaluate)]
fn evaluate_all(env: Env, expressions: &[Expression]) -> Result<Option<Items<Term>>, AllocError>
    ensures { IfOk result (λ terms. option_map (map data_of) terms
        ≡ all_of (map (expression_value env.entry.paths.now) expressions.now) (data_of env.entry.object.now)) }
{
    let mut terms = Vec::with_capacity(env.alloc, expressions.len())?;
    for expression in expressions {
        match evaluate(env, expression)? {
            Some(value) => terms.push(value.into_term(env.alloc)?)?,
            None => return Ok(None),
        }
    }
    Ok(Some(Items::from_vec(terms)))
}

/// Evaluates a call of a function of one or two arguments. Returns `None` if an argument or the call fails.
#[cycle(evaluate)]
fn eval_call<'a>(
    env: Env<'a>,
    function: Function,
    arguments: &'a [Expression],
) -> Result<Option<ExprValue<'a>>, AllocError>
    ensures { IfOk result (λ v. option_map value_data v
        ≡ apply_of function (map (expression_value env.entry.paths.now) arguments.now) (data_of env.entry.object.now)) }
{
    match arguments {
        [only] => {
            let Some(x) = evaluate(env, only)? else {
                return Ok(None);
            };
            apply_to_one(env.alloc, function, x)
        }
        [first, second] => {
            let Some(x) = evaluate(env, first)? else {
                return Ok(None);
            };
            let Some(y) = evaluate(env, second)? else {
                return Ok(None);
            };
            apply_to_two(env.alloc, function, x, y)
        }
        // No function has another number of arguments.
        _ => Ok(None),
    }
}

/// Evaluates `and` or `or`: evaluates the arguments from the left, also after one that decides. Returns `None` at the
/// first argument that fails or whose value is not a boolean.
#[cycle(evaluate)]
fn eval_strict(
    env: Env,
    connective: Connective,
    arguments: &[Expression],
) -> Result<Option<bool>, AllocError>
    ensures { IfOk result (λ b. b
        ≡ strict_of connective (map (expression_value env.entry.paths.now) arguments.now)
        (data_of env.entry.object.now)) }
{
    // The truth value of the arguments so far.
    let mut all = identity_of(connective);
    for argument in arguments {
        match truth_of(evaluate(env, argument)?) {
            Some(truth) => all = combine(connective, all, truth),
            None => return Ok(None),
        }
    }
    Ok(Some(all))
}

/// Drops a value. If a loop dropped it directly, the prover would repeat the cases of the drop in each later goal.
pub(crate) fn discard(_value: ExprValue) {}

/// Returns the value as a boolean, or `None` if there is no value or it is not a boolean.
fn truth_of(value: Option<ExprValue>) -> Option<bool>
    ensures { result ≡ option_and_then boolean (option_map value_data value.entry) }
{
    match value {
        Some(value) => boolean(value.term()),
        None => None,
    }
}

/// Evaluates `andalso` or `orelse`: evaluates arguments from the left, up to the first that decides. Returns the value
/// of the last evaluated argument. Returns `None` if an evaluated argument fails or its value is not a boolean.
#[cycle(evaluate)]
fn eval_short_circuit<'a>(
    env: Env<'a>,
    connective: Connective,
    arguments: &'a [Expression],
) -> Result<Option<ExprValue<'a>>, AllocError>
    ensures { IfOk result (λ v. option_map value_data v
        ≡ short_circuit_of connective (map (expression_value env.entry.paths.now) arguments.now)
        (data_of env.entry.object.now)) }
{
    for i in 0..arguments.len() {
        let Some(x) = evaluate(env, &arguments[i])? else {
            return Ok(None);
        };
        let Some(truth) = boolean(x.term()) else {
            return Ok(None);
        };
        if decides(connective, truth) || i + 1 == arguments.len() {
            return Ok(Some(x));
        }
        discard(x);
    }
    // There are no arguments, which the check of the expression refuses.
    Ok(None)
}
