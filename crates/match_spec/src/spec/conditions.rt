//! The test of a clause's conditions (guards) on an object. This test is apart from `evaluate`, because a comparison in
//! a condition needs no atom for its truth value.
ghost use Rattle.std.specs.Prelude.{◌≡◌, [], ◌∷◌, false, map, IfOk};
ghost use Rattle.std.specs.Option.{option_map, option_map_or};
ghost use Rattle.ets_term.specs.Data.{data_of};
ghost use Rattle.match_spec.specs.inside.Functions.{apply};
ghost use Rattle.match_spec.specs.Specifications.{is_true};
ghost use Rattle.match_spec.specs.inside.CompiledClauses.{all_hold_of};
ghost use Rattle.match_spec.specs.inside.CompiledExpressions.{value_data, apply_of, expression_value};

use crate::expression::Expression;
use crate::expression::apply::apply_to_two;
use crate::expression::comparison::comparison_holds;
use crate::expression::evaluate::{Env, ExprValue, borrowed_value, evaluate, value_of};
use crate::expression::function::Function;
use ets_term::Term;
use std::alloc::{AllocError, Global};

/// Checks whether the value of each condition is `true`.
pub(crate) fn all_hold(env: Env, conditions: &[Expression]) -> Result<bool, AllocError>
    ensures { IfOk result (λ b. b
        ≡ all_hold_of (map (expression_value env.entry.paths.now) conditions.now) (data_of env.entry.object.now)) }
{
    for condition in conditions {
        if !condition_holds(env, condition)? {
            return Ok(false);
        }
    }
    Ok(true)
}

/// Checks whether the value of a condition is `true`. For a comparison, makes no atom.
#[tactic(auto, using(crate::proofs::ValueLaws::expression_value_of_two))]
fn condition_holds(env: Env, condition: &Expression) -> Result<bool, AllocError>
    ensures { IfOk result (λ b. b
        ≡ option_map_or is_true
        (expression_value env.entry.paths.now condition.now (data_of env.entry.object.now)) false) }
{
    if let Expression::Apply(function, arguments) = condition {
        if let [first, second] = arguments.as_slice() {
            return binary_condition_holds(env, *function, first, second);
        }
    }
    general_condition_holds(env, condition)
}

/// Checks a condition of any form, by its evaluation. The function is not inlined, so that the code for a comparison
/// has no value to drop.
#[inline(never)]
fn general_condition_holds(env: Env, condition: &Expression) -> Result<bool, AllocError>
    ensures { IfOk result (λ b. b
        ≡ option_map_or is_true
        (expression_value env.entry.paths.now condition.now (data_of env.entry.object.now)) false) }
{
    Ok(is_true(evaluate(env, condition)?))
}

/// Checks a condition that is a function of two operands. Operands that can be borrowed are compared in place.
#[tactic(auto, using(crate::proofs::ValueLaws::is_true_truth))]
fn binary_condition_holds(
    env: Env,
    function: Function,
    first: &Expression,
    second: &Expression,
) -> Result<bool, AllocError>
    ensures { IfOk result (λ b. b
        ≡ option_map_or is_true (apply_of function
        (expression_value env.entry.paths.now first.now ∷ expression_value env.entry.paths.now second.now ∷ [])
        (data_of env.entry.object.now)) false) }
{
    if let Function::Compare(comparison) = function {
        if let (Some(x), Some(y)) = (borrowed_value(env, first), borrowed_value(env, second)) {
            return Ok(comparison_holds(comparison, x, y));
        }
    }
    owned_condition_holds(env, function, first, second)
}

/// Checks a condition with an operand that may be a new term. The function is not inlined, so that the code for
/// borrowed operands has no value to drop.
#[inline(never)]
fn owned_condition_holds(
    env: Env,
    function: Function,
    first: &Expression,
    second: &Expression,
) -> Result<bool, AllocError>
    ensures { IfOk result (λ b. b
        ≡ option_map_or is_true (apply_of function
        (expression_value env.entry.paths.now first.now ∷ expression_value env.entry.paths.now second.now ∷ [])
        (data_of env.entry.object.now)) false) }
{
    let Some(x) = value_of(env, first)? else {
        return Ok(false);
    };
    let Some(y) = value_of(env, second)? else {
        return Ok(false);
    };
    condition_of_values_holds(env.alloc, function, x, y)
}

/// Checks whether the value of a function of these two values is `true`.
#[tactic(auto, using(crate::proofs::ValueLaws::is_true_truth))]
fn condition_of_values_holds(
    alloc: Global,
    function: Function,
    x: ExprValue,
    y: ExprValue,
) -> Result<bool, AllocError>
    ensures { IfOk result (λ b. b
        ≡ option_map_or is_true (apply function (value_data x.entry ∷ value_data y.entry ∷ [])) false) }
{
    if let Function::Compare(comparison) = function {
        return Ok(comparison_holds(comparison, x.term(), y.term()));
    }
    Ok(is_true(apply_to_two(alloc, function, x, y)?))
}

/// Checks whether the value is the atom `true`. `None` is the value of an expression that failed.
pub(crate) fn is_true(value: Option<ExprValue>) -> bool
    ensures { result ≡ option_map_or is_true (option_map value_data value.entry) false }
{
    match value {
        Some(value) => is_true_atom(value.term()),
        None => false,
    }
}

/// Checks whether a term is the atom `true`.
fn is_true_atom(term: &Term) -> bool
    ensures { result ≡ is_true (data_of term.now) }
{
    match term {
        Term::Atom(name) => name.text() == "true",
        _ => false,
    }
}
