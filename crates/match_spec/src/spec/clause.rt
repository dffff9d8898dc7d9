//! A compiled clause of a match specification, and the first clause that applies to an object: its pattern matches, and
//! its conditions are true. The body of this clause computes the result.
ghost use Rattle.std.specs.Prelude.{◌≡◌, false, map, option_copied, IfOk};
ghost use Rattle.std.specs.Option.{option_map, option_map_or};
ghost use Rattle.ets_term.specs.Data.{data_of};
ghost use Rattle.match_spec.specs.Specifications.{is_true};
ghost use Rattle.match_spec.specs.inside.CompiledClauses.{applies, last_value_of, body_value_by, result_of_first};
ghost use Rattle.match_spec.specs.inside.CompiledExpressions.{value_data, expression_value};

use crate::expression::Expression;
use crate::expression::evaluate::{Env, ExprValue, discard, value_of};
use crate::pattern::part::{Part, fits};
use crate::spec::conditions::{all_hold, is_true};
use ets_term::{Atom, Items, Term};
use std::alloc::{AllocError, Global};

/// A compiled clause. `paths` has the first path of each variable of its pattern (MatchHead), in the order of their
/// numbers.
#[derive(Drop)]
pub(crate) struct Clause {
    pub(crate) pattern: Part,
    pub(crate) paths: Items<Items<usize>>,
    pub(crate) conditions: Items<Expression>,
    pub(crate) body: Items<Expression>,
}

/// Returns the result of the first clause that applies to the object, or `None` if none applies.
#[inline(always)]
pub(crate) fn result_of_first(
    alloc: Global,
    clauses: &[Clause],
    object: &Term,
) -> Result<Option<Term>, AllocError>
    ensures { IfOk result (λ t. option_map data_of t ≡ result_of_first clauses.now (data_of object.now)) }
{
    match first_matching_clause(alloc, clauses, object)? {
        Some(clause) => Ok(Some(body_value(alloc, clause, object)?)),
        None => Ok(None),
    }
}

/// Checks whether the result of the first clause that applies is the atom `true`. Makes no copy of the result.
pub(crate) fn first_result_is_true(
    alloc: Global,
    clauses: &[Clause],
    object: &Term,
) -> Result<bool, AllocError>
    ensures { IfOk result (λ b. b ≡ option_map_or is_true (result_of_first clauses.now (data_of object.now)) false) }
{
    match first_matching_clause(alloc, clauses, object)? {
        Some(clause) => Ok(body_is_true(alloc, clause, object)?),
        None => Ok(false),
    }
}

/// Returns the first clause that applies to the object, or `None` if none applies.
#[inline(always)]
fn first_matching_clause<'a>(
    alloc: Global,
    clauses: &'a [Clause],
    object: &Term,
) -> Result<Option<&'a Clause>, AllocError>
    ensures { IfOk result (λ c. option_map (λ clause. body_value_by clause (data_of object.now)) (option_copied c)
        ≡ result_of_first clauses.now (data_of object.now)) }
{
    for clause in clauses {
        if applies(alloc, clause, object)? {
            return Ok(Some(clause));
        }
    }
    Ok(None)
}

/// Checks whether a clause applies: its pattern matches the object, and the value of each condition is `true`.
fn applies(alloc: Global, clause: &Clause, object: &Term) -> Result<bool, AllocError>
    ensures { IfOk result (λ b. b ≡ applies clause.now (data_of object.now)) }
{
    if !fits(&clause.pattern, object, object) {
        return Ok(false);
    }
    all_hold(env_of(alloc, clause, object), clause.conditions.as_slice())
}

/// Returns the environment in which the expressions of a clause are evaluated.
fn env_of<'a>(alloc: Global, clause: &'a Clause, object: &'a Term) -> Env<'a>
    ensures paths { result.paths.now ≡ clause.now.paths }
    ensures object { result.object.now ≡ object.now }
{
    Env {
        alloc,
        paths: clause.paths.as_slice(),
        object,
    }
}

/// Returns the value of the body, or the atom `'EXIT'` if an expression fails.
#[inline(never)]
fn body_value(alloc: Global, clause: &Clause, object: &Term) -> Result<Term, AllocError>
    ensures { IfOk result (λ t. data_of t ≡ body_value_by clause.now (data_of object.now)) }
{
    match last_value(env_of(alloc, clause, object), clause.body.as_slice())? {
        Some(value) => Ok(value.into_term(alloc)?),
        None => Ok(Term::Atom(Atom::of_bytes(alloc, b"EXIT")?)),
    }
}

/// Checks whether the value of the body is the atom `true`.
#[tactic(auto, using(crate::proofs::ValueLaws::is_true_body_value))]
fn body_is_true(alloc: Global, clause: &Clause, object: &Term) -> Result<bool, AllocError>
    ensures { IfOk result (λ b. b ≡ is_true (body_value_by clause.now (data_of object.now))) }
{
    let value = last_value(env_of(alloc, clause, object), clause.body.as_slice())?;
    Ok(is_true(value))
}

/// Evaluates all expressions of a body and returns the value of the last. Returns `None` if one fails or the body is
/// empty.
fn last_value<'a>(env: Env<'a>, body: &'a [Expression]) -> Result<Option<ExprValue<'a>>, AllocError>
    ensures { IfOk result (λ v. option_map value_data v
        ≡ last_value_of (map (expression_value env.entry.paths.now) body.now) (data_of env.entry.object.now)) }
{
    for i in 0..body.len() {
        let Some(x) = value_of(env, &body[i])? else {
            return Ok(None);
        };
        if i + 1 == body.len() {
            return Ok(Some(x));
        }
        discard(x);
    }
    Ok(None)
}
