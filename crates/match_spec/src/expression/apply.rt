//! The value of a call whose arguments have values already. `hd` and `element` are computed apart from the other
//! functions, because an element of a borrowed list or tuple is borrowed too.
ghost use Rattle.std.specs.Prelude.{◌≡◌, [], ◌∷◌, IfOk};
ghost use Rattle.std.specs.Option.{option_map};
ghost use Rattle.ets_term.specs.Data.{data_of};
ghost use Rattle.match_spec.specs.Functions.{head, element};
ghost use Rattle.match_spec.specs.inside.CompiledExpressions.{value_data};
ghost use Rattle.match_spec.specs.inside.Functions.{apply};

use crate::expression::evaluate::ExprValue;
use crate::expression::function::{Function, eval_binary, eval_unary};
use crate::expression::lists::{element, head};
use ets_term::Term;
use std::alloc::{AllocError, Global};

/// Returns, as an owned value, the term that a call made, or `None` if the call failed.
fn owned_value<'a>(term: Option<Term>) -> Option<ExprValue<'a>>
    ensures { option_map value_data result ≡ option_map data_of term }
{
    match term {
        Some(term) => Some(ExprValue::Owned(term)),
        None => None,
    }
}

/// Computes a call of a function of one value. Returns `None` if the call fails.
pub(crate) fn apply_to_one<'a>(
    alloc: Global,
    function: Function,
    x: ExprValue<'a>,
) -> Result<Option<ExprValue<'a>>, AllocError>
    ensures { IfOk result (λ v. option_map value_data v ≡ apply function (value_data x.entry ∷ [])) }
{
    if let Function::Hd = function {
        return eval_hd(alloc, x);
    }
    Ok(owned_value(eval_unary(alloc, function, x.term())?))
}

/// Computes a call of a function of two values. Returns `None` if the call fails.
pub(crate) fn apply_to_two<'a>(
    alloc: Global,
    function: Function,
    x: ExprValue<'a>,
    y: ExprValue<'a>,
) -> Result<Option<ExprValue<'a>>, AllocError>
    ensures { IfOk result (λ v. option_map value_data v
        ≡ apply function (value_data x.entry ∷ value_data y.entry ∷ [])) }
{
    if let Function::Element = function {
        return eval_element(alloc, x, y);
    }
    Ok(owned_value(eval_binary(alloc, function, x.term(), y.term())?))
}

/// Computes `hd`: the first element of a list, or `None` if `x` is not a list or is empty. An element of a borrowed
/// list is borrowed, and one of an owned list is copied.
fn eval_hd<'a>(alloc: Global, x: ExprValue<'a>) -> Result<Option<ExprValue<'a>>, AllocError>
    ensures { IfOk result (λ v. option_map value_data v ≡ head (value_data x.entry)) }
{
    match x {
        ExprValue::Borrowed(list) => match head(list) {
            Some(first) => Ok(Some(ExprValue::Borrowed(first))),
            None => Ok(None),
        },
        ExprValue::Owned(list) => match head(&list) {
            Some(first) => Ok(Some(ExprValue::Owned(first.try_clone(alloc)?))),
            None => Ok(None),
        },
    }
}

/// Computes `element`: element `n` of the tuple `x`, counted from 1, or `None` if `x` has no such element. An element
/// of a borrowed tuple is borrowed, and one of an owned tuple is copied.
fn eval_element<'a>(
    alloc: Global,
    n: ExprValue<'a>,
    x: ExprValue<'a>,
) -> Result<Option<ExprValue<'a>>, AllocError>
    ensures { IfOk result (λ v. option_map value_data v ≡ element (value_data n.entry) (value_data x.entry)) }
{
    match x {
        ExprValue::Borrowed(tuple) => match element(n.term(), tuple) {
            Some(part) => Ok(Some(ExprValue::Borrowed(part))),
            None => Ok(None),
        },
        ExprValue::Owned(tuple) => match element(n.term(), &tuple) {
            Some(part) => Ok(Some(ExprValue::Owned(part.try_clone(alloc)?))),
            None => Ok(None),
        },
    }
}
