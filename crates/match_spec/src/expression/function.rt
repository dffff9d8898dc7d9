//! The calls that an expression can make: found by name and number of arguments, and computed from the values of the
//! arguments. `hd` and `element` are computed in `apply`, because their values can be borrowed.
ghost use Rattle.std.specs.Prelude.{◌≡◌, ◌≢◌, [], ◌∷◌, IfOk};
ghost use Rattle.std.specs.Option.{option_map};
ghost use Rattle.ets_term.specs.Data.{data_of};
ghost use Rattle.match_spec.specs.inside.Functions.{function_of, unary_function_of, binary_function_of, strict_connective, short_circuit_connective, apply};

use crate::expression::Connective;
use crate::expression::arithmetic::{
    ArithmeticOp, absolute_value, arithmetic_op_of, eval_arithmetic,
};
use crate::expression::comparison::{ComparisonOp, comparison_holds, comparison_op_of};
use crate::expression::guards::{GuardKind, boolean, guard_kind_of, is_kind, truth, xor};
use crate::expression::lists::{list_length, size, tail};
use ets_term::Term;
use std::alloc::{AllocError, Global};

/// A function that is computed from the values of its arguments. `and`, `or`, `andalso` and `orelse` are connectives.
#[derive(Clone, Copy)]
pub(crate) enum Function {
    /// A guard that tests the kind of a term, such as `is_atom`.
    TypeTest(GuardKind),
    Not,
    Abs,
    Hd,
    Tl,
    Length,
    Size,
    Xor,
    Element,
    /// An arithmetic operator, such as `+`.
    Calculate(ArithmeticOp),
    /// A comparison operator, such as `=<`.
    Compare(ComparisonOp),
}

/// Returns the function of this name and number of arguments, or `None` if no function has them.
pub(crate) fn function_of(name: &str, count: usize) -> Option<Function>
    ensures { result ≡ function_of name.now count }
{
    match count {
        1 => unary_function_of(name),
        2 => binary_function_of(name),
        _ => None,
    }
}

/// Returns the function of one argument with this name, or `None` if no such function has this name.
fn unary_function_of(name: &str) -> Option<Function>
    ensures { result ≡ unary_function_of name.now }
{
    if let Some(kind) = guard_kind_of(name) {
        Some(Function::TypeTest(kind))
    } else if name == "not" {
        Some(Function::Not)
    } else if name == "abs" {
        Some(Function::Abs)
    } else if name == "hd" {
        Some(Function::Hd)
    } else if name == "tl" {
        Some(Function::Tl)
    } else if name == "length" {
        Some(Function::Length)
    } else if name == "size" {
        Some(Function::Size)
    } else {
        None
    }
}

/// Returns the function of two arguments with this name, or `None` if no such function has this name.
fn binary_function_of(name: &str) -> Option<Function>
    ensures { result ≡ binary_function_of name.now }
{
    if let Some(comparison) = comparison_op_of(name) {
        Some(Function::Compare(comparison))
    } else if let Some(operation) = arithmetic_op_of(name) {
        Some(Function::Calculate(operation))
    } else if name == "xor" {
        Some(Function::Xor)
    } else if name == "element" {
        Some(Function::Element)
    } else {
        None
    }
}

/// Returns the connective of `and` or `or`, which evaluate arguments also after one that decides. Returns `None` for
/// any other name.
pub(crate) fn strict_connective(name: &str) -> Option<Connective>
    ensures { result ≡ strict_connective name.now }
{
    if name == "and" {
        Some(Connective::And)
    } else if name == "or" {
        Some(Connective::Or)
    } else {
        None
    }
}

/// Returns the connective of `andalso` or `orelse`, which stop at the first argument that decides. Returns `None` for
/// any other name.
pub(crate) fn short_circuit_connective(name: &str) -> Option<Connective>
    ensures { result ≡ short_circuit_connective name.now }
{
    if name == "andalso" {
        Some(Connective::And)
    } else if name == "orelse" {
        Some(Connective::Or)
    } else {
        None
    }
}

/// Computes a function of one argument, except `hd`, whose value is an element of the argument. Returns `None` if the
/// call fails.
pub(crate) fn eval_unary(
    alloc: Global,
    function: Function,
    x: &Term,
) -> Result<Option<Term>, AllocError>
    requires { function ≢ Function.Hd }
    ensures { IfOk result (λ t. option_map data_of t ≡ apply function (data_of x.now ∷ [])) }
{
    match function {
        Function::TypeTest(kind) => Ok(Some(truth(alloc, is_kind(kind, x))?)),
        Function::Not => match boolean(x) {
            Some(b) => Ok(Some(truth(alloc, !b)?)),
            None => Ok(None),
        },
        Function::Abs => Ok(absolute_value(x)),
        Function::Tl => tail(alloc, x),
        Function::Length => Ok(list_length(x)),
        Function::Size => Ok(size(x)),
        _ => Ok(None),
    }
}

/// Computes a function of two arguments, except `element`, whose value is an element of an argument. Returns `None` if
/// the call fails.
pub(crate) fn eval_binary(
    alloc: Global,
    function: Function,
    x: &Term,
    y: &Term,
) -> Result<Option<Term>, AllocError>
    requires { function ≢ Function.Element }
    ensures { IfOk result (λ t. option_map data_of t ≡ apply function (data_of x.now ∷ data_of y.now ∷ [])) }
{
    match function {
        Function::Xor => match xor(boolean(x), boolean(y)) {
            Some(b) => Ok(Some(truth(alloc, b)?)),
            None => Ok(None),
        },
        Function::Calculate(operation) => Ok(eval_arithmetic(operation, x, y)),
        Function::Compare(comparison) => Ok(Some(truth(
            alloc,
            comparison_holds(comparison, x, y),
        )?)),
        _ => Ok(None),
    }
}
