//! The operators `+`, `-`, `*`, `div` and `rem`, and `abs`. The Rust functions here return `None` where the call fails.
//! A call also fails if the result does not fit 128 bits, because integers of this store are bounded.
ghost use Rattle.std.specs.Prelude.{◌≡◌};
ghost use Rattle.std.specs.Option.{option_map};
ghost use Rattle.ets_term.specs.Data.{int, data_of};
ghost use Rattle.match_spec.specs.Functions.{absolute, count};
ghost use Rattle.match_spec.specs.inside.Functions.{arithmetic_op_of, calculate, eval_arithmetic};

use ets_term::{Integer, Term};

/// An arithmetic operator on two integers.
#[derive(Clone, Copy)]
pub(crate) enum ArithmeticOp {
    Add,
    Subtract,
    Multiply,
    /// `div`, which rounds toward 0.
    Divide,
    /// `rem`, which has the sign of the dividend.
    Remainder,
}

/// Returns the operator of this name, or `None` if no operator has it.
pub(crate) fn arithmetic_op_of(name: &str) -> Option<ArithmeticOp>
    ensures { result ≡ arithmetic_op_of name.now }
{
    if name == "+" {
        Some(ArithmeticOp::Add)
    } else if name == "-" {
        Some(ArithmeticOp::Subtract)
    } else if name == "*" {
        Some(ArithmeticOp::Multiply)
    } else if name == "div" {
        Some(ArithmeticOp::Divide)
    } else if name == "rem" {
        Some(ArithmeticOp::Remainder)
    } else {
        None
    }
}

/// Applies the operator to two integers. Returns `None` if a term is not an integer, the divisor is 0, or the result is
/// out of range.
pub(crate) fn eval_arithmetic(operation: ArithmeticOp, x: &Term, y: &Term) -> Option<Term>
    ensures { option_map data_of result ≡ eval_arithmetic operation (data_of x.now) (data_of y.now) }
{
    match (x, y) {
        (Term::Int(m), Term::Int(n)) => number(calculate(operation, *m, *n)),
        _ => None,
    }
}

/// Computes the result of the operator for two integers. Returns `None` if it is out of range or the divisor is 0.
fn calculate(operation: ArithmeticOp, m: Integer, n: Integer) -> Option<Integer>
    ensures { result ≡ calculate operation m n }
{
    match operation {
        ArithmeticOp::Add => m.checked_add(n),
        ArithmeticOp::Subtract => m.checked_sub(n),
        ArithmeticOp::Multiply => m.checked_mul(n),
        ArithmeticOp::Divide => m.checked_div(n),
        ArithmeticOp::Remainder => remainder(m, n),
    }
}

/// Returns the remainder, or `None` if `n` is 0. If `n` is -1, returns 0 without `checked_rem`, which returns `None` if
/// `m` is the least integer.
fn remainder(m: Integer, n: Integer) -> Option<Integer>
    ensures { result ≡ calculate ArithmeticOp.Remainder m n }
{
    if n == -1 {
        return Some(0);
    }
    m.checked_rem(n)
}

/// Returns the absolute value of an integer. Returns `None` if the term is not an integer, or the value is out of
/// range.
pub(crate) fn absolute_value(x: &Term) -> Option<Term>
    ensures { option_map data_of result ≡ absolute (data_of x.now) }
{
    match x {
        Term::Int(n) => number(n.checked_abs()),
        _ => None,
    }
}

/// Returns a count as an integer term. It would be `None` if the count did not fit 128 bits, but a `usize` always fits.
pub(crate) fn count_term(n: usize) -> Option<Term>
    ensures { option_map data_of result ≡ count n }
{
    match Integer::try_from(n) {
        Ok(n) => Some(Term::Int(n)),
        Err(_) => None,
    }
}

/// Returns the integer as a term, or `None` if the computation of the integer failed.
fn number(n: Option<Integer>) -> Option<Term>
    ensures { option_map data_of result ≡ option_map int n }
{
    match n {
        Some(n) => Some(Term::Int(n)),
        None => None,
    }
}
