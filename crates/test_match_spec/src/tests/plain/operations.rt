//! The values of arithmetic and comparison operators, by the plain reading.
use super::*;
use crate::tests::plain::functions::is_one_of;

/// The arithmetic operators.
const ARITHMETIC_OPERATORS: [&str; 5] = ["+", "-", "*", "div", "rem"];

/// Returns whether an atom is the name of an arithmetic operator.
pub(crate) fn is_arithmetic_operator(name: &Term) -> bool {
    is_one_of(name, &ARITHMETIC_OPERATORS)
}

/// Returns the sum, or `None` if it overflows. A sum that wraps is on the wrong side of `m` for the sign of `n`.
fn sum(m: Integer, n: Integer) -> Option<Integer> {
    let sum = m.wrapping_add(n);
    if (sum < m) == (n < 0) {
        Some(sum)
    } else {
        None
    }
}

/// Returns the difference, or `None` if it overflows. A difference that wraps is on the wrong side of `m` for the sign
/// of `n`.
pub(crate) fn difference(m: Integer, n: Integer) -> Option<Integer> {
    let difference = m.wrapping_sub(n);
    if (difference < m) == (n > 0) {
        Some(difference)
    } else {
        None
    }
}

/// Returns the product, or `None` if it overflows. A product that wraps, divided by `m`, does not give `n`.
fn product(m: Integer, n: Integer) -> Option<Integer> {
    let product = m.wrapping_mul(n);
    if m == 0 || product.checked_div(m) == Some(n) {
        Some(product)
    } else {
        None
    }
}

/// Returns the remainder, or `None` if `n` is 0. The remainder by -1 is 0 for every number, also for the least one,
/// whose quotient overflows.
fn remainder(m: Integer, n: Integer) -> Option<Integer> {
    if n == -1 { Some(0) } else { m.checked_rem(n) }
}

/// Returns the value of an arithmetic operator, or `None` if it overflows or divides by 0. Any name other than `+`,
/// `-`, `*` and `div` is taken for `rem`.
pub(crate) fn calculate(name: &Term, m: Integer, n: Integer) -> Option<Integer> {
    if name.is_atom("+") {
        sum(m, n)
    } else if name.is_atom("-") {
        difference(m, n)
    } else if name.is_atom("*") {
        product(m, n)
    } else if name.is_atom("div") {
        m.checked_div(n)
    } else {
        remainder(m, n)
    }
}

/// Returns the value of a comparison, or `None` if no comparison has this name.
pub(crate) fn compare_terms(name: &Term, x: &Term, y: &Term) -> Option<bool> {
    if is_one_of(name, &["=:=", "=="]) {
        Some(*x == *y)
    } else if is_one_of(name, &["=/=", "/="]) {
        Some(*x != *y)
    } else if name.is_atom(">") {
        Some(*x > *y)
    } else if name.is_atom(">=") {
        Some(*x >= *y)
    } else if name.is_atom("<") {
        Some(*x < *y)
    } else if name.is_atom("=<") {
        Some(*x <= *y)
    } else {
        None
    }
}
