//! The operators `>`, `>=`, `<`, `=<`, `=:=`, `==`, `=/=` and `/=`. `=:=` and `==` agree, as do `=/=` and `/=`, because
//! the store has no floats.
ghost use Rattle.std.specs.Prelude.{◌≡◌};
ghost use Rattle.ets_term.specs.Data.{int, data_of};
ghost use Rattle.ets_term.specs.Order.{data_order};
ghost use Rattle.match_spec.specs.inside.Functions.{comparison_op_of, comparison_holds};

use ets_term::{Integer, Term};
use std::cmp::Ordering;

/// A comparison operator.
#[derive(Clone, Copy)]
pub(crate) enum ComparisonOp {
    Greater,
    GreaterOrEqual,
    Less,
    LessOrEqual,
    Equal,
    NotEqual,
}

/// Returns the comparison operator of this name, or `None` if no operator has it.
pub(crate) fn comparison_op_of(name: &str) -> Option<ComparisonOp>
    ensures { result ≡ comparison_op_of name.now }
{
    if name == ">" {
        Some(ComparisonOp::Greater)
    } else if name == ">=" {
        Some(ComparisonOp::GreaterOrEqual)
    } else if name == "<" {
        Some(ComparisonOp::Less)
    } else if name == "=<" {
        Some(ComparisonOp::LessOrEqual)
    } else if name == "=:=" || name == "==" {
        Some(ComparisonOp::Equal)
    } else if name == "=/=" || name == "/=" {
        Some(ComparisonOp::NotEqual)
    } else {
        None
    }
}

/// Checks whether the comparison holds of two terms.
pub(crate) fn comparison_holds(comparison: ComparisonOp, x: &Term, y: &Term) -> bool
    ensures { result ≡ comparison_holds comparison (data_order (data_of x.now) (data_of y.now)) }
{
    order_satisfies(comparison, x.cmp_terms(y))
}

/// Checks whether the comparison holds of two integers. Unlike `comparison_holds`, it needs no terms.
#[inline(always)]
pub(crate) fn integer_comparison_holds(comparison: ComparisonOp, m: Integer, n: Integer) -> bool
    ensures { result ≡ comparison_holds comparison (data_order (int m) (int n)) }
{
    order_satisfies(comparison, m.cmp(&n))
}

/// Checks whether the order of two terms, or of two integers, satisfies the comparison.
#[inline(always)]
fn order_satisfies(comparison: ComparisonOp, order: Ordering) -> bool
    ensures { result ≡ comparison_holds comparison order }
{
    match comparison {
        ComparisonOp::Greater => order.is_gt(),
        ComparisonOp::GreaterOrEqual => order.is_ge(),
        ComparisonOp::Less => order.is_lt(),
        ComparisonOp::LessOrEqual => order.is_le(),
        ComparisonOp::Equal => order.is_eq(),
        ComparisonOp::NotEqual => order.is_ne(),
    }
}
