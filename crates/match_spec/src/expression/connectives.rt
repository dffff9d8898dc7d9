//! The logic of `and`, `or`, `andalso` and `orelse` on values of type `bool`. The order in which arguments are
//! evaluated is in `evaluate`.
ghost use Rattle.std.specs.Prelude.{◌≡◌};
ghost use Rattle.match_spec.specs.inside.Functions.{neutral, combine, decides};

use crate::expression::Connective;

/// Returns the identity of a connective, which changes no value when combined: true for `and`, false for `or`.
pub(crate) fn identity_of(connective: Connective) -> bool
    ensures { result ≡ neutral connective }
{
    match connective {
        Connective::And => true,
        Connective::Or => false,
    }
}

/// Combines `x`, the truth value of the arguments so far, with `y`, that of the next argument.
pub(crate) fn combine(connective: Connective, x: bool, y: bool) -> bool
    ensures { result ≡ combine connective x y }
{
    match connective {
        Connective::And => x && y,
        Connective::Or => x || y,
    }
}

/// Checks whether an argument with this truth value decides the value of `andalso` (`And`) or `orelse` (`Or`), so that
/// the later arguments are not evaluated.
pub(crate) fn decides(connective: Connective, truth: bool) -> bool
    ensures { result ≡ decides connective truth }
{
    match connective {
        Connective::And => !truth,
        Connective::Or => truth,
    }
}
