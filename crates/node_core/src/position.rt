//! The position in a tuple that an argument of a call names.
ghost use Rattle.std.specs.Prelude.{◌≡◌};
ghost use Rattle.ets_term.specs.Views.{as_natural};

use ets_term::{Position, Term};

/// Returns the position in a tuple that a term gives: an integer that is not negative. Returns `None` for any other
/// term. Positions count from 1, so no tuple has an element at 0.
pub fn position_of(term: &Term) -> Option<Position>
    ensures { result ≡ as_natural term.now }
{
    match term {
        Term::Int(n) if *n >= 0 => Some(*n as Position),
        _ => None,
    }
}
