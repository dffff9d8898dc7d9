//! Reads integers.
ghost use Rattle.std.specs.Prelude.{◌≡◌, ◌≤◌, List, length, IfOk};
ghost use Rattle.term_text.specs.inside.Reader.{OpenBracket, integer, digit, reads_on, with_sign, max_magnitude};
ghost use Rattle.term_text.specs.inside.Parts.{EndsWithin, ReadsTerm};

use crate::fault::TextFault;
use crate::number::{Magnitude, number_at};
use ets_term::{Integer, Term};

/// Returns the greatest magnitude of a negative integer if `negative` is true, else of an integer that is not negative.
fn max_magnitude(negative: bool) -> Magnitude
    ensures { result ≡ max_magnitude (integer negative) }
{
    let size = Integer::MAX as Magnitude;
    // The least integer, `MIN`, is `-MAX - 1`.
    if negative { size + 1 } else { size }
}

/// Returns the integer of this magnitude and sign.
#[tactic(auto, unfolding(crate::specs::Forms::with_sign))]
fn signed_value(negative: bool, n: Magnitude) -> Integer
    requires { n ≤ max_magnitude (integer negative) }
    ensures { result ≡ with_sign negative n }
{
    if !negative {
        n as Integer
    } else if n == max_magnitude(true) {
        // This magnitude is greater than `Integer::MAX`, so it cannot be cast and then negated.
        Integer::MIN
    } else {
        -(n as Integer)
    }
}

/// Reads the integer whose digits must begin at `at`. Returns the integer and the offset after its digits. `start` is
/// the offset of its minus sign if `negative` is true, else of its first digit. The fault for an integer out of range
/// has the offset `start`.
pub(crate) fn integer_at(
    text: &[u8],
    at: usize,
    start: usize,
    negative: bool,
) -> Result<(Term, usize), TextFault>
    requires { at ≤ length text.now }
    ensures within { EndsWithin text.now at result }
    ensures reads { (os : List OpenBracket)
        → ReadsTerm text.now at (reads_on (digit (integer negative) start) os) os result }
{
    let (n, end) = number_at(text, at, start, max_magnitude(negative))?;
    Ok((Term::Int(signed_value(negative, n)), end))
}
