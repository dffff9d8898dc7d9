//! Reads integers.
ghost use Rattle.std.specs.Prelude.{◌≡◌, ◌≤◌, ◌<◌, ◌^◌, length, IfOk};
ghost use Rattle.external_term.specs.Faults.{ReturnsOrMemory};
ghost use Rattle.external_term.specs.Integers.{with_sign32, with_sign, little, max_magnitude, max_digits, small_integer_at as read_small, integer32_at as read_integer, big_at as read_big};

use crate::fault::ExternalFault;
use crate::field::{Width, number_at, piece_at};
use ets_term::{Integer, Term};

/// An integer without its sign.
pub(crate) type Magnitude = u128;

/// The greatest number of bytes of a magnitude: 128 bits.
pub(crate) const MAX_DIGITS: usize = 16;

/// Reads a SMALL_INTEGER_EXT whose tag is at the offset. Returns the integer and the offset after it.
pub(crate) fn small_integer_at(bytes: &[u8], at: usize) -> Result<(Term, usize), ExternalFault>
    requires { at < length bytes.now }
    ensures within { IfOk result (λ x. x.1 ≤ length bytes.now) }
    ensures reads { ReturnsOrMemory (read_small bytes.now at) result }
{
    let (n, end) = number_at(bytes, at + 1, Width::One)?;
    Ok((Term::Int(n as Integer), end))
}

/// Returns the integer whose 32 bits in two's complement are `n`.
fn signed32_value(n: usize) -> Integer
    requires { n < 2 ^ 32 }
    ensures { result ≡ with_sign32 n }
{
    // From 2^31 on, `n` is the integer plus 2^32, and 0xFFFF_FFFF is 2^32 - 1.
    if n < 0x8000_0000 {
        n as Integer
    } else {
        -((0xFFFF_FFFF - n) as Integer) - 1
    }
}

/// Reads an INTEGER_EXT whose tag is at the offset. Returns the integer and the offset after it.
pub(crate) fn integer_at(bytes: &[u8], at: usize) -> Result<(Term, usize), ExternalFault>
    requires { at < length bytes.now }
    ensures within { IfOk result (λ x. x.1 ≤ length bytes.now) }
    ensures reads { ReturnsOrMemory (read_integer bytes.now at) result }
{
    let (n, end) = number_at(bytes, at + 1, Width::Four)?;
    Ok((Term::Int(signed32_value(n)), end))
}

/// Returns the greatest magnitude of a negative integer if `negative` is true, else of an integer that is not negative.
fn integer_limit(negative: bool) -> Magnitude
    ensures { result ≡ max_magnitude negative }
{
    let size = Integer::MAX as Magnitude;
    // The least integer, `MIN`, is `-MAX - 1`.
    if negative { size + 1 } else { size }
}

/// Returns the integer of this magnitude and sign.
fn signed_value(negative: bool, n: Magnitude) -> Integer
    requires { n ≤ max_magnitude negative }
    ensures { result ≡ with_sign negative n }
{
    if !negative {
        n as Integer
    } else if n == integer_limit(true) {
        // This magnitude is greater than `Integer::MAX`, so it cannot be cast and then negated.
        Integer::MIN
    } else {
        -(n as Integer)
    }
}

/// Returns the number with these bytes, of which the low byte comes first.
#[tactic(auto, using(crate::proofs::Digits::little_more, crate::proofs::Digits::rest_small))]
fn little_value(digits: &[u8]) -> Magnitude
    requires { length digits.now ≤ max_digits }
    ensures { result ≡ little digits.now }
{
    let mut value: Magnitude = 0;
    // The number of bytes that are not yet in `value`. The high bytes, which come last, are read first.
    let mut left = digits.len();
    while left > 0 {
        left -= 1;
        value = value * 256 + digits[left] as Magnitude;
    }
    value
}

/// Reads a SMALL_BIG_EXT whose tag is at the offset. Returns the integer and the offset after it.
pub(crate) fn big_at(bytes: &[u8], at: usize) -> Result<(Term, usize), ExternalFault>
    requires { at < length bytes.now }
    ensures within { IfOk result (λ x. x.1 ≤ length bytes.now) }
    ensures reads { ReturnsOrMemory (read_big bytes.now at) result }
{
    // The fields are the number of bytes of the magnitude (`n`), the sign (0 if not negative), and the magnitude.
    let (n, second) = number_at(bytes, at + 1, Width::One)?;
    let (sign, third) = number_at(bytes, second, Width::One)?;
    let (start, end) = piece_at(bytes, third, n)?;
    if n > MAX_DIGITS {
        return Err(ExternalFault::BadInteger(at));
    }
    let negative = sign > 0;
    let magnitude = little_value(&bytes[start..end]);
    if magnitude > integer_limit(negative) {
        return Err(ExternalFault::BadInteger(at));
    }
    Ok((Term::Int(signed_value(negative, magnitude)), end))
}
