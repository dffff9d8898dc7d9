//! Reads decimal numbers and fixed characters.
ghost use Rattle.std.specs.Prelude.{◌≡◌, ◌+◌, ◌-◌, ◌*◌, ◌≤◌, ◌<◌, ℕ, List, true, false, get_or, length, drop, IfOk, OnErr, MatchOption};
ghost use Rattle.term_text.specs.inside.Parts.{digits_end, ReadsNumber, ReadsSigns};
ghost use Rattle.term_text.specs.Text.{is_digit, value_of_digits};

use crate::bytes::is_digit_byte;
use crate::fault::TextFault;

/// The magnitude of a number: its value without the sign.
pub type Magnitude = u128;

/// If a number is below this bound, it still fits in 64 bits after one more digit. Digits are read without a check for
/// overflow while the number is below it.
const SHORT_BOUND: u64 = u64::MAX / 10;

/// Returns the value of the digit whose ASCII code is `b`.
#[tactic(auto, unfolding(crate::specs::Text::is_digit))]
fn digit_of(b: u8) -> u64
    requires { is_digit b ≡ true }
    ensures digit { result ≡ b - 48 }
    ensures small { result ≤ 9 }
{
    (b - b'0') as u64
}

/// Appends a digit to the number, or returns `None` if the result exceeds the limit.
fn with_digit(n: Magnitude, digit: Magnitude, limit: Magnitude) -> Option<Magnitude>
    requires digit_in { digit ≤ 9 }
    requires limit_in { 9 ≤ limit }
    ensures { MatchOption result (limit < n * 10 + digit) (λ m. (m ≡ n * 10 + digit) × (m ≤ limit)) }
{
    if n > (limit - digit) / 10 {
        return None;
    }
    Some(n * 10 + digit)
}

/// Reads decimal digits from this offset on, until a byte is not a digit or the number is at least `SHORT_BOUND`. The
/// number then still fits in 64 bits. Returns the number and the offset after the digits that were read.
fn short_digits_at(text: &[u8], at: usize) -> (u64, usize)
    requires { at ≤ length text.now }
    ensures value { value_of_digits result.0 (drop result.1 text.now) ≡ value_of_digits 0 (drop at text.now) }
    ensures end { digits_end text.now result.1 ≡ digits_end text.now at }
    ensures within { result.1 ≤ length text.now }
{
    let mut n: u64 = 0;
    let mut offset = at;
    while offset < text.len() && n < SHORT_BOUND && is_digit_byte(text[offset]) {
        n = n * 10 + digit_of(text[offset]);
        offset += 1;
    }
    (n, offset)
}

/// Reads the decimal digits from this offset on. Returns the number that they write, 0 if there are no digits, and the
/// offset after them. Returns `None` if the number exceeds the limit.
#[tactic(auto, using(crate::proofs::Numbers::spelled_grows))]
pub fn digits_at(text: &[u8], at: usize, limit: Magnitude) -> Option<(Magnitude, usize)>
    requires within { at ≤ length text.now }
    requires limit_in { 9 ≤ limit }
    ensures { MatchOption result (limit < value_of_digits 0 (drop at text.now)) (λ x.
        (x.0 ≡ value_of_digits 0 (drop at text.now)) × (x.0 ≤ limit)
        × (x.1 ≡ digits_end text.now at) × (x.1 ≤ length text.now)) }
{
    // `short` is the number that the first digits write. It fits in 64 bits, and its digits end at `end`.
    let (short, end) = short_digits_at(text, at);
    let mut n = short as Magnitude;
    if n > limit {
        return None;
    }
    // Further digits follow only if the number is at least `SHORT_BOUND`. `with_digit` checks the limit.
    let mut offset = end;
    while offset < text.len() && is_digit_byte(text[offset]) {
        match with_digit(n, digit_of(text[offset]) as Magnitude, limit) {
            Some(more) => n = more,
            None => return None,
        }
        offset += 1;
    }
    Some((n, offset))
}

/// Reads the number whose digits must begin at `at`, and returns it with the offset after its digits. `start` is the
/// offset of its minus sign, or of its first digit. The fault for a number above the limit has the offset `start`.
pub(crate) fn number_at(
    text: &[u8],
    at: usize,
    start: usize,
    limit: Magnitude,
) -> Result<(Magnitude, usize), TextFault>
    requires within { at ≤ length text.now }
    requires limit_in { 9 ≤ limit }
    ensures within { IfOk result (λ x. (x.0 ≤ limit) × (at ≤ x.1) × (x.1 ≤ length text.now)) }
    ensures reads { ReadsNumber text.now at start limit result }
{
    if at >= text.len() {
        // The text ends where the first digit must be, so its term is not complete.
        return Err(TextFault::Unclosed(at));
    }
    if !is_digit_byte(text[at]) {
        return Err(TextFault::Unexpected(at));
    }
    match digits_at(text, at, limit) {
        Some(found) => Ok(found),
        None => Err(TextFault::OutOfRange(start)),
    }
}

/// Checks that the text has the characters `signs` at the offset, and returns the offset after them. Otherwise returns
/// the fault of the first byte that differs, or of the end of the text.
pub(crate) fn literal_at(text: &[u8], at: usize, signs: &[u8]) -> Result<usize, TextFault>
    requires { at ≤ length text.now }
    ensures within { IfOk result (λ n. (at ≤ n) × (n ≤ length text.now)) }
    ensures reads { ReadsSigns text.now at signs.now result }
{
    let mut offset = at;
    for sign in signs {
        if offset >= text.len() {
            return Err(TextFault::Unclosed(offset));
        }
        if text[offset] != *sign {
            return Err(TextFault::Unexpected(offset));
        }
        offset += 1;
    }
    Ok(offset)
}
