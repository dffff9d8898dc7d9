//! Tests of lists that are written as strings: short lists whose elements are all bytes, the integers from 0 to 255.
ghost use Rattle.std.specs.Prelude.{◌≡◌, map};
ghost use Rattle.external_term.specs.Encoding.{encode, encode_integer, is_small, is_string as is_written_short, char_of};

use ets_term::{Integer, Term};

/// The greatest number of elements of a list that is written as a string: its length has two bytes.
const MAX_STRING: usize = 0xFFFF;

/// Returns whether the integer is a byte: from 0 to 255.
#[tactic(auto, using(crate::proofs::SmallIntegers::byte_is_small, crate::proofs::SmallIntegers::negative_not_small, crate::proofs::SmallIntegers::large_not_small))]
fn is_byte(n: Integer) -> bool
    ensures { result ≡ is_small (encode_integer n) }
{
    if n < 0 {
        return false;
    }
    if n > 255 {
        return false;
    }
    true
}

/// Returns the integer as a byte if it is from 0 to 255, else 0.
#[tactic(auto, using(crate::proofs::SmallIntegers::byte_char, crate::proofs::SmallIntegers::negative_char, crate::proofs::SmallIntegers::large_char))]
fn byte_or_zero(n: Integer) -> u8
    ensures { result ≡ char_of (encode_integer n) }
{
    if n < 0 {
        return 0;
    }
    if n > 255 {
        return 0;
    }
    n as u8
}

/// Returns whether the term is an integer from 0 to 255.
#[tactic(auto, using(crate::proofs::Encoded::tuple_not_small, crate::proofs::Encoded::list_not_small))]
fn is_byte_term(term: &Term) -> bool
    ensures { result ≡ is_small (encode term.now) }
{
    match term {
        Term::Int(n) => is_byte(*n),
        Term::Atom(_) => false,
        Term::Pid(_) => false,
        Term::Tid(_) => false,
        Term::Tuple(_) => false,
        Term::List(_) => false,
        Term::Binary(_) => false,
    }
}

/// Returns the term as a byte if it is an integer from 0 to 255, else 0.
#[tactic(auto, using(crate::proofs::Encoded::tuple_not_small, crate::proofs::Encoded::list_not_small))]
pub(crate) fn byte_of_term(term: &Term) -> u8
    ensures { result ≡ char_of (encode term.now) }
{
    match term {
        Term::Int(n) => byte_or_zero(*n),
        Term::Atom(_) => 0,
        Term::Pid(_) => 0,
        Term::Tid(_) => 0,
        Term::Tuple(_) => 0,
        Term::List(_) => 0,
        Term::Binary(_) => 0,
    }
}

/// Returns whether a list of these elements, if it is not empty, is written as STRING_EXT: whether they are few enough
/// and all bytes.
pub(crate) fn is_string(items: &[Term]) -> bool
    ensures { result ≡ is_written_short (map encode items.now) }
{
    if items.len() > MAX_STRING {
        return false;
    }
    for item in items {
        if !is_byte_term(item) {
            return false;
        }
    }
    true
}
