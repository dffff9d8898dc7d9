//! Computes the numbers of bytes of written terms.
ghost use Rattle.std.specs.Prelude.{◌≡◌, ◌≤◌, ◌<◌, ◌^◌, length, map, min, pos, negsuc};
ghost use Rattle.ets_term.specs.Encoding.{concat};
ghost use Rattle.external_term.specs.Encoding.{encode, encode_integer, tuple_header, tuple_bytes, list_bytes};

use crate::integer::Magnitude;
use crate::put::digit_count;
use crate::small::is_string;
use ets_term::{Integer, Term};

/// Returns the number of bytes that the integer `n`, which is not negative, is written in.
#[tactic(auto, using(crate::proofs::SmallIntegers::byte_bytes, crate::proofs::SmallIntegers::word_bytes, crate::proofs::SmallIntegers::wide_bytes))]
fn positive_size(n: Magnitude) -> usize
    ensures size { result ≡ length (encode_integer (pos n)) }
    ensures few { result < 20 }
{
    // SMALL_INTEGER_EXT has a tag and 1 byte, INTEGER_EXT a tag and 4 bytes. SMALL_BIG_EXT has a tag, a length, a sign,
    // and then the bytes of the magnitude.
    if n < 256 {
        2
    } else if n < 0x8000_0000 {
        5
    } else {
        digit_count(n) + 3
    }
}

/// Returns the number of bytes that the integer `-1 - n` is written in.
#[tactic(auto, using(crate::proofs::SmallIntegers::negative_word, crate::proofs::SmallIntegers::negative_wide))]
fn negative_size(n: Magnitude) -> usize
    requires { n < 2 ^ 127 }
    ensures size { result ≡ length (encode_integer (negsuc n)) }
    ensures few { result < 20 }
{
    // INTEGER_EXT has a tag and 4 bytes, for integers from -2^31 on. SMALL_BIG_EXT has a tag, a length, a sign, and
    // then the bytes of the magnitude, which is `n + 1`.
    if n < 0x8000_0000 {
        5
    } else {
        digit_count(n + 1) + 3
    }
}

/// Returns the number of bytes that an integer is written in.
fn integer_size(n: Integer) -> usize
    ensures size { result ≡ length (encode_integer n) }
    ensures few { result < 20 }
{
    if n >= 0 {
        positive_size(n as Magnitude)
    } else {
        // `-(n + 1)` is in range also for the least integer, and `-n` is not.
        negative_size(-(n + 1) as Magnitude)
    }
}

/// Returns the number of bytes of the tag of a tuple with its number of elements.
#[tactic(auto, using(crate::proofs::Encoded::header_short, crate::proofs::Encoded::header_long))]
fn header_size(n: usize) -> usize
    ensures { result ≡ length (tuple_header n) }
{
    // SMALL_TUPLE_EXT has 1 byte for the number of elements, LARGE_TUPLE_EXT has 4.
    if n < 256 { 2 } else { 5 }
}

/// Returns the number of bytes of a term, at most `usize::MAX`.
#[cycle(size)]
pub(crate) fn size_of_term(term: &Term) -> usize
    ensures { result ≡ min (length (encode term.now)) usize.MAX }
{
    match term {
        Term::Int(n) => integer_size(*n),
        // The tag, 1 byte of the length, and the characters.
        Term::Atom(name) => name.text().len() + 2,
        // The tag, 15 bytes of the node's name, and 4 bytes each of the number, the serial and the creation.
        Term::Pid(_) => 28,
        // The tag, 2 bytes of the number of words, 15 bytes of the node's name, and 4 bytes each of the creation and
        // the word.
        Term::Tid(_) => 26,
        Term::Tuple(items) => tuple_size(items.as_slice()),
        Term::List(items) => list_size(items.as_slice()),
        // The tag, 4 bytes of the length, and the bytes.
        Term::Binary(bytes) => bytes.as_slice().len().saturating_add(5),
    }
}

/// Returns the number of bytes of the tuple of these elements, at most `usize::MAX`.
#[cycle(size)]
fn tuple_size(items: &[Term]) -> usize
    ensures { result ≡ min (length (tuple_bytes (map encode items.now))) usize.MAX }
{
    sizes_of(items).saturating_add(header_size(items.len()))
}

/// Returns the number of bytes of the list of these elements, at most `usize::MAX`.
#[cycle(size)]
fn list_size(items: &[Term]) -> usize
    ensures { result ≡ min (length (list_bytes (map encode items.now))) usize.MAX }
{
    // NIL_EXT is only a tag. STRING_EXT has a tag, a length of 2 bytes, and the characters. LIST_EXT has a tag, a
    // number of elements of 4 bytes, the elements, and the tail of 1 byte.
    if items.is_empty() {
        return 1;
    }
    if is_string(items) {
        return items.len().saturating_add(3);
    }
    sizes_of(items).saturating_add(6)
}

/// Returns the sum of the numbers of bytes of some terms, at most `usize::MAX`.
#[cycle(size)]
fn sizes_of(items: &[Term]) -> usize
    ensures { result ≡ min (length (concat (map encode items.now))) usize.MAX }
{
    let mut total = 0usize;
    for item in items {
        total = total.saturating_add(size_of_term(item));
    }
    total
}
