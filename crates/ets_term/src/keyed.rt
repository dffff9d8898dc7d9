//! A hasher of terms with a seed.
ghost use Rattle.std.specs.Prelude.{◌≡◌, fold, map};
ghost use Rattle.ets_term.specs.Encoding.{concat};
ghost use Rattle.ets_term.specs.Keyed.{words, integer_words, kind_word, large_words, fold_halves, factor_of, keyed_step};

use crate::integer::Integer;
use crate::key_hash::KeyHash;
use crate::term::Term;

/// A hasher with a secret factor, which it makes from a seed. Keys of one bucket are hard to choose for a user without
/// the seed.
///
/// It mixes words of 64 bits into a hash, which starts as the factor. The hash and the factor are multiplied, each
/// after an exclusive or with the word, whose bits are rotated for the factor. The exclusive or of the halves of the
/// 128-bit product is the next hash. The high half of the last hash is the hash of a term.
///
/// An integer from -2^63+8 to 2^63-1 is one word. Other terms start with the word of their kind, which is 2^63 plus its
/// number as in `Fnv`. Then come the two words of an integer, the high one first; or the number of a pid or table
/// identifier; or the count, then the characters, elements or bytes.
#[derive(Clone, Copy)]
pub struct Keyed {
    /// The secret number that is made from the seed.
    factor: u64,
}

impl Keyed {
    /// Returns the hasher with this seed. The two constants are fixed odd numbers. The first is 2^64 divided by the
    /// golden ratio, rounded down.
    pub fn new(seed: u64) -> Keyed
        ensures { result.factor ≡ factor_of seed }
    {
        let factor = fold_product(seed ^ 11400714819323198485, 15111065706836454659);
        Keyed { factor }
    }
}

impl KeyHash for Keyed {
    ghost use Rattle.ets_term.specs.Keyed.{keyed_hash, words};
    ghost use Rattle.ets_term.specs.laws.Hashed.{keyed_hash-below};

    ghost hash = { λ hasher term. keyed_hash hasher.factor (words term) };

    ghost below = { λ hasher term. keyed_hash-below hasher.factor (words term) };

    #[inline(always)]
    fn hash32(&self, term: &Term) -> u32 {
        // The first argument is the factor; the second is the hash, which starts as the factor.
        let mixed = match term {
            Term::Int(n) => mix_integer(self.factor, self.factor, *n),
            _ => mix_term(self.factor, self.factor, term),
        };
        (mixed >> 32) as u32
    }
}

/// Returns the hash `start` after the words of a term are mixed into it. The numbers 2 to 7 are the kinds, as in `Fnv`.
#[cycle(mix)]
fn mix_term(factor: u64, start: u64, term: &Term) -> u64
    ensures { result ≡ fold (keyed_step factor) start (words term.now) }
{
    match term {
        Term::Int(n) => mix_integer(factor, start, *n),
        Term::Atom(atom) => {
            let text = atom.text().as_bytes();
            mix_bytes(
                factor,
                mix_number(factor, start, 2, text.len() as u64),
                text,
            )
        }
        Term::Pid(n) => mix_number(factor, start, 3, u64::from(*n)),
        Term::Tid(n) => mix_number(factor, start, 4, u64::from(*n)),
        Term::Tuple(items) => {
            let with_count = mix_number(factor, start, 5, items.len() as u64);
            mix_items(factor, with_count, items.as_slice())
        }
        Term::List(items) => {
            let with_count = mix_number(factor, start, 6, items.len() as u64);
            mix_items(factor, with_count, items.as_slice())
        }
        Term::Binary(bytes) => {
            let with_count = mix_number(factor, start, 7, bytes.len() as u64);
            mix_bytes(factor, with_count, bytes.as_slice())
        }
    }
}

/// Returns the hash `start` after the words of some terms are mixed into it, one term after another.
#[cycle(mix)]
fn mix_items(factor: u64, start: u64, items: &[Term]) -> u64
    ensures { result ≡ fold (keyed_step factor) start (concat (map words items.now)) }
{
    let mut hash = start;
    for item in items {
        hash = mix_term(factor, hash, item);
    }
    hash
}

/// Returns the hash `start` after a word for each byte is mixed into it.
fn mix_bytes(factor: u64, start: u64, bytes: &[u8]) -> u64
    ensures { result ≡ fold (keyed_step factor) start bytes.now }
{
    let mut hash = start;
    for byte in bytes {
        hash = mix(factor, hash, u64::from(*byte));
    }
    hash
}

/// The word of a kind is this number plus the number of the kind.
const KIND: u64 = 1 << 63;

/// The number of values of a word: 2^64.
const WORD: u128 = 1 << 64;

/// Returns the hash `start` after the words of an integer are mixed into it.
#[inline(always)]
fn mix_integer(factor: u64, start: u64, n: Integer) -> u64
    ensures { result ≡ fold (keyed_step factor) start (integer_words n) }
{
    // The 128 bits of the integer in two's complement.
    let bits = n.cast_unsigned();
    // The eight least 64-bit integers are mixed as large ones, since one word could equal the word of a kind.
    if -9223372036854775800 <= n && n <= 9223372036854775807 {
        mix(factor, start, (bits % WORD) as u64)
    } else {
        mix_large(factor, start, bits)
    }
}

/// Returns the hash `start` after three words are mixed into it: of the integer kind, 1, and the high and the low word
/// of an integer's `bits`.
#[inline(never)]
fn mix_large(factor: u64, start: u64, bits: u128) -> u64
    ensures { result ≡ fold (keyed_step factor) start (large_words bits) }
{
    // The hash after the word of the kind and the high word.
    let high = mix_number(factor, start, 1, (bits / WORD) as u64);
    mix(factor, high, (bits % WORD) as u64)
}

/// Returns the hash `start` after the word of a kind, and then a number or a count, are mixed into it.
fn mix_number(factor: u64, start: u64, kind: u8, number: u64) -> u64
    ensures { result ≡ keyed_step factor (keyed_step factor start (kind_word kind)) number }
{
    mix(factor, mix(factor, start, KIND + u64::from(kind)), number)
}

/// Returns the hash after one word is mixed into it. The word is rotated for the factor, so that it changes other bits
/// there than in the hash. The contract fixes the 27 bits.
#[inline(always)]
fn mix(factor: u64, hash: u64, word: u64) -> u64
    ensures { result ≡ keyed_step factor hash word }
{
    fold_product(hash ^ word, factor ^ word.rotate_left(27))
}

/// Returns the exclusive or of the halves of the 128-bit product of `a` and `b`.
fn fold_product(a: u64, b: u64) -> u64
    ensures { result ≡ fold_halves a b }
{
    // The two halves of `a * b + 0`.
    let (low, high) = a.carrying_mul(b, 0);
    low ^ high
}
