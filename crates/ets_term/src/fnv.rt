//! The hasher FNV-1a, over the bytes that encode a term.
ghost use Rattle.std.specs.Prelude.{◌≡◌, ◌∷◌, fold, map};
ghost use Rattle.std.specs.Int.{to_be_bytes, w64};
ghost use Rattle.ets_term.specs.Encoding.{encoding, concat, fnv_step, integer_bytes as bytes_of};

use crate::integer::{Integer, integer_bytes};
use crate::key_hash::KeyHash;
use crate::term::Term;

/// The prime of FNV-1a to the fourteenth power, modulo 2^32. Hashing fourteen zero bytes multiplies the hash by it.
const FOURTEEN_ZEROS: u32 = 3631439385;

/// The prime of FNV-1a to the twelfth power, modulo 2^32. Hashing twelve zero bytes multiplies the hash by it.
const TWELVE_ZEROS: u32 = 3549196337;

/// The prime of FNV-1a to the eighth power, modulo 2^32. Hashing eight zero bytes multiplies the hash by it.
const EIGHT_ZEROS: u32 = 1566662433;

/// The hasher FNV-1a of 32 bits over the encoding of a term. The encoding starts with a byte for the kind: integer 1,
/// atom 2, pid 3, table identifier 4, tuple 5, list 6, binary 7. Then come 16 bytes of an integer, 8 of a count, 1 of
/// an atom's length, or 4 of a pid or table identifier, each with the high byte first. Characters, elements or bytes
/// end it. The hash starts with 2166136261 (the offset basis), and the prime is 16777619.
#[derive(Clone, Copy)]
pub struct Fnv;

impl KeyHash for Fnv {
    ghost use Rattle.ets_term.specs.Encoding.{fnv};
    ghost use Rattle.ets_term.specs.laws.Hashed.{fnv-below};

    ghost hash = { λ _ term. fnv (encoding term) };

    ghost below = { λ _ term. fnv-below (encoding term) };

    #[inline(always)]
    fn hash32(&self, term: &Term) -> u32 {
        // The hash starts with the offset basis, 2166136261. An integer is hashed without a call of `fnv_term`.
        match term {
            Term::Int(n) => fnv_integer(fnv_bytes(2166136261, &[1]), *n),
            _ => fnv_term(2166136261, term),
        }
    }
}

/// Returns the hash `start` continued with the encoding of a term. The numbers 1 to 7 are the bytes of the kinds.
#[cycle(fnv)]
fn fnv_term(start: u32, term: &Term) -> u32
    ensures { result ≡ fold fnv_step start (encoding term.now) }
{
    match term {
        Term::Int(n) => fnv_integer(fnv_bytes(start, &[1]), *n),
        Term::Atom(atom) => {
            // An atom has at most 255 characters, so its length fits in a byte.
            let text = atom.text().as_bytes();
            fnv_bytes(fnv_bytes(start, &[2, text.len() as u8]), text)
        }
        Term::Pid(n) => fnv_bytes(fnv_bytes(start, &[3]), &n.to_be_bytes()),
        Term::Tid(n) => fnv_bytes(fnv_bytes(start, &[4]), &n.to_be_bytes()),
        Term::Tuple(items) => fnv_items(fnv_count(start, 5, items.len()), items.as_slice()),
        Term::List(items) => fnv_items(fnv_count(start, 6, items.len()), items.as_slice()),
        Term::Binary(bytes) => fnv_bytes(fnv_count(start, 7, bytes.len()), bytes.as_slice()),
    }
}

/// Returns the hash `start` continued with the encodings of some terms, one after another.
#[cycle(fnv)]
fn fnv_items(start: u32, items: &[Term]) -> u32
    ensures { result ≡ fold fnv_step start (concat (map encoding items.now)) }
{
    let mut hash = start;
    for item in items {
        hash = fnv_term(hash, item);
    }
    hash
}

/// Returns the hash `start` continued with the 16 bytes of an integer. The leading zero bytes of an integer from 0 to
/// 2^64-1 take one multiplication. Only an integer from 0 to 2^16-1 is hashed here, so that the compiler inlines
/// little.
#[inline(always)]
fn fnv_integer(start: u32, n: Integer) -> u32
    ensures { result ≡ fold fnv_step start (bytes_of n) }
{
    if let Ok(low) = u16::try_from(n) {
        return fnv_bytes(start.wrapping_mul(FOURTEEN_ZEROS), &low.to_be_bytes());
    }
    fnv_wide_integer(start, n)
}

/// Returns the hash `start` continued with the 16 bytes of any integer, as `fnv_integer` does. An integer from 0 to
/// 2^32-1 has at least twelve leading zero bytes, and an integer up to 2^64-1 at least eight.
#[inline(never)]
fn fnv_wide_integer(start: u32, n: Integer) -> u32
    ensures { result ≡ fold fnv_step start (bytes_of n) }
{
    if let Ok(low) = u32::try_from(n) {
        return fnv_bytes(start.wrapping_mul(TWELVE_ZEROS), &low.to_be_bytes());
    }
    if let Ok(low) = u64::try_from(n) {
        return fnv_bytes(start.wrapping_mul(EIGHT_ZEROS), &low.to_be_bytes());
    }
    fnv_bytes(start, &integer_bytes(n))
}

/// Returns the hash `start` continued with the byte of a kind and the eight bytes of a count.
fn fnv_count(start: u32, kind: u8, count: usize) -> u32
    ensures { result ≡ fold fnv_step start (kind ∷ to_be_bytes w64 count) }
{
    fnv_bytes(fnv_bytes(start, &[kind]), &(count as u64).to_be_bytes())
}

/// Returns the hash `start` continued with bytes: for each byte an exclusive or, then a product with the prime,
/// 16777619.
fn fnv_bytes(start: u32, bytes: &[u8]) -> u32
    ensures { result ≡ fold fnv_step start bytes.now }
{
    let mut hash = start;
    for byte in bytes {
        hash = (hash ^ (*byte as u32)).wrapping_mul(16777619);
    }
    hash
}
