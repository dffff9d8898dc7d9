//! The hasher FNV-1a of `ets_term`, compared with a plain implementation, which is compared with published hashes.
use ets_term::{Atom, Fnv, Integer, KeyHash, Term};
use std::alloc::Global;
use std::process::Abort;

/// The FNV-1a hash of no bytes, in 32 bits.
const OFFSET_BASIS: u32 = 0x811c9dc5;

/// The number that the hash is multiplied by for each byte.
const PRIME: u32 = 0x01000193;

/// Computes FNV-1a of 32 bits, as its authors define it.
fn fnv_1a(bytes: &[u8]) -> u32 {
    fnv_1a_from(OFFSET_BASIS, bytes)
}

/// Returns the hash of earlier bytes and these, from the hash of the earlier bytes.
fn fnv_1a_from(hash: u32, bytes: &[u8]) -> u32 {
    let mut hash = hash;
    for byte in bytes {
        hash = (hash ^ u32::from(*byte)).wrapping_mul(PRIME);
    }
    hash
}

/// Each row is a text and its hash, as the authors of FNV-1a publish it.
const PUBLISHED: [(&str, u32); 3] = [("", 0x811c9dc5), ("a", 0xe40c292c), ("foobar", 0xbf9cf968)];

/// Returns whether the plain implementation gives each text its published hash.
fn have_published_hashes(rows: &[(&'static str, u32)]) -> bool {
    for (text, wanted) in rows {
        if fnv_1a(text.as_bytes()) != *wanted {
            return false;
        }
    }
    true
}

/// Checks the plain implementation.
#[test]
fn the_plain_hash_is_the_published_one(rt: HostRuntime) {
    assert!(rt; have_published_hashes(&PUBLISHED));
}

/// Returns the hash of the atom of a text, by the hasher `Fnv` of `ets_term`.
fn hash_of_an_atom(alloc: Global, text: &str) -> Option<u32> {
    let term = Term::Atom(Atom::new(alloc, text).ok()?);
    let hash = Fnv.hash32(&term);
    drop(term);
    Some(hash)
}

/// Returns the hash of an integer, by the hasher `Fnv` of `ets_term`.
fn hash_of_an_integer(number: Integer) -> u32 {
    let term = Term::Int(number);
    let hash = Fnv.hash32(&term);
    drop(term);
    hash
}

/// The first byte in the encoding of an atom, which says that the term is an atom.
const KIND_OF_ATOM: u8 = 2;

/// Returns whether the hash by `Fnv` of the atom of each text is the plain hash of its encoding: a byte for the kind,
/// the length and the text. The published hashes are of the texts alone, so they are not used.
fn are_hashed_by_encoding(alloc: Global, rows: &[(&'static str, u32)]) -> bool {
    for (text, _) in rows {
        let Ok(length) = u8::try_from(text.len()) else {
            return false;
        };
        let prefix_hash = fnv_1a(&[KIND_OF_ATOM, length]);
        let plain_hash = fnv_1a_from(prefix_hash, text.as_bytes());
        if hash_of_an_atom(alloc, *text) != Some(plain_hash) {
            return false;
        }
    }
    true
}

/// Checks the hashes of the atoms of the published texts.
#[test]
fn atoms_are_hashed_by_their_encoding(rt: HostRuntime) {
    assert!(rt; are_hashed_by_encoding(rt.alloc(), &PUBLISHED));
}

/// The encoding of the atom `a`.
const ATOM_A: [u8; 3] = [KIND_OF_ATOM, 1, b'a'];

/// The hash of the atom `a` by FNV-1a.
const HASH_OF_A: u32 = 58490007;

/// The encoding of 1: a byte for the kind, which is 1 for integers, then 16 bytes, the most significant first.
const ENCODED_ONE: [u8; 17] = [1, 0, 0, 0, 0, 0, 0, 0, 0, 0, 0, 0, 0, 0, 0, 0, 1];

/// The encoding of -2^64-1, in two's complement. The two 64-bit words of this integer differ.
const ENCODED_TWO_WORDS: [u8; 17] = [
    1, 255, 255, 255, 255, 255, 255, 255, 254, 255, 255, 255, 255, 255, 255, 255, 255,
];

/// Checks that the hash of an atom and of an integer is the plain hash of its encoding.
#[test]
fn a_hash_is_that_of_the_encoding(rt: HostRuntime) {
    assert!(rt; fnv_1a(&ATOM_A) == HASH_OF_A);
    assert!(rt; hash_of_an_atom(rt.alloc(), "a") == Some(HASH_OF_A));
    assert!(rt; hash_of_an_integer(1) == fnv_1a(&ENCODED_ONE));
    assert!(rt; hash_of_an_integer(-18446744073709551617) == fnv_1a(&ENCODED_TWO_WORDS));
}
