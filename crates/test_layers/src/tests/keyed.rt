//! The seeded hash, `Keyed`, compared with values that another program computed from its definition.
use super::keep_if_some;
use ets_term::{Atom, Items, KeyHash, Keyed, Term};
use std::alloc::Global;
use std::process::Abort;

/// Pushes the elements `a` and -2^64-1. The two 64-bit words of this integer differ.
fn push_pair(alloc: Global, pair: &mut Items<Term>) -> Option<()> {
    pair.push(Term::Atom(Atom::new(alloc, "a").ok()?)).ok()?;
    pair.push(Term::Int(-18446744073709551617)).ok()
}

/// Builds `Items` with the elements of `push_pair`, for a tuple or a list.
fn build_pair(alloc: Global) -> Option<Items<Term>> {
    let mut pair = Items::new(alloc);
    keep_if_some(push_pair(alloc, &mut pair), pair)
}

/// Builds the binary of the bytes 0 and 255.
fn build_binary(alloc: Global) -> Option<Term> {
    Some(Term::Binary(Items::from_vec([0, 255].to_vec(alloc).ok()?)))
}

/// Pushes an integer of one word, and a term of each kind: `a`, -2^64-1, a pid, an identifier of a table, a tuple, a
/// list and a binary.
fn push_terms(alloc: Global, terms: &mut Items<Term>) -> Option<()> {
    terms.push(Term::Int(-1234567890123)).ok()?;
    push_pair(alloc, terms)?;
    terms.push(Term::Pid(7)).ok()?;
    terms.push(Term::Tid(7)).ok()?;
    terms.push(Term::Tuple(build_pair(alloc)?)).ok()?;
    terms.push(Term::List(build_pair(alloc)?)).ok()?;
    terms.push(build_binary(alloc)?).ok()
}

/// Returns whether the terms have the wanted hashes, in order.
fn have_hashes(hasher: Keyed, terms: &[Term], wanted: &[u32]) -> bool {
    for (term, wanted_hash) in terms.iter().zip(wanted) {
        if hasher.hash32(term) != *wanted_hash {
            return false;
        }
    }
    terms.len() == wanted.len()
}

/// Returns whether the terms of `push_terms` have the wanted hashes by a seed.
fn have_hashes_by_seed(alloc: Global, seed: u64, wanted: &[u32]) -> Option<bool> {
    let mut terms = Items::new(alloc);
    let pushed = push_terms(alloc, &mut terms);
    let hashed = have_hashes(Keyed::new(seed), terms.as_slice(), wanted);
    drop(terms);
    pushed?;
    Some(hashed)
}

/// The hashes of the terms of `push_terms` by the least seed: of the integer of one word, `a`, -2^64-1, the pid, the
/// identifier, the tuple, the list and the binary.
const HASHES_BY_LEAST_SEED: [u32; 8] = [
    2148618418, 2690377353, 1177630858, 3151374797, 3674489283, 66044220, 1383136696, 67764636,
];

/// The hashes of the same terms by the greatest seed.
const HASHES_BY_GREATEST_SEED: [u32; 8] = [
    2024830561, 3982370948, 311267150, 2456716419, 4180416107, 84722687, 2600002187, 2097526356,
];

/// Checks the hashes of a term of each kind by the least and by the greatest seed.
#[test]
fn terms_have_known_hashes_by_two_seeds(rt: HostRuntime) {
    assert!(rt; have_hashes_by_seed(rt.alloc(), 0, &HASHES_BY_LEAST_SEED) == Some(true));
    assert!(rt; have_hashes_by_seed(rt.alloc(), u64::MAX, &HASHES_BY_GREATEST_SEED) == Some(true));
}
