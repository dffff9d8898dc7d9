//! Terms: expected values from the rules of terms. The tests make each public call of a term at least once.
use super::keep_if_some;
use ets_term::{AllSame, Atom, Fnv, Items, KeyHash, Position, Term};
use std::alloc::Global;
use std::hash::{DefaultHasher, Hash, Hasher};
use std::mem::size_of;
use std::process::Abort;

// The limits of atoms.
mod atoms;
// Depths and copies.
mod depths;
// The order of terms.
mod order;

/// Builds the atom of a text.
fn atom(alloc: Global, text: &str) -> Option<Term> {
    Some(Term::Atom(Atom::new(alloc, text).ok()?))
}

/// Builds the atom of a letter.
fn letter_atom(alloc: Global, letter: char) -> Option<Term> {
    let text = format!(in alloc; "{letter}").ok()?;
    let built = atom(alloc, text.as_str());
    drop(text);
    built
}

/// Pushes an atom for each letter.
fn push_letter_atoms(alloc: Global, items: &mut Items<Term>, letters: &str) -> Option<()> {
    for letter in letters.chars() {
        items.push(letter_atom(alloc, letter)?).ok()?;
    }
    Some(())
}

/// Builds `Items` with one atom for each letter.
fn letter_atoms(alloc: Global, letters: &str) -> Option<Items<Term>> {
    let mut items = Items::new(alloc);
    keep_if_some(push_letter_atoms(alloc, &mut items, letters), items)
}

/// Builds the tuple of an atom for each letter.
fn letter_tuple(alloc: Global, letters: &str) -> Option<Term> {
    Some(Term::Tuple(letter_atoms(alloc, letters)?))
}

/// Builds the list of an atom for each letter.
fn letter_list(alloc: Global, letters: &str) -> Option<Term> {
    Some(Term::List(letter_atoms(alloc, letters)?))
}

/// Builds the binary of these bytes.
fn binary(alloc: Global, bytes: &[u8]) -> Option<Term> {
    Some(Term::Binary(Items::from_vec(bytes.to_vec(alloc).ok()?)))
}

/// Returns what `is_atom` returns for a term and a text, and drops the term.
fn is_atom_then_drop(built: Option<Term>, text: &str) -> Option<bool> {
    let term = built?;
    let is_atom = term.is_atom(text);
    drop(term);
    Some(is_atom)
}

/// Returns whether `is_atom` holds for the atom of a text, but not for another text, and not for a tuple.
fn only_atoms_are_atoms_of_their_text(alloc: Global) -> Option<bool> {
    Some(
        is_atom_then_drop(atom(alloc, "ab"), "ab")?
            && !is_atom_then_drop(atom(alloc, "ab"), "a")?
            && !is_atom_then_drop(letter_tuple(alloc, "a"), "a")?,
    )
}

/// Checks `is_atom` of atoms and of a tuple.
#[test]
fn is_atom_holds_for_one_text(rt: HostRuntime) {
    assert!(rt; only_atoms_are_atoms_of_their_text(rt.alloc()) == Some(true));
}

/// Returns whether the element at a position is the atom of this text.
fn is_atom_at(term: &Term, position: Position, text: &str) -> bool {
    match term.element(position) {
        Some(element) => element.is_atom(text),
        None => false,
    }
}

/// Returns whether a pair has the elements `a` and `b` at the positions 1 and 2, and none at 0, 3 and 2^64+1,
/// which is 1 modulo 2^64.
fn has_elements_a_and_b(pair: &Term) -> bool {
    pair.element(0).is_none()
        && is_atom_at(pair, 1, "a")
        && is_atom_at(pair, 2, "b")
        && pair.element(3).is_none()
        && pair.element(18446744073709551617).is_none()
}

/// Returns whether a pair of atoms has two elements.
fn pair_has_two_elements(alloc: Global) -> Option<bool> {
    let pair = letter_tuple(alloc, "ab")?;
    let has_two = has_elements_a_and_b(&pair);
    drop(pair);
    Some(has_two)
}

/// Returns whether `element` finds nothing in a list, because only tuples have elements.
fn list_has_no_elements(alloc: Global) -> Option<bool> {
    let list = letter_list(alloc, "ab")?;
    let has_none = list.element(1).is_none();
    drop(list);
    Some(has_none)
}

/// Checks `element` of a tuple and of a list.
#[test]
fn elements_count_from_one(rt: HostRuntime) {
    assert!(rt; pair_has_two_elements(rt.alloc()) == Some(true));
    assert!(rt; list_has_no_elements(rt.alloc()) == Some(true));
}

/// The encoding of the atom `a`: a byte for the kind, the length and the text.
const ENCODED_A: [u8; 3] = [2, 1, b'a'];

/// Returns the hash of a term by the hasher of the standard library.
fn hash_of(term: &Term) -> u64 {
    let mut hasher = DefaultHasher::new();
    term.hash(&mut hasher);
    hasher.finish()
}

/// Returns the hash of bytes by the hasher of the standard library.
fn hash_of_bytes(bytes: &[u8]) -> u64 {
    let mut hasher = DefaultHasher::new();
    hasher.write(bytes);
    hasher.finish()
}

/// Returns the hash of the atom of a text by the hasher of the standard library.
fn hash_of_an_atom(alloc: Global, text: &str) -> Option<u64> {
    let term = atom(alloc, text)?;
    let hash = hash_of(&term);
    drop(term);
    Some(hash)
}

/// Checks that `Hash` gives an atom the hash of its encoding.
#[test]
fn an_atom_is_hashed_by_its_encoding(rt: HostRuntime) {
    assert!(rt; hash_of_an_atom(rt.alloc(), "a") == Some(hash_of_bytes(&ENCODED_A)));
}

/// Returns the hashes of a term by `AllSame` and by `Fnv`, and drops the term.
fn hashes_by_two_hashers(built: Option<Term>) -> Option<(u32, u32)> {
    let term = built?;
    let hashes = (AllSame.hash32(&term), Fnv.hash32(&term));
    drop(term);
    Some(hashes)
}

/// Returns whether `AllSame` hashes a tuple to 0, and `Fnv` hashes equal tuples alike but a list of the same items
/// differently.
fn tuple_and_list_hash_differently(alloc: Global) -> Option<bool> {
    let (all_same, tuple) = hashes_by_two_hashers(letter_tuple(alloc, "ab"))?;
    let (_, equal_tuple) = hashes_by_two_hashers(letter_tuple(alloc, "ab"))?;
    let (_, list) = hashes_by_two_hashers(letter_list(alloc, "ab"))?;
    Some(all_same == 0 && tuple == equal_tuple && tuple != list)
}

/// Checks the hashes of a tuple and of a list with the same items, by two hashers.
#[test]
fn a_tuple_and_a_list_hash_differently(rt: HostRuntime) {
    assert!(rt; tuple_and_list_hash_differently(rt.alloc()) == Some(true));
}

/// Pushes 1, 2 and 3 to empty `Items` and pops the last. Returns whether 3 is popped, and 1 and 2 remain.
fn pushes_and_pops(items: &mut Items<u8>) -> Option<bool> {
    let was_empty = items.is_empty();
    items.push(1).ok()?;
    items.push(2).ok()?;
    items.push(3).ok()?;
    let popped = items.pop() == Some(3) && items.len() == 2;
    Some(was_empty && popped && items.get(1) == Some(&2) && items.as_slice() == [1, 2].as_slice())
}

/// Returns whether numbers are pushed to `Items` and popped, and `into_vec` then has the others.
fn items_push_and_pop(alloc: Global) -> Option<bool> {
    let mut items = Items::new(alloc);
    let pushed_and_popped = pushes_and_pops(&mut items);
    let vec = items.into_vec();
    let same = vec.as_slice() == [1, 2].as_slice();
    drop(vec);
    Some(pushed_and_popped? && same)
}

/// Checks that `Items`, here of bytes, push and pop at their end.
#[test]
fn pushed_items_are_popped(rt: HostRuntime) {
    assert!(rt; items_push_and_pop(rt.alloc()) == Some(true));
}

/// Checks the sizes of an atom and of a term in bytes.
#[test]
fn an_atom_has_24_bytes_and_a_term_has_32(rt: HostRuntime) {
    assert!(rt; size_of::<Atom>() == 24 && size_of::<Term>() == 32);
}
