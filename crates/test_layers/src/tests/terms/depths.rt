//! Depths of terms, and copies of deep and long ones.
use super::{binary, letter_list, letter_tuple};
use crate::tests::depths::nested_list;
use crate::tests::keep_if_some;
use ets_term::{Integer, Items, MAX_DEPTH, Term};
use std::alloc::Global;
use std::process::Abort;

/// Returns whether a term has this depth, and equals its copy.
fn has_depth_and_equals_copy(alloc: Global, term: &Term, depth: usize) -> Option<bool> {
    // Calls the two functions of `ets_term` that only state a law, because the tests call each public function of a
    // term. They have no effect.
    term.fits();
    ets_term::laws::hash_writes_encoding(term);
    let copy = term.try_clone(alloc).ok()?;
    let same = copy == *term;
    drop(copy);
    Some(same && term.depth() == depth)
}

/// Returns whether a term has this depth and equals its copy, and drops it.
fn built_term_has_depth_and_equals_copy(
    alloc: Global,
    built: Option<Term>,
    depth: usize,
) -> Option<bool> {
    let term = built?;
    let same = has_depth_and_equals_copy(alloc, &term, depth);
    drop(term);
    same
}

/// Returns whether a tuple and a list of an atom for each letter have this depth and equal their copies.
fn tuple_and_list_have_depth_and_equal_copies(
    alloc: Global,
    letters: &str,
    depth: usize,
) -> Option<bool> {
    Some(
        built_term_has_depth_and_equals_copy(alloc, letter_tuple(alloc, letters), depth)?
            && built_term_has_depth_and_equals_copy(alloc, letter_list(alloc, letters), depth)?,
    )
}

/// Pushes an integer, which is the default term, and a tuple of two atoms.
fn push_uneven_items(alloc: Global, parts: &mut Items<Term>) -> Option<()> {
    parts.push(Term::default()).ok()?;
    parts.push(letter_tuple(alloc, "ab")?).ok()
}

/// Builds a list of an integer and a tuple of atoms, which have different depths.
fn uneven_list(alloc: Global) -> Option<Term> {
    let mut parts = Items::new(alloc);
    Some(Term::List(keep_if_some(push_uneven_items(alloc, &mut parts), parts)?))
}

/// Returns whether an integer, a binary and an uneven list have the depths 1, 1 and 3, and equal their copies. The
/// deepest part decides.
fn other_terms_are_of_depth(alloc: Global) -> Option<bool> {
    Some(
        built_term_has_depth_and_equals_copy(alloc, Some(Term::Int(5)), 1)?
            && built_term_has_depth_and_equals_copy(alloc, binary(alloc, &[0, 255]), 1)?
            && built_term_has_depth_and_equals_copy(alloc, uneven_list(alloc), 3)?,
    )
}

/// Checks the depths of flat and uneven terms, and their copies.
#[test]
fn terms_have_their_depths_and_equal_their_copies(rt: HostRuntime) {
    let alloc = rt.alloc();
    assert!(rt; tuple_and_list_have_depth_and_equal_copies(alloc, "", 1) == Some(true));
    assert!(rt; tuple_and_list_have_depth_and_equal_copies(alloc, "ab", 2) == Some(true));
    assert!(rt; other_terms_are_of_depth(alloc) == Some(true));
}

/// Returns whether nested lists have this depth and equal their copy, and `is_too_deep` holds if the depth is above the
/// limit, and only then.
fn nested_list_has_depth(alloc: Global, levels: usize) -> Option<bool> {
    let term = nested_list(alloc, levels)?;
    let limit_agrees = term.is_too_deep() == (levels > MAX_DEPTH);
    Some(built_term_has_depth_and_equals_copy(alloc, Some(term), levels)? && limit_agrees)
}

/// Returns the first of these depths for which `nested_list_has_depth` does not hold. The outer None means out of
/// memory.
fn first_depth_mismatch(alloc: Global, rows: &[usize]) -> Option<Option<usize>> {
    for levels in rows {
        if !nested_list_has_depth(alloc, *levels)? {
            return Some(Some(*levels));
        }
    }
    Some(None)
}

/// Depths of nested lists: most are near powers of two, one is the limit of 128, and two are above it.
const DEPTHS: [usize; 8] = [4, 9, 17, 33, 65, 128, 129, 2000];

/// Checks that nested lists of all `DEPTHS` have their depth and equal their copies.
#[test]
fn deep_terms_are_copied(rt: HostRuntime) {
    assert!(rt; first_depth_mismatch(rt.alloc(), &DEPTHS) == Some(None));
}

/// Pushes the numbers below `count`, from 0 on.
fn push_numbers_below(items: &mut Items<Term>, count: u32) -> Option<()> {
    for n in 0..count {
        items.push(Term::Int(Integer::from(n))).ok()?;
    }
    Some(())
}

/// Builds the tuple of the numbers below `count`.
fn tuple_of_numbers(alloc: Global, count: u32) -> Option<Term> {
    let mut items = Items::new(alloc);
    Some(Term::Tuple(keep_if_some(push_numbers_below(&mut items, count), items)?))
}

/// Returns whether a tuple of 70,000 integers, more than 2^16, has the depth 2 and equals its copy.
fn long_tuple_is_copied(alloc: Global) -> Option<bool> {
    built_term_has_depth_and_equals_copy(alloc, tuple_of_numbers(alloc, 70_000), 2)
}

#[test]
fn a_long_tuple_is_copied(rt: HostRuntime) {
    assert!(rt; long_tuple_is_copied(rt.alloc()) == Some(true));
}
