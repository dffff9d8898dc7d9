//! The order of terms, within and across kinds.
use super::{atom, binary, letter_list, letter_tuple};
use ets_term::{Integer, Items, Term};
use std::alloc::Global;
use std::process::Abort;

/// A term that a constant can hold.
#[derive(Clone, Copy)]
enum Literal<'a> {
    /// This integer.
    Int(Integer),
    /// The atom of this text.
    Atom(&'a str),
    /// The identifier of a table with this number.
    Tid(u32),
    /// The pid with this number.
    Pid(u32),
    /// The tuple of the atoms of these letters.
    Tuple(&'a str),
    /// The list of the atoms of these letters.
    List(&'a str),
    /// The binary of the bytes of this text.
    Binary(&'a str),
}

/// Builds the term of a literal.
fn build_term(alloc: Global, literal: Literal) -> Option<Term> {
    match literal {
        Literal::Int(n) => Some(Term::Int(n)),
        Literal::Atom(text) => atom(alloc, text),
        Literal::Tid(n) => Some(Term::Tid(n)),
        Literal::Pid(n) => Some(Term::Pid(n)),
        Literal::Tuple(letters) => letter_tuple(alloc, letters),
        Literal::List(letters) => letter_list(alloc, letters),
        Literal::Binary(text) => binary(alloc, text.as_bytes()),
    }
}

/// Pushes the term of each literal.
fn push_terms(alloc: Global, terms: &mut Items<Term>, rows: &[Literal]) -> Option<()> {
    for literal in rows {
        terms.push(build_term(alloc, *literal)?).ok()?;
    }
    Some(())
}

/// Terms of each kind, in ascending order.
const ASCENDING_TERMS: [Literal<'static>; 22] = [
    Literal::Int(Integer::MIN),
    Literal::Int(-1),
    Literal::Int(7),
    // 2^64, which does not fit 64 bits.
    Literal::Int(18_446_744_073_709_551_616),
    Literal::Atom(""),
    Literal::Atom("a"),
    Literal::Atom("aa"),
    Literal::Atom("b"),
    Literal::Tid(0),
    Literal::Tid(1),
    Literal::Pid(0),
    Literal::Pid(1),
    Literal::Tuple(""),
    Literal::Tuple("z"),
    Literal::Tuple("aa"),
    Literal::List(""),
    Literal::List("a"),
    Literal::List("aa"),
    Literal::List("b"),
    Literal::Binary(""),
    Literal::Binary("1~"),
    Literal::Binary("2"),
];

/// Returns whether two terms, each with its index, compare as their indices do, by `cmp_terms`, `==` and `<`.
fn compare_as_indices(left: (usize, &Term), right: (usize, &Term)) -> bool {
    let (i, first) = left;
    let (j, second) = right;
    first.cmp_terms(second) == i.cmp(&j)
        && (*first == *second) == (i == j)
        && (*first < *second) == (i < j)
}

/// Returns whether the term at index `i`, `left`, compares with each term as their indices do.
fn compares_with_all_as_indices(terms: &[Term], i: usize, left: &Term) -> bool {
    let mut all_agree = true;
    for (j, right) in terms.iter().enumerate() {
        all_agree = compare_as_indices((i, left), (j, right)) && all_agree;
    }
    all_agree
}

/// Returns the index of the first term that does not compare with each term as their indices do.
fn first_order_mismatch(terms: &[Term]) -> Option<usize> {
    for (i, left) in terms.iter().enumerate() {
        if !compares_with_all_as_indices(terms, i, left) {
            return Some(i);
        }
    }
    None
}

/// Returns whether the terms of these literals are all built and in ascending order.
fn terms_are_ascending(alloc: Global, rows: &[Literal]) -> Option<bool> {
    let mut terms = Items::new(alloc);
    let pushed = push_terms(alloc, &mut terms, rows);
    let ascending = terms.len() == rows.len() && first_order_mismatch(terms.as_slice()) == None;
    drop(terms);
    pushed?;
    Some(ascending)
}

/// Checks the order of terms across all kinds.
#[test]
fn terms_are_in_the_order_of_the_manual(rt: HostRuntime) {
    assert!(rt; terms_are_ascending(rt.alloc(), &ASCENDING_TERMS) == Some(true));
}
