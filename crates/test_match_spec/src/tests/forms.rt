//! Functions that build the terms of the tests. `None` means out of memory.
use ets_term::{Atom, Items, Term};
use std::alloc::Global;

/// Builds the atom of a text.
pub(crate) fn atom(alloc: Global, text: &str) -> Option<Term> {
    Some(Term::Atom(Atom::new(alloc, text).ok()?))
}

/// Copies a term.
pub(crate) fn copy(alloc: Global, term: &Term) -> Option<Term> {
    term.try_clone(alloc).ok()
}

/// Builds the items of two terms.
fn two_items(alloc: Global, first: Term, second: Term) -> Option<Items<Term>> {
    let mut items = Items::new(alloc);
    items.push(first).ok()?;
    items.push(second).ok()?;
    Some(items)
}

/// Builds the items of one term.
pub(crate) fn one_item(alloc: Global, term: Term) -> Option<Items<Term>> {
    let mut items = Items::new(alloc);
    items.push(term).ok()?;
    Some(items)
}

/// Builds the tuple of two terms.
pub(crate) fn pair(alloc: Global, first: Term, second: Term) -> Option<Term> {
    Some(Term::Tuple(two_items(alloc, first, second)?))
}

/// Builds the tuple of three terms.
pub(crate) fn triple(alloc: Global, first: Term, second: Term, third: Term) -> Option<Term> {
    let mut items = two_items(alloc, first, second)?;
    items.push(third).ok()?;
    Some(Term::Tuple(items))
}
