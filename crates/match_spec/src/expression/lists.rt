//! The functions `hd`, `tl`, `length`, `size` and `element` on terms. The Rust functions here return `None` where the
//! call fails.
ghost use Rattle.std.specs.Prelude.{◌≡◌, drop, map, IfOk, option_copied};
ghost use Rattle.std.specs.Option.{option_map};
ghost use Rattle.ets_term.specs.Data.{int, list, data_of, data_list};
ghost use Rattle.match_spec.specs.Functions.{head, tail, element, list_length, size};

use crate::expression::arithmetic::count_term;
use ets_term::{Integer, Items, Position, Term};
use std::alloc::{AllocError, Global};

/// Returns the first element of a list, or `None` if the term is not a list or is empty.
pub(crate) fn head(term: &Term) -> Option<&Term>
    ensures { option_map data_of (option_copied result) ≡ head (data_of term.now) }
{
    match term {
        Term::List(items) => items.get(0),
        _ => None,
    }
}

/// Makes the list of the elements after the first. Returns `None` if the term is not a list or is empty.
pub(crate) fn tail(alloc: Global, term: &Term) -> Result<Option<Term>, AllocError>
    ensures { IfOk result (λ t. option_map data_of t ≡ tail (data_of term.now)) }
{
    match term {
        Term::List(items) => tail_items(alloc, items.as_slice()),
        _ => Ok(None),
    }
}

/// Makes the list of the items after the first, or returns `None` if `items` is empty.
#[tactic(auto, using(crate::proofs::ListLaws::tail_of))]
fn tail_items(alloc: Global, items: &[Term]) -> Result<Option<Term>, AllocError>
    ensures { IfOk result (λ t. option_map data_of t ≡ tail (list (data_list (map data_of items.now)))) }
{
    if items.is_empty() {
        return Ok(None);
    }
    Ok(Some(Term::List(copies_from(alloc, items, 1)?)))
}

/// Copies the items from index `start` on.
fn copies_from(alloc: Global, items: &[Term], start: usize) -> Result<Items<Term>, AllocError>
    ensures { IfOk result (λ ts. ts ≡ drop start items.now) }
{
    let mut copies = Vec::new(alloc);
    for i in start..items.len() {
        copies.push(items[i].try_clone(alloc)?)?;
    }
    Ok(Items::from_vec(copies))
}

/// Returns the number of elements of a list as a term, or `None` for any other term.
#[tactic(auto, using(crate::proofs::ListLaws::list_length_of))]
pub(crate) fn list_length(term: &Term) -> Option<Term>
    ensures { option_map data_of result ≡ list_length (data_of term.now) }
{
    match term {
        Term::List(items) => count_term(items.len()),
        _ => None,
    }
}

/// Returns the number of elements of a tuple, or of bytes of a binary, as a term. Returns `None` for any other term.
#[tactic(auto, using(crate::proofs::ListLaws::size_of_tuple))]
pub(crate) fn size(term: &Term) -> Option<Term>
    ensures { option_map data_of result ≡ size (data_of term.now) }
{
    match term {
        Term::Tuple(items) => count_term(items.len()),
        Term::Binary(bytes) => count_term(bytes.len()),
        _ => None,
    }
}

/// Returns element `n` of a tuple, counted from 1, or `None` if `n` is not an integer or `tuple` has no such element.
pub(crate) fn element<'a>(n: &Term, tuple: &'a Term) -> Option<&'a Term>
    ensures { option_map data_of (option_copied result) ≡ element (data_of n.now) (data_of tuple.now) }
{
    match n {
        Term::Int(n) => nth_element(*n, tuple),
        _ => None,
    }
}

/// Returns element `n` of a tuple, counted from 1, or `None` if `tuple` is not a tuple or has no such element.
#[tactic(auto, using(crate::proofs::ListLaws::element_at_tree))]
fn nth_element(n: Integer, tuple: &Term) -> Option<&Term>
    ensures { option_map data_of (option_copied result) ≡ element (int n) (data_of tuple.now) }
{
    match Position::try_from(n) {
        Ok(n) => tuple.element(n),
        Err(_) => None,
    }
}
