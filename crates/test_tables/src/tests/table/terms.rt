//! Functions that build the terms, patterns and match specifications of the tests, and compute hashes and digits of
//! objects. The digits are the second elements, written as one number. A function that builds returns `None` if memory
//! runs out.
use super::answers::add_digit;
use ets_term::{Atom, Integer, Items, Term};
use match_spec::{Pattern, Spec};
use packed_term::{Object, Packed};
use std::alloc::Global;

/// Returns the items if what was pushed into them succeeded; otherwise drops them and returns `None`.
fn keep_if_some(pushed: Option<()>, items: Items<Term>) -> Option<Items<Term>> {
    match pushed {
        Some(()) => Some(items),
        None => {
            drop(items);
            None
        }
    }
}

/// Appends a term, if it was built. `None` means out of memory.
pub fn push_built(items: &mut Items<Term>, built: Option<Term>) -> Option<()> {
    items.push(built?).ok()
}

/// Appends integers. `None` means out of memory.
fn push_numbers(items: &mut Items<Term>, numbers: &[Integer]) -> Option<()> {
    for number in numbers {
        items.push(Term::Int(*number)).ok()?;
    }
    Some(())
}

/// Builds the tuple of these integers.
pub fn tuple(alloc: Global, numbers: &[Integer]) -> Option<Term> {
    let mut items = Items::new(alloc);
    Some(Term::Tuple(keep_if_some(push_numbers(&mut items, numbers), items)?))
}

/// Appends the tuples of pairs. `None` means out of memory.
fn push_pairs(alloc: Global, items: &mut Items<Term>, pairs: &[[Integer; 2]]) -> Option<()> {
    for pair in pairs {
        push_built(items, tuple(alloc, pair.as_slice()))?;
    }
    Some(())
}

/// Builds the tuples of these pairs.
pub fn tuples(alloc: Global, pairs: &[[Integer; 2]]) -> Option<Items<Term>> {
    let mut items = Items::new(alloc);
    keep_if_some(push_pairs(alloc, &mut items, pairs), items)
}

/// Returns a count as an `Integer`, the type of the integers of terms.
pub fn as_integer(count: usize) -> Integer {
    count as Integer
}

/// Returns the integer that a term is, or 0 if it is another term or missing.
pub fn integer_of(term: Option<&Term>) -> Integer {
    match term {
        Some(Term::Int(n)) => *n,
        _ => 0,
    }
}

/// Returns the second elements of objects as the digits of one number, which may wrap.
pub fn digits_of(objects: &[Term]) -> Integer {
    let mut digits: Integer = 0;
    for object in objects {
        digits = add_digit(digits, integer_of(object.element(2)));
    }
    digits
}

/// Returns the second elements of stored objects as the digits of one number, which may wrap.
pub fn digits_of_stored(objects: &[Object]) -> Integer {
    let mut digits: Integer = 0;
    for object in objects {
        digits = add_digit(digits, integer_in(object.element(2)));
    }
    digits
}

/// Returns the integer that an element of a stored object is, or 0 if it is another term or missing.
fn integer_in(element: Option<&Packed>) -> Integer {
    match element {
        Some(element) => element.as_integer().unwrap_or(0),
        None => 0,
    }
}

/// A prime, so that a pair has another hash if its elements are swapped.
const PRIME: Integer = 1_000_003;

/// Returns a hash of pairs that does not depend on their order. Each pair gives a number, and the hash is the sum of
/// the squares of these numbers.
pub fn hash_of_pairs(objects: &[Term]) -> Integer {
    let mut sum: Integer = 0;
    for object in objects {
        let pair = integer_of(object.element(1))
            .wrapping_mul(PRIME)
            .wrapping_add(integer_of(object.element(2)));
        sum = sum.wrapping_add(pair.wrapping_mul(pair));
    }
    sum
}

/// Builds the atom with this text. `None` means out of memory.
pub fn atom(alloc: Global, text: &str) -> Option<Term> {
    Some(Term::Atom(Atom::new(alloc, text).ok()?))
}

/// Appends two terms. `None` means out of memory.
fn push_two(items: &mut Items<Term>, first: Term, second: Term) -> Option<()> {
    match items.push(first) {
        Ok(()) => items.push(second).ok(),
        Err(_) => {
            drop(second);
            None
        }
    }
}

/// Builds the tuple of two terms.
pub fn pair(alloc: Global, first: Term, second: Term) -> Option<Term> {
    let mut items = Items::new(alloc);
    Some(Term::Tuple(keep_if_some(push_two(&mut items, first, second), items)?))
}

/// A part of a term: an integer, or the atom of a text.
#[derive(Clone, Copy)]
pub enum Part<'a> {
    Int(Integer),
    Atom(&'a str),
}

/// Builds the term of a part.
fn term_of(alloc: Global, part: Part) -> Option<Term> {
    match part {
        Part::Int(number) => Some(Term::Int(number)),
        Part::Atom(text) => atom(alloc, text),
    }
}

/// Appends the terms of these parts. `None` means out of memory.
fn push_parts(alloc: Global, items: &mut Items<Term>, parts: &[Part]) -> Option<()> {
    for part in parts {
        push_built(items, term_of(alloc, *part))?;
    }
    Some(())
}

/// Builds the items of these parts.
fn items_of(alloc: Global, parts: &[Part]) -> Option<Items<Term>> {
    let mut items = Items::new(alloc);
    keep_if_some(push_parts(alloc, &mut items, parts), items)
}

/// Builds the tuple of these parts.
pub fn tuple_of(alloc: Global, parts: &[Part]) -> Option<Term> {
    Some(Term::Tuple(items_of(alloc, parts)?))
}

/// Compiles the pattern of a term, if the term was built, and drops the term.
fn pattern_of(alloc: Global, built: Option<Term>) -> Option<Pattern> {
    let term = built?;
    let pattern = Pattern::compile(alloc, &term);
    drop(term);
    pattern.ok()
}

/// Builds the pattern `{Key,'$1'}`.
pub fn pattern_of_key(alloc: Global, key: Integer) -> Option<Pattern> {
    pattern_of(alloc, tuple_of(alloc, &[Part::Int(key), Part::Atom("$1")]))
}

/// Builds the pattern `{'$1',Value}`.
pub fn pattern_of_value(alloc: Global, value: Integer) -> Option<Pattern> {
    pattern_of(
        alloc,
        tuple_of(alloc, &[Part::Atom("$1"), Part::Int(value)]),
    )
}

/// Builds the list of one term, if the term was built.
fn list_of(alloc: Global, built: Option<Term>) -> Option<Term> {
    let mut items = Items::new(alloc);
    Some(Term::List(keep_if_some(push_built(&mut items, built), items)?))
}

/// Builds 0 in lists within lists, so that the term has this depth. 0 alone has the depth 1.
pub fn nested_list(alloc: Global, depth: usize) -> Option<Term> {
    let mut term = Some(Term::Int(0));
    for _ in 1..depth {
        term = list_of(alloc, term);
    }
    term
}

/// Builds the conditions of a clause: a list of this condition, or the empty list if there is no condition.
fn conditions(alloc: Global, condition: Option<&[Part]>) -> Option<Term> {
    match condition {
        Some(parts) => list_of(alloc, tuple_of(alloc, parts)),
        None => Some(Term::List(Items::new(alloc))),
    }
}

/// Appends the pattern, the conditions and the body `[true]` of a clause.
fn push_clause(
    alloc: Global,
    items: &mut Items<Term>,
    pattern: &[Part],
    condition: Option<&[Part]>,
) -> Option<()> {
    push_built(items, tuple_of(alloc, pattern))?;
    push_built(items, conditions(alloc, condition))?;
    push_built(items, list_of(alloc, atom(alloc, "true")))
}

/// Builds the clause `{Pattern,Conditions,[true]}`.
fn clause(alloc: Global, pattern: &[Part], condition: Option<&[Part]>) -> Option<Term> {
    let mut items = Items::new(alloc);
    Some(Term::Tuple(keep_if_some(push_clause(alloc, &mut items, pattern, condition), items)?))
}

/// Compiles the match specification of a term, if the term was built, and drops the term.
fn spec_of(alloc: Global, built: Option<Term>) -> Option<Spec> {
    let term = built?;
    let spec = Spec::compile(alloc, &term);
    drop(term);
    spec.ok()
}

/// Builds the match specification `[{{'_','$1'},[{'<','$1',Limit}],[true]}]`: the objects whose second element is less
/// than the limit.
pub fn spec_below(alloc: Global, limit: Integer) -> Option<Spec> {
    let pattern = [Part::Atom("_"), Part::Atom("$1")];
    let condition = [Part::Atom("<"), Part::Atom("$1"), Part::Int(limit)];
    let clause = clause(alloc, pattern.as_slice(), Some(condition.as_slice()));
    spec_of(alloc, list_of(alloc, clause))
}

/// Appends a clause `{{Key,'_'},[],[true]}` for each key.
fn push_clauses(alloc: Global, clauses: &mut Items<Term>, keys: &[Integer]) -> Option<()> {
    for key in keys {
        let pattern = [Part::Int(*key), Part::Atom("_")];
        push_built(clauses, clause(alloc, pattern.as_slice(), None))?;
    }
    Some(())
}

/// Builds the list with a clause `{{Key,'_'},[],[true]}` for each of these keys.
fn clauses_of_keys(alloc: Global, keys: &[Integer]) -> Option<Term> {
    let mut clauses = Items::new(alloc);
    Some(Term::List(keep_if_some(push_clauses(alloc, &mut clauses, keys), clauses)?))
}

/// Builds the match specification with a clause `{{Key,'_'},[],[true]}` for each of these keys.
pub fn spec_of_keys(alloc: Global, keys: &[Integer]) -> Option<Spec> {
    spec_of(alloc, clauses_of_keys(alloc, keys))
}
