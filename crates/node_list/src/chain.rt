//! A chain: the objects of one key, in order. They are called terms here. The first is inline, because a key of a set
//! has at most one object. A contract sees each `Object` as its term.
ghost use Rattle.std.specs.Prelude.{◌≡◌, ◌+◌, ◌<◌, ◌≤◌, [], ◌∷◌, ◌++◌, length, take, slice_get, slice_set, Some, IsOk, OnOk, OnErr, MatchOption};
ghost use Rattle.node_list.specs.Chains.{all_but, terms_of, with_element_in_first};

use ets_term::Term;
use packed_term::{Object, Packed};
use smallvec::SmallVec;
use std::alloc::{AllocError, Global};
use std::marker::Model;
use std::{mem, slice};

/// The terms of one item, in order: the objects of one key. A chain of one term has it in place, so it allocates
/// nothing. It takes 48 bytes.
#[derive(Drop)]
pub struct Chain {
    terms: Terms,
    /// The allocator takes no memory of its own.
    alloc: Global,
}

/// The terms of a chain, by their number.
#[derive(Drop)]
enum Terms {
    /// No term.
    Empty,
    /// One term, in place.
    One(Object),
    /// Several terms, in one block of memory. After a removal there may be fewer.
    Several(SmallVec<Object, 0>),
}

// The value that contracts see of this type (`view`).
impl Model for Chain {
    ghost use Rattle.std.specs.Prelude.{List};
    ghost use Rattle.std.specs.Coded.{coded_list};
    ghost use Rattle.ets_term.specs.declared.term.Term.{Term};
    ghost use Rattle.ets_term.specs.contracts.term.Term as term;

    ghost Value = { List Term };

    ghost coded = { coded_list term.the_row.coded };

    ghost use Rattle.node_list.specs.Chains.{terms_of};

    ghost view = { λ c. terms_of c.terms };
}

impl Chain {
    /// Returns a chain without terms.
    pub fn new(alloc: Global) -> Chain
        ensures { result ≡ [] }
    {
        Chain {
            terms: Terms::Empty,
            alloc,
        }
    }

    /// Returns a chain of one term. This takes no memory.
    pub fn one(alloc: Global, term: Object) -> Chain
        ensures { result ≡ term ∷ [] }
    {
        Chain {
            terms: Terms::One(term),
            alloc,
        }
    }

    /// Returns the terms, in order.
    #[inline]
    pub fn as_slice(&self) -> &[Object]
        ensures { result.now ≡ self.now }
    {
        match &self.terms {
            Terms::Empty => &[],
            Terms::One(term) => slice::from_ref(term),
            Terms::Several(terms) => terms.as_slice(),
        }
    }

    /// Returns the number of terms.
    #[inline]
    pub fn len(&self) -> usize
        ensures { result ≡ length self.now }
    {
        match &self.terms {
            Terms::Empty => 0,
            Terms::One(_) => 1,
            Terms::Several(terms) => terms.len(),
        }
    }

    /// Appends a term. If memory is refused, returns an error, drops the term and changes nothing. A push to an empty
    /// chain takes no memory and succeeds.
    pub fn push(&mut self, term: Object) -> Result<(), AllocError>
        ensures ok { OnOk result (self.new ≡ self.old ++ term ∷ []) }
        ensures err { OnErr result (self.new ≡ self.old) }
        ensures succeeds { self.old ≡ [] → IsOk result }
    {
        if self.len() == 0 {
            self.terms = Terms::One(term);
            return Ok(());
        }
        let (terms, pushed) = match mem::replace(&mut self.terms, Terms::Empty) {
            Terms::Empty => (Terms::One(term), Ok(())),
            Terms::One(first) => two(self.alloc, first, term),
            Terms::Several(terms) => more(terms, term),
        };
        self.terms = terms;
        pushed
    }

    /// Replaces the term at `index` and returns the old term.
    pub fn replace(&mut self, index: usize, term: Object) -> Object
        requires { index < length self.old }
        ensures old { slice_get self.old index ≡ Some result }
        ensures new { self.new ≡ slice_set self.old index term }
    {
        match &mut self.terms {
            // The index is that of a term, so the chain is not empty.
            Terms::Empty => term,
            Terms::One(own) => mem::replace(own, term),
            Terms::Several(terms) => mem::replace(&mut terms.as_mut_slice()[index], term),
        }
    }

    /// Sets the element at `index`, counted from 0, of the first term, and drops the old element. Changes nothing if
    /// the chain is empty, the term is not a tuple or the tuple has no such element; `value` is then dropped.
    #[inline(always)]
    pub fn set_element(&mut self, index: usize, value: Packed)
        ensures { self.new ≡ with_element_in_first index value self.old }
    {
        match &mut self.terms {
            Terms::Empty => {}
            Terms::One(term) => term.set_element(index, value),
            Terms::Several(terms) => set_in_first(terms, index, value),
        }
    }

    /// Removes the last term and returns it, or returns `None` if the chain is empty.
    pub fn pop(&mut self) -> Option<Object>
        ensures { MatchOption result ((self.old ≡ []) × (self.new ≡ [])) (λ last. self.old ≡ self.new ++ last ∷ []) }
    {
        match mem::replace(&mut self.terms, Terms::Empty) {
            Terms::Empty => None,
            Terms::One(term) => Some(term),
            Terms::Several(mut terms) => {
                let last = terms.pop();
                self.terms = Terms::Several(terms);
                last
            }
        }
    }

    /// Keeps the first `len` terms, or all if there are fewer.
    pub fn truncate(&mut self, len: usize)
        ensures { self.new ≡ take len self.old }
    {
        match &mut self.terms {
            Terms::Several(terms) => terms.truncate(len),
            _ => {
                if len == 0 {
                    self.terms = Terms::Empty;
                }
            }
        }
    }

    /// Removes every term that equals `term` and returns their number. The others keep their order.
    pub fn remove_all(&mut self, term: &Term) -> usize
        ensures rest { self.new ≡ all_but term.now self.old }
        ensures count { length self.new + result ≡ length self.old }
    {
        let old_len = self.len();
        match &mut self.terms {
            Terms::Empty => {}
            Terms::One(own) => {
                if own.is_equal(term) {
                    self.terms = Terms::Empty;
                }
            }
            Terms::Several(terms) => keep_others(terms, term),
        }
        old_len - self.len()
    }
}

/// Returns a chain's two terms, and `Ok`. If memory is refused, returns the first term alone, and the error.
fn two(alloc: Global, first: Object, second: Object) -> (Terms, Result<(), AllocError>)
    ensures ok { OnOk result.1 (terms_of result.0 ≡ first ∷ second ∷ []) }
    ensures err { OnErr result.1 (terms_of result.0 ≡ first ∷ []) }
{
    match SmallVec::with_capacity(alloc, 2) {
        Ok(mut terms) => {
            terms.push_reserved(first);
            terms.push_reserved(second);
            (Terms::Several(terms), Ok(()))
        }
        Err(error) => (Terms::One(first), Err(error)),
    }
}

/// Returns the terms with one more at the end, and `Ok`. If memory is refused, returns the terms as they are, and the
/// error.
fn more(mut terms: SmallVec<Object, 0>, term: Object) -> (Terms, Result<(), AllocError>)
    ensures ok { OnOk result.1 (terms_of result.0 ≡ terms.items ++ term ∷ []) }
    ensures err { OnErr result.1 (terms_of result.0 ≡ terms.items) }
{
    match terms.push(term) {
        Ok(()) => (Terms::Several(terms), Ok(())),
        Err(_) => (Terms::Several(terms), Err(AllocError)),
    }
}

/// Sets an element of the first term, as `Object::set_element` does. Changes nothing if there is no term.
#[inline]
fn set_in_first(terms: &mut SmallVec<Object, 0>, index: usize, value: Packed)
    ensures { terms.new.items ≡ with_element_in_first index value terms.old.items }
{
    if terms.len() == 0 {
        return;
    }
    terms.as_mut_slice()[0].set_element(index, value);
}

/// Removes every term that equals `term`. The others keep their order.
fn keep_others(terms: &mut SmallVec<Object, 0>, term: &Term)
    ensures rest { terms.new.items ≡ all_but term.now terms.old.items }
    ensures fewer { length terms.new.items ≤ length terms.old.items }
{
    terms.retain(|t| !t.is_equal(term));
}
