//! Random objects, patterns and match specifications, the same in each run. They are built from pools of terms, which
//! grow by tuples and lists of the terms in them.
// `None` means out of memory. No pool is empty when a term is drawn from it.
use super::*;
use crate::tests::forms::{atom, copy, triple};

mod expressions;

/// The factor of Knuth's linear congruential generator of 64 bits.
const FACTOR: u64 = 6364136223846793005;

/// The increment of the same generator.
const INCREMENT: u64 = 1442695040888963407;

/// Pseudo-random numbers, the same in each run.
#[derive(Drop)]
pub(crate) struct Random {
    /// The last number of the sequence. The next is computed from it.
    state: u64,
}

impl Random {
    /// Builds a generator that starts at a seed.
    pub(crate) fn new(seed: u64) -> Random {
        Random { state: seed }
    }

    /// Draws a number below `n`, or 0 if `n` is 0. The number is made from the high bits of the next state, because the
    /// low bits of such a generator repeat soon.
    fn random_below(&mut self, n: u64) -> u64 {
        self.state = self.state.wrapping_mul(FACTOR).wrapping_add(INCREMENT);
        (self.state >> 33).checked_rem(n).unwrap_or(0)
    }

    /// Returns a copy of one of the terms, drawn at random.
    fn random_copy(&mut self, alloc: Global, terms: &[Term]) -> Option<Term> {
        let at = self.random_below(terms.len() as u64) as usize;
        copy(alloc, terms.get(at)?)
    }

    /// Returns at most `most` copies, each of a term that is drawn from `terms`. Their number is random.
    fn random_copies(&mut self, alloc: Global, terms: &[Term], most: u64) -> Option<Items<Term>> {
        let mut copies = Items::new(alloc);
        let count = self.random_below(most.saturating_add(1));
        self.push_random_copies(alloc, terms, count, &mut copies)?;
        Some(copies)
    }

    /// Pushes `count` copies, each of a term that is drawn from `terms`.
    fn push_random_copies(
        &mut self,
        alloc: Global,
        terms: &[Term],
        count: u64,
        copies: &mut Items<Term>,
    ) -> Option<()> {
        for _ in 0..count {
            copies.push(self.random_copy(alloc, terms)?).ok()?;
        }
        Some(())
    }

    /// Draws a term that is not a tuple or a list: an atom, an integer, a pid, a table identifier or a binary.
    /// The largest integer is 2^64 + 1, which 64 bits do not hold.
    fn random_leaf(&mut self, alloc: Global) -> Option<Term> {
        match self.random_below(10) {
            0 => atom(alloc, "true"),
            1 => atom(alloc, "false"),
            2 => Some(Term::Int(self.random_below(3) as Integer)),
            3 => Some(Term::Int(Integer::MIN)),
            4 => Some(Term::Int(-2)),
            5 => Some(Term::Int(18446744073709551617)),
            6 => Some(Term::Pid(7)),
            7 => Some(Term::Tid(7)),
            8 => Some(Term::Binary(Items::from_vec(b"ab".to_vec(alloc).ok()?))),
            _ => atom(alloc, "a"),
        }
    }

    /// Builds a tuple or a list of up to two of the terms.
    fn random_tuple_or_list(&mut self, alloc: Global, terms: &[Term]) -> Option<Term> {
        let inner = self.random_copies(alloc, terms, 2)?;
        if self.random_below(2) == 0 {
            Some(Term::Tuple(inner))
        } else {
            Some(Term::List(inner))
        }
    }

    /// Pushes four leaves, and two tuples or lists of the terms in the pool.
    fn push_terms(&mut self, alloc: Global, pool: &mut Vec<Term>) -> Option<()> {
        for _ in 0..4 {
            pool.push(self.random_leaf(alloc)?).ok()?;
        }
        for _ in 0..2 {
            let term = self.random_tuple_or_list(alloc, pool.as_slice())?;
            pool.push(term).ok()?;
        }
        Some(())
    }

    /// Builds a tuple of up to three elements. An element can be a tuple or a list.
    pub(crate) fn object(&mut self, alloc: Global) -> Option<Term> {
        let mut pool = Vec::new(alloc);
        self.push_terms(alloc, &mut pool)?;
        Some(Term::Tuple(self.random_copies(alloc, pool.as_slice(), 3)?))
    }

    /// Draws a part of a pattern from a term: `_`, a variable, a leaf, the atom `$01`, which is not a variable, or a
    /// copy of the term.
    fn variable_or_copy(&mut self, alloc: Global, term: &Term) -> Option<Term> {
        match self.random_below(8) {
            0 => atom(alloc, "_"),
            1 => atom(alloc, "$0"),
            2 => atom(alloc, "$1"),
            3 => atom(alloc, "$2"),
            4 => self.random_leaf(alloc),
            5 => atom(alloc, "$01"),
            _ => copy(alloc, term),
        }
    }

    /// Builds a part of a pattern from a part of an object. Half of the tuples and lists get variables inside.
    fn pattern_part(&mut self, alloc: Global, term: &Term) -> Option<Term> {
        match term {
            Term::Tuple(inner) if self.random_below(2) == 0 => {
                Some(Term::Tuple(self.variables_or_copies(alloc, inner.as_slice())?))
            }
            Term::List(inner) if self.random_below(2) == 0 => {
                Some(Term::List(self.variables_or_copies(alloc, inner.as_slice())?))
            }
            _ => self.variable_or_copy(alloc, term),
        }
    }

    /// Builds the parts of a pattern from those of an object.
    fn pattern_parts(&mut self, alloc: Global, terms: &[Term]) -> Option<Items<Term>> {
        let mut parts = Items::new(alloc);
        for term in terms {
            parts.push(self.pattern_part(alloc, term)?).ok()?;
        }
        Some(parts)
    }

    /// Builds the items of an inner tuple or list of a pattern from those of an object.
    fn variables_or_copies(&mut self, alloc: Global, terms: &[Term]) -> Option<Items<Term>> {
        let mut parts = Items::new(alloc);
        for term in terms {
            parts.push(self.variable_or_copy(alloc, term)?).ok()?;
        }
        Some(parts)
    }

    /// Builds a pattern: the object with variables and other terms in place of some of its parts, or in 1 of 10 cases
    /// `_`.
    pub(crate) fn pattern(&mut self, alloc: Global, object: &Term) -> Option<Term> {
        match object {
            Term::Tuple(items) if self.random_below(10) > 0 => {
                Some(Term::Tuple(self.pattern_parts(alloc, items.as_slice())?))
            }
            _ => atom(alloc, "_"),
        }
    }

    /// Builds a clause with a pattern made from the object, up to one condition, and a body of up to two expressions.
    fn clause(&mut self, alloc: Global, object: &Term) -> Option<Term> {
        let pattern = self.pattern(alloc, object)?;
        let conditions = self.expression_list(alloc, 1)?;
        let body = self.expression_list(alloc, 2)?;
        triple(alloc, pattern, conditions, body)
    }

    /// Builds a match specification of one or two clauses whose patterns are made from the object.
    pub(crate) fn spec(&mut self, alloc: Global, object: &Term) -> Option<Term> {
        let mut clauses = Items::new(alloc);
        for _ in 0..self.random_below(2).saturating_add(1) {
            clauses.push(self.clause(alloc, object)?).ok()?;
        }
        Some(Term::List(clauses))
    }
}
