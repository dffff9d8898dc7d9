//! Random expressions of match specifications, for their conditions and bodies. They are built from a pool of
//! expressions, and some of them are refused. `None` means out of memory.
use super::Random;
use crate::tests::forms::{atom, one_item};
use ets_term::{Items, Term};
use std::alloc::Global;

impl Random {
    /// Draws an expression without parts: a variable, an atom, an empty list or another leaf.
    fn expression_leaf(&mut self, alloc: Global) -> Option<Term> {
        match self.random_below(12) {
            0 => atom(alloc, "$0"),
            1 => atom(alloc, "$1"),
            2 => atom(alloc, "$_"),
            3 => atom(alloc, "$$"),
            4 => atom(alloc, "_"),
            5 => Some(Term::List(Items::new(alloc))),
            _ => self.random_leaf(alloc),
        }
    }

    /// Draws the name of a function and its usual number of arguments. `and`, `or`, `andalso` and `orelse` take one or
    /// more arguments. Two of them usually get three here, so that they are tested with more than two.
    fn random_function(&mut self) -> (&'static str, u64) {
        match self.random_below(34) {
            0 => ("is_atom", 1),
            1 => ("is_integer", 1),
            2 => ("is_number", 1),
            3 => ("is_list", 1),
            4 => ("is_tuple", 1),
            5 => ("is_binary", 1),
            6 => ("is_pid", 1),
            7 => ("is_reference", 1),
            8 => ("not", 1),
            9 => ("abs", 1),
            10 => ("hd", 1),
            11 => ("tl", 1),
            12 => ("length", 1),
            13 => ("size", 1),
            14 => ("xor", 2),
            15 => ("element", 2),
            16 => ("+", 2),
            17 => ("-", 2),
            18 => ("*", 2),
            19 => ("div", 2),
            20 => ("rem", 2),
            21 => (">", 2),
            22 => (">=", 2),
            23 => ("<", 2),
            24 => ("=<", 2),
            25 => ("=:=", 2),
            26 => ("==", 2),
            27 => ("=/=", 2),
            28 => ("/=", 2),
            29 => ("and", 3),
            30 => ("or", 2),
            31 => ("andalso", 3),
            32 => ("orelse", 2),
            _ => ("const", 1),
        }
    }

    /// Builds the call of a random function, `{Name,Argument,..}`, with arguments from the pool. It has the usual
    /// number of arguments, or in 1 of 40 cases a random number, which is often refused.
    fn application(&mut self, alloc: Global, pool: &[Term]) -> Option<Term> {
        let (name, count) = self.random_function();
        let count = if self.random_below(40) == 0 {
            self.random_below(4)
        } else {
            count
        };
        let mut parts = one_item(alloc, atom(alloc, name)?)?;
        self.push_random_copies(alloc, pool, count, &mut parts)?;
        Some(Term::Tuple(parts))
    }

    /// Builds an expression of the expressions in the pool: a list, a list of a tuple, a tuple `{{..}}` or the call of
    /// a function.
    fn expression(&mut self, alloc: Global, pool: &[Term]) -> Option<Term> {
        match self.random_below(8) {
            0 => Some(Term::List(self.random_copies(alloc, pool, 2)?)),
            1 => Some(Term::List(one_item(alloc, self.random_tuple(alloc, pool, 1)?)?)),
            2 => Some(Term::Tuple(one_item(alloc, self.random_tuple(alloc, pool, 2)?)?)),
            _ => self.application(alloc, pool),
        }
    }

    /// Builds a tuple of up to `most` copies of the terms in the pool.
    fn random_tuple(&mut self, alloc: Global, pool: &[Term], most: u64) -> Option<Term> {
        Some(Term::Tuple(self.random_copies(alloc, pool, most)?))
    }

    /// Pushes four expressions without parts, and four that are built of those in the pool.
    fn push_expressions(&mut self, alloc: Global, pool: &mut Vec<Term>) -> Option<()> {
        for _ in 0..4 {
            pool.push(self.expression_leaf(alloc)?).ok()?;
        }
        for _ in 0..4 {
            let expression = self.expression(alloc, pool.as_slice())?;
            pool.push(expression).ok()?;
        }
        Some(())
    }

    /// Builds a list of up to `most` expressions.
    pub(super) fn expression_list(&mut self, alloc: Global, most: u64) -> Option<Term> {
        let mut pool = Vec::new(alloc);
        self.push_expressions(alloc, &mut pool)?;
        Some(Term::List(self.random_copies(alloc, pool.as_slice(), most)?))
    }
}
