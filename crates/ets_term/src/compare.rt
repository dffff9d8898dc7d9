//! The order of terms, `cmp_terms`, and the comparison operators of Rust, which agree with it.
ghost use Rattle.std.proofs.Common.{rules};
ghost use Rattle.std.specs.Prelude.{◌≡◌, ◌↔◌, map};
ghost use Rattle.std.specs.Ordering.{as_partial_cmp};
ghost use Rattle.std.specs.Cmp.Rules.{comparing};
ghost use Rattle.ets_term.specs.Data.{data_list, data_of};
ghost use Rattle.ets_term.specs.Order.{order, same, data_list_order, rank};
ghost use Rattle.ets_term.specs.laws.Ordered.{order_total};

use crate::equal::equal_terms;
use crate::term::Term;
use std::cmp::Ordering;

impl Term {
    /// Compares the term with another. Returns `Equal` exactly if the terms are equal (`=:=`).
    ///
    /// The kinds are in the order integer < atom < table identifier < pid < tuple < list < binary (Erlang Reference
    /// Manual, Expressions, Term Comparisons). Tuples compare by size first, then element by element. Other terms of
    /// one kind compare part by part, and a proper prefix is less. Identifiers and pids compare by their numbers, which
    /// is this project's choice.
    pub fn cmp_terms(&self, other: &Term) -> Ordering
        ensures order { result ≡ order self.now other.now }
        ensures equal { result ≡ Ordering.Equal ↔ self.now ≡ other.now }
    {
        self.cmp(other)
    }
}

// In this file, `ghost eq`, `partial_cmp` and `cmp` say what the comparisons return. The other `ghost` lines in the
// implementations are proofs.
impl PartialEq for Term {
    ghost eq = { same };

    ghost laws = { Prim.search (comparing, order_total, rules) };

    #[inline(always)]
    fn eq(&self, other: &Term) -> bool {
        match (self, other) {
            // Two integers are compared here, without a call.
            (Term::Int(x), Term::Int(y)) => x == y,
            _ => equal_terms(self, other),
        }
    }
}

impl Eq for Term {
    ghost laws = { Prim.search (comparing, order_total, rules) };
}

impl PartialOrd for Term {
    ghost partial_cmp = { as_partial_cmp order };

    ghost laws = { Prim.search (comparing, order_total, rules) };

    fn partial_cmp(&self, other: &Term) -> Option<Ordering> {
        Some(self.cmp(other))
    }
}

impl Ord for Term {
    ghost cmp = { order };

    ghost total = { Prim.search (comparing, order_total, rules) };

    ghost matches_partial_cmp = { Prim.search (comparing, rules) };

    ghost matches_eq = { Prim.search (comparing, rules) };

    fn cmp(&self, other: &Term) -> Ordering {
        compare(self, other)
    }
}

/// Returns the order of two terms, which `Term::cmp_terms` describes.
#[cycle(compare)]
#[tactic(auto, using(crate::proofs::DataLists::data_list_len_of, crate::proofs::DataLists::decided))]
fn compare(a: &Term, b: &Term) -> Ordering
    ensures { result ≡ order a.now b.now }
{
    match (a, b) {
        (Term::Int(x), Term::Int(y)) => x.cmp(y),
        (Term::Atom(x), Term::Atom(y)) => x.text().cmp(y.text()),
        (Term::Pid(x), Term::Pid(y)) => x.cmp(y),
        (Term::Tid(x), Term::Tid(y)) => x.cmp(y),
        (Term::Tuple(x), Term::Tuple(y)) => match x.len().cmp(&y.len()) {
            Ordering::Equal => compare_items(x.as_slice(), y.as_slice()),
            // Tuples of different sizes.
            by_size => by_size,
        },
        (Term::List(x), Term::List(y)) => compare_items(x.as_slice(), y.as_slice()),
        (Term::Binary(x), Term::Binary(y)) => x.as_slice().cmp(y.as_slice()),
        // Terms of different kinds.
        _ => kind_rank(a).cmp(&kind_rank(b)),
    }
}

/// Compares two lists of terms, element by element. A proper prefix is less.
#[cycle(compare)]
fn compare_items(xs: &[Term], ys: &[Term]) -> Ordering
    ensures { result ≡ data_list_order (data_list (map data_of xs.now)) (data_list (map data_of ys.now)) }
{
    // The number of indices that both lists have.
    let both = xs.len().min(ys.len());
    for i in 0..both {
        // The order of the two elements at index `i`.
        let here = compare(&xs[i], &ys[i]);
        if here != Ordering::Equal {
            return here;
        }
    }
    xs.len().cmp(&ys.len())
}

/// Returns the rank of the term's kind in the order, from 0 for integers, the least, to 6 for binaries.
fn kind_rank(term: &Term) -> u8
    ensures { result ≡ rank (data_of term.now) }
{
    match term {
        Term::Int(_) => 0,
        Term::Atom(_) => 1,
        Term::Tid(_) => 2,
        Term::Pid(_) => 3,
        Term::Tuple(_) => 4,
        Term::List(_) => 5,
        Term::Binary(_) => 6,
    }
}
