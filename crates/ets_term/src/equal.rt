//! The equality of terms, computed without their order.
ghost use Rattle.std.specs.Prelude.{◌≡◌, true, false, map};
ghost use Rattle.std.specs.Ordering.{is_eq};
ghost use Rattle.ets_term.specs.Data.{data_list, data_of};
ghost use Rattle.ets_term.specs.Order.{same, data_list_order};

use crate::term::Term;

/// Returns whether two terms are equal (`=:=`): of the same kind, with equal parts.
#[cycle(equal)]
#[tactic(auto)]
pub fn equal_terms(a: &Term, b: &Term) -> bool
    ensures { result ≡ same a.now b.now }
{
    match (a, b) {
        (Term::Int(x), Term::Int(y)) => x == y,
        (Term::Atom(x), Term::Atom(y)) => x.text() == y.text(),
        (Term::Pid(x), Term::Pid(y)) => x == y,
        (Term::Tid(x), Term::Tid(y)) => x == y,
        (Term::Tuple(x), Term::Tuple(y)) => equal_items(x.as_slice(), y.as_slice()),
        (Term::List(x), Term::List(y)) => equal_items(x.as_slice(), y.as_slice()),
        (Term::Binary(x), Term::Binary(y)) => x.as_slice() == y.as_slice(),
        // Terms of different kinds.
        _ => false,
    }
}

/// Returns whether two lists of terms are equal. Compares from the end, because two objects with the same key often
/// differ in later elements only.
#[cycle(equal)]
#[tactic(auto, using(crate::proofs::DataListLaws::last_differs))]
fn equal_items(xs: &[Term], ys: &[Term]) -> bool
    ensures { result ≡ is_eq (data_list_order (data_list (map data_of xs.now)) (data_list (map data_of ys.now))) }
{
    if xs.len() != ys.len() {
        return false;
    }
    let len = xs.len();
    if len > 0 && integers_differ(&xs[len - 1], &ys[len - 1]) {
        return false;
    }
    for at in (0..len).rev() {
        if !equal_terms(&xs[at], &ys[at]) {
            return false;
        }
    }
    true
}

/// Returns whether two terms are different integers. `equal_items` tests this first, because the test takes no
/// recursive call.
fn integers_differ(a: &Term, b: &Term) -> bool
    ensures { result ≡ true → same a.now b.now ≡ false }
{
    match (a, b) {
        (Term::Int(x), Term::Int(y)) => x != y,
        _ => false,
    }
}
