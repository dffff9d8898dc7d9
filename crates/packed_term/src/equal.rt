//! The equality of packed terms and terms.
ghost use Rattle.std.specs.Prelude.{◌≡◌, true, false, map};
ghost use Rattle.std.specs.Ordering.{is_eq};
ghost use Rattle.ets_term.specs.Data.{data_list, data_of};
ghost use Rattle.ets_term.specs.Order.{same, data_list_order};

use crate::form::Form;
use crate::packed::Packed;
use ets_term::Term;

/// Returns whether a packed term and a term are equal (`=:=`). Takes no memory.
#[cycle(equal)]
pub(crate) fn is_equal(packed: &Packed, term: &Term) -> bool
    ensures { result ≡ same packed.now term.now }
{
    match (&packed.form, term) {
        (Form::Small(m), Term::Int(n)) => i128::from(*m) == *n,
        (Form::Wide(m), Term::Int(n)) => **m == *n,
        (Form::Name { len, bytes }, Term::Atom(atom)) => {
            &bytes[..*len as usize] == atom.text().as_bytes()
        }
        (Form::Atom(own), Term::Atom(atom)) => own.text() == atom.text(),
        (Form::Pid(m), Term::Pid(n)) => m == n,
        (Form::Tid(m), Term::Tid(n)) => m == n,
        (Form::Pair(parts), Term::Tuple(items)) => are_equal(&parts[..], items.as_slice()),
        (Form::Triple(parts), Term::Tuple(items)) => are_equal(&parts[..], items.as_slice()),
        (Form::Tuple(parts), Term::Tuple(items)) => are_equal(parts.as_slice(), items.as_slice()),
        (Form::List(parts), Term::List(items)) => are_equal(parts.as_slice(), items.as_slice()),
        (Form::Short { len, bytes }, Term::Binary(binary)) => {
            &bytes[..*len as usize] == binary.as_slice()
        }
        (Form::Binary(own), Term::Binary(binary)) => own.as_slice() == binary.as_slice(),
        // Terms of different kinds.
        _ => false,
    }
}

/// Returns whether each packed term and the term at its index are equal, and there are as many of both. Compares from
/// the end, because two objects with the same key often differ in later elements only.
#[cycle(equal)]
pub(crate) fn are_equal(parts: &[Packed], terms: &[Term]) -> bool
    ensures { result ≡ is_eq (data_list_order (data_list (map data_of parts.now)) (data_list (map data_of terms.now))) }
{
    if parts.len() != terms.len() {
        return false;
    }
    for at in (0..parts.len()).rev() {
        if !is_equal(&parts[at], &terms[at]) {
            return false;
        }
    }
    true
}
