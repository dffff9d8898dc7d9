//! The tests of a term before it is inserted as an object: its key at keypos, and its depth. Also the search for an
//! equal object.
ghost use Rattle.std.specs.Prelude.{◌≡◌, option_copied};
ghost use Rattle.std.specs.List.{list_any, list_all};
ghost use Rattle.ets_term.specs.Depth.{is_too_deep};
ghost use Rattle.ets_term.specs.Order.{same};
ghost use Rattle.table_ops.specs.Content.{key_of, is_object};

use ets_term::{Position, Term};
use packed_term::Object;

/// Returns the key of an object: the element of the tuple at `keypos`, counted from 1. Returns `None` if the term is
/// not an object: it is not a tuple, has no such element, or the element is the atom `'$end_of_table'`.
pub fn key_of(keypos: u32, object: &Term) -> Option<&Term>
    ensures { option_copied result ≡ key_of keypos object.now }
{
    let key = object.element(keypos as Position)?;
    if key.is_atom("$end_of_table") {
        None
    } else {
        Some(key)
    }
}

/// Returns whether the term can be an object of a table with this keypos.
fn is_object(keypos: u32, term: &Term) -> bool
    ensures { result ≡ is_object keypos term.now }
{
    match key_of(keypos, term) {
        Some(_) => true,
        None => false,
    }
}

/// Returns whether each of the terms can be an object of a table with this keypos.
pub fn are_objects(keypos: u32, terms: &[Term]) -> bool
    ensures { result ≡ list_all (is_object keypos) terms.now }
{
    terms.iter().all(|term| is_object(keypos, term))
}

/// Returns whether any of the terms is too deep for an object.
pub fn any_too_deep(terms: &[Term]) -> bool
    ensures { result ≡ list_any is_too_deep terms.now }
{
    terms.iter().any(|term| term.is_too_deep())
}

/// Returns whether an object equals one of `objects`.
pub fn contains(objects: &[Object], object: &Term) -> bool
    ensures { result ≡ list_any (same object.now) objects.now }
{
    objects.iter().any(|other| are_equal(object, other))
}

/// Returns whether an object equals a stored object.
#[inline(always)]
fn are_equal(object: &Term, stored: &Object) -> bool
    ensures { result ≡ same object.now stored.now }
{
    stored.is_equal(object)
}
