//! A compiled pattern as a tree, and the test whether an object fits it. The test stores no bindings: it compares a
//! repeated variable with the subterm at the path (element indices) of its first occurrence.
ghost use Rattle.std.specs.Prelude.{◌≡◌, map};
ghost use Rattle.ets_term.specs.Data.{data_of, data_list};
ghost use Rattle.match_spec.specs.inside.CompiledPatterns.{part_fits, all_fit};

use crate::pattern::path::subterm_at;
use ets_term::{Items, Term};

/// A part of a compiled pattern. A variable is compiled to `Wildcard` at its first occurrence, and to `Repeated`, with
/// the path of its first occurrence, at later ones.
#[derive(Drop)]
pub(crate) enum Part {
    /// Fits any term.
    Wildcard,
    /// Fits a term that equals the subterm of the object at this path.
    Repeated(Items<usize>),
    /// Fits a tuple of the same length, each element of which fits its part.
    Tuple(Items<Part>),
    /// Fits a list of the same length, each element of which fits its part.
    List(Items<Part>),
    /// Fits an equal term.
    Literal(Term),
}

/// Checks whether `term`, a subterm of `object`, fits the part. The value of a repeated variable is read in `object`.
#[cycle(fits)]
pub(crate) fn fits(part: &Part, object: &Term, term: &Term) -> bool
    ensures { result ≡ part_fits part.now (data_of object.now) (data_of term.now) }
{
    match (part, term) {
        (Part::Wildcard, _) => true,
        (Part::Repeated(path), _) => *subterm_at(path.as_slice(), object) == *term,
        (Part::Tuple(parts), Term::Tuple(items)) => all_fit(
            parts.as_slice(),
            object,
            items.as_slice(),
        ),
        (Part::List(parts), Term::List(items)) => all_fit(
            parts.as_slice(),
            object,
            items.as_slice(),
        ),
        (Part::Literal(literal), _) => *literal == *term,
        _ => false,
    }
}

/// Checks whether there are as many terms as parts, and each fits its part.
#[cycle(fits)]
fn all_fit(parts: &[Part], object: &Term, terms: &[Term]) -> bool
    ensures { result ≡ all_fit (map part_fits parts.now) (data_of object.now) (data_list (map data_of terms.now)) }
{
    if parts.len() != terms.len() {
        return false;
    }
    for i in 0..parts.len() {
        if !element_fits(&parts[i], object, &terms[i]) {
            return false;
        }
    }
    true
}

/// Does what `fits` does, but without a call of `fits` for a wildcard.
#[inline(always)]
#[cycle(fits)]
fn element_fits(part: &Part, object: &Term, term: &Term) -> bool
    ensures { result ≡ part_fits part.now (data_of object.now) (data_of term.now) }
{
    match part {
        Part::Wildcard => true,
        _ => fits(part, object, term),
    }
}
