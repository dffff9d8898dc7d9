//! Copies and comparisons of lists of terms, for the arguments of calls and for replies. The objects of a table are
//! packed, and their copies are terms.
ghost use Rattle.std.specs.Prelude.{◌≡◌, IfOk, OnOk, length};
ghost use Rattle.std.specs.Bool.{Decides};

use ets_term::{Items, Term};
use packed_term::Object;
use std::alloc::{AllocError, Global};
use std::mem;

/// Copies the terms, in order.
pub fn copy_terms(alloc: Global, terms: &[Term]) -> Result<Items<Term>, AllocError>
    ensures { IfOk result (λ copies. copies ≡ terms.now) }
{
    let mut copies = Vec::with_capacity(alloc, terms.len())?;
    for term in terms {
        copies.push_reserved(term.try_clone(alloc)?);
    }
    Ok(Items::from_vec(copies))
}

/// Returns copies of the objects, in order.
pub fn copy_objects(alloc: Global, objects: &[Object]) -> Result<Items<Term>, AllocError>
    ensures { IfOk result (λ copies. copies ≡ objects.now) }
{
    let mut copies = Vec::with_capacity(alloc, objects.len())?;
    for object in objects {
        copies.push_reserved(object.unpack(alloc)?);
    }
    Ok(Items::from_vec(copies))
}

/// Makes each item equal to the object at its index, and reuses the memory of the items.
#[inline(always)]
pub fn write_objects(
    alloc: Global,
    objects: &[Object],
    items: &mut Items<Term>,
) -> Result<(), AllocError>
    requires { length items.old ≡ length objects.now }
    ensures { OnOk result (items.new ≡ objects.now) }
{
    let mut terms = mem::replace(items, Items::new(alloc)).into_vec();
    let written = write_each(alloc, objects, terms.as_mut_slice());
    *items = Items::from_vec(terms);
    written
}

/// Makes each term equal to the object at its index.
fn write_each(alloc: Global, objects: &[Object], terms: &mut [Term]) -> Result<(), AllocError>
    requires { length terms.old ≡ length objects.now }
    ensures { OnOk result (terms.new ≡ objects.now) }
{
    for at in 0..objects.len() {
        objects[at].unpack_into(alloc, &mut terms[at])?;
    }
    Ok(())
}

/// Checks whether two terms are equal.
pub fn equals(term: &Term, other: &Term) -> bool
    ensures { Decides result (term.now ≡ other.now) }
{
    term == other
}

/// Checks whether the lists have the same length, and equal terms at each index.
pub fn same_terms(terms: &[Term], others: &[Term]) -> bool
    ensures { Decides result (terms.now ≡ others.now) }
{
    terms == others
}
