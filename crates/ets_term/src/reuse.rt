//! Copies of terms that reuse the memory of other terms.
ghost use Rattle.std.specs.Prelude.{◌≡◌, ◌<◌, OnOk, length, slice_set};

use crate::items::Items;
use crate::term::Term;
use std::alloc::{AllocError, Global};

impl Term {
    /// Makes `target` equal to this term. A tuple of `target` is reused for a tuple of the same length, and a list for
    /// a list of the same length: their memory is not allocated again.
    ///
    /// If memory is refused, `target` is still a term, but some of its parts may be replaced already.
    pub fn clone_into(&self, alloc: Global, target: &mut Term) -> Result<(), AllocError>
        ensures { OnOk result (target.new ≡ self.now) }
    {
        overwrite_term(alloc, self, target)
    }
}

impl Items<Term> {
    /// Makes each item equal to the term at its index, and reuses memory as `Term::clone_into` does.
    ///
    /// If memory is refused, the number of items is as before, but some items may be replaced already.
    pub fn write_copies(&mut self, alloc: Global, terms: &[Term]) -> Result<(), AllocError>
        requires { length self.old ≡ length terms.now }
        ensures { OnOk result (self.new ≡ terms.now) }
    {
        overwrite_terms(alloc, terms, self.items.as_mut_slice())
    }
}

/// Makes `target` equal to a term, as `Term::clone_into` does. If the term is an integer, it calls no other function.
#[cycle(reuse)]
#[inline(always)]
fn overwrite_term(alloc: Global, term: &Term, target: &mut Term) -> Result<(), AllocError>
    ensures { OnOk result (target.new ≡ term.now) }
{
    match term {
        Term::Int(n) => {
            *target = Term::Int(*n);
            return Ok(());
        }
        // `parts` are the elements of the term, and `own` those of `target`.
        Term::Tuple(parts) => {
            if let Term::Tuple(own) = target {
                if own.len() == parts.len() {
                    return overwrite_terms(alloc, parts.as_slice(), own.items.as_mut_slice());
                }
            }
        }
        Term::List(parts) => {
            if let Term::List(own) = target {
                if own.len() == parts.len() {
                    return overwrite_terms(alloc, parts.as_slice(), own.items.as_mut_slice());
                }
            }
        }
        _ => {}
    }
    // In all other cases, a new copy of the term replaces `target`.
    *target = term.try_clone(alloc)?;
    Ok(())
}

/// Makes each term of `target` equal to the term at its index.
#[cycle(reuse)]
fn overwrite_terms(alloc: Global, terms: &[Term], target: &mut [Term]) -> Result<(), AllocError>
    requires { length target.old ≡ length terms.now }
    ensures { OnOk result (target.new ≡ terms.now) }
{
    for at in 0..terms.len() {
        overwrite_term(alloc, &terms[at], &mut target[at])?;
    }
    Ok(())
}
