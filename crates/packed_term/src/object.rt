//! A stored object.
ghost use Rattle.std.specs.Prelude.{◌≡◌, IfOk, IfSome, OnOk, [], ◌∷◌, option_copied};
ghost use Rattle.ets_term.specs.declared.term.Term.TheVariants.{Int, Tuple};
ghost use Rattle.ets_term.specs.Depth.{element_at, elements};
ghost use Rattle.ets_term.specs.Order.{same};
ghost use Rattle.packed_term.specs.Elements.{with_element};

use crate::equal::are_equal;
use crate::pack::small;
use crate::packed::{Packed, element_of};
use crate::reuse::unpack_all_into;
use crate::set::set_at;
use crate::unpack::unpack_all;
use ets_term::{Position, Term};
use std::alloc::{AllocError, Global};
use std::marker::Model;

/// A term with the elements of a pair in place: an object of a table. It takes 40 bytes, and its larger parts memory of
/// their own.
#[derive(Drop)]
pub struct Object {
    pub(crate) parts: Parts,
}

/// The parts of an object.
#[derive(Drop)]
pub(crate) enum Parts {
    /// A tuple of two elements.
    Pair([Packed; 2]),
    /// Any other term.
    Other(Packed),
}

// The value that contracts see of this type (`view`).
impl Model for Object {
    ghost use Rattle.ets_term.specs.declared.term.Term.{Term};
    ghost use Rattle.ets_term.specs.contracts.term.Term as term;

    ghost Value = { Term };

    ghost coded = { term.the_row.coded };

    ghost use Rattle.packed_term.specs.Objects.{object_of};

    ghost view = { λ o. object_of o.parts };
}

impl Object {
    /// Returns the packed form of a term, or an error if memory is refused. A pair of integers of 64 bits calls no other
    /// function.
    #[inline(always)]
    pub fn pack(alloc: Global, term: &Term) -> Result<Object, AllocError>
        ensures { IfOk result (λ o. o ≡ term.now) }
    {
        if let Some((m, n)) = small_pair(term) {
            return Ok(Object {
                parts: Parts::Pair([Packed::from(m), Packed::from(n)]),
            });
        }
        // Moves the result of the call by `?`. Without it, the call writes to the result of this function, and then the
        // result above goes through memory too.
        Ok(pack_any(alloc, term)?)
    }

    /// Returns the term, or an error if memory is refused.
    pub fn unpack(&self, alloc: Global) -> Result<Term, AllocError>
        ensures { IfOk result (λ t. t ≡ self.now) }
    {
        match &self.parts {
            Parts::Pair(parts) => Ok(Term::Tuple(unpack_all(alloc, &parts[..])?)),
            Parts::Other(term) => term.unpack(alloc),
        }
    }

    /// Makes `target` equal to this term, and reuses the memory of its tuples and lists.
    ///
    /// If memory is refused, `target` is still a term, but some of its parts may be replaced already.
    pub fn unpack_into(&self, alloc: Global, target: &mut Term) -> Result<(), AllocError>
        ensures { OnOk result (target.new ≡ self.now) }
    {
        match &self.parts {
            Parts::Pair(parts) => {
                if let Term::Tuple(own) = target {
                    if own.len() == 2 {
                        return unpack_all_into(alloc, &parts[..], own);
                    }
                }
                *target = Term::Tuple(unpack_all(alloc, &parts[..])?);
                Ok(())
            }
            Parts::Other(term) => term.unpack_into(alloc, target),
        }
    }

    /// Returns a copy, or an error if memory is refused.
    pub fn try_clone(&self, alloc: Global) -> Result<Object, AllocError>
        ensures { IfOk result (λ o. o ≡ self.now) }
    {
        match &self.parts {
            Parts::Pair(parts) => {
                let first = parts[0].try_clone(alloc)?;
                let second = parts[1].try_clone(alloc)?;
                Ok(Object {
                    parts: Parts::Pair([first, second]),
                })
            }
            Parts::Other(term) => Ok(Object {
                parts: Parts::Other(term.try_clone(alloc)?),
            }),
        }
    }

    /// Returns whether this object equals a term (`=:=`). Takes no memory.
    pub fn is_equal(&self, term: &Term) -> bool
        ensures { result ≡ same self.now term.now }
    {
        match &self.parts {
            Parts::Pair(parts) => match term {
                Term::Tuple(items) => are_equal(&parts[..], items.as_slice()),
                _ => false,
            },
            Parts::Other(own) => own.is_equal(term),
        }
    }

    /// Returns the elements of a tuple, or none for another term.
    #[inline(always)]
    pub fn elements(&self) -> &[Packed]
        ensures { result.now ≡ elements self.now }
    {
        match &self.parts {
            Parts::Pair(parts) => &parts[..],
            Parts::Other(term) => term.elements(),
        }
    }

    /// Returns element `n` of a tuple, counted from 1, or `None` if the term is not a tuple or has no such element.
    #[inline(always)]
    pub fn element(&self, n: Position) -> Option<&Packed>
        ensures { option_copied result ≡ element_at n self.now }
    {
        element_of(self.elements(), n)
    }

    /// Sets the element at `index`, counted from 0, and drops the old element. Changes nothing if the term is not a
    /// tuple or has no such element; `value` is then dropped. Takes no memory.
    #[inline(always)]
    pub fn set_element(&mut self, index: usize, value: Packed)
        ensures { self.new ≡ with_element index value self.old }
    {
        match &mut self.parts {
            Parts::Pair(parts) => set_at(&mut parts[..], index, value),
            Parts::Other(term) => term.set_element(index, value),
        }
    }
}

/// Returns the elements of a pair of two integers of 64 bits, or `None` for another term.
#[inline(always)]
fn small_pair(term: &Term) -> Option<(i64, i64)>
    ensures { IfSome result (λ p. term.now ≡ Tuple (Int p.0 ∷ Int p.1 ∷ [])) }
{
    let Term::Tuple(items) = term else {
        return None;
    };
    let items = items.as_slice();
    if items.len() != 2 {
        return None;
    }
    let m = small(&items[0])?;
    let n = small(&items[1])?;
    Some((m, n))
}

/// Returns the packed form of any term, or an error if memory is refused. It is not inlined, so that `pack` is short.
#[inline(never)]
fn pack_any(alloc: Global, term: &Term) -> Result<Object, AllocError>
    ensures { IfOk result (λ o. o ≡ term.now) }
{
    if let Term::Tuple(items) = term {
        let items = items.as_slice();
        if items.len() == 2 {
            let first = Packed::pack(alloc, &items[0])?;
            let second = Packed::pack(alloc, &items[1])?;
            return Ok(Object {
                parts: Parts::Pair([first, second]),
            });
        }
    }
    Ok(Object {
        parts: Parts::Other(crate::pack::pack(alloc, term)?),
    })
}
