//! The packed form of a term.
ghost use Rattle.std.specs.Prelude.{◌≡◌, ◌-◌, IfOk, IsOk, FitsSigned, OnOk, option_copied};
ghost use Rattle.std.specs.Int.{w64};
ghost use Rattle.ets_term.specs.declared.term.Term.TheVariants.{Int};
ghost use Rattle.ets_term.specs.Depth.{element_at, elements};
ghost use Rattle.ets_term.specs.Order.{same};
ghost use Rattle.ets_term.specs.Views.{as_int};
ghost use Rattle.packed_term.specs.Elements.{nth};

use crate::copy::copy;
use crate::equal::is_equal;
use crate::form::Form;
use crate::pack::{pack, pack_wide};
use crate::reuse::unpack_into;
use crate::unpack::unpack;
use ets_term::{Integer, Position, Term};
use std::alloc::{AllocError, Global};
use std::marker::Model;

/// A term in 16 bytes, with its larger parts in memory of their own.
#[cycle(packed)]
#[derive(Drop)]
pub struct Packed {
    pub(crate) form: Form,
}

// The value that contracts see of this type (`view`), and what is true of its fields between calls (`invariant`).
impl Model for Packed {
    ghost use Rattle.ets_term.specs.declared.term.Term.{Term};
    ghost use Rattle.ets_term.specs.contracts.term.Term as term;

    ghost Value = { Term };

    ghost coded = { term.the_row.coded };

    ghost use Rattle.ets_term.specs.Depth.{depth};
    ghost use Rattle.packed_term.specs.Forms.{term_of, FitsIn};

    ghost view = { λ p. term_of p.form };

    ghost invariant = { λ p. FitsIn p.form };

    ghost size = { depth };

    ghost use Rattle.packed_term.specs.Sizes.{deep_le-depth};

    ghost size_decreases = { λ a h. deep_le-depth a.form };
}

impl Packed {
    /// Returns the packed form of a term, or an error if memory is refused. An integer of 64 bits calls no other
    /// function.
    #[inline(always)]
    pub fn pack(alloc: Global, term: &Term) -> Result<Packed, AllocError>
        ensures { IfOk result (λ p. p ≡ term.now) }
    {
        if let Some(n) = crate::pack::small(term) {
            return Ok(Packed::from(n));
        }
        // Moves the result of the call by `?`. Without it, the call writes to the result of this function, and then the
        // result above goes through memory too.
        Ok(pack(alloc, term)?)
    }

    /// Returns the packed form of an integer, or an error if memory is refused. An integer of 64 bits takes no memory.
    #[inline(always)]
    pub fn integer(alloc: Global, n: Integer) -> Result<Packed, AllocError>
        ensures made { IfOk result (λ p. p ≡ Int n) }
        ensures small { FitsSigned w64 n → IsOk result }
    {
        match i64::try_from(n) {
            Ok(small) => Ok(Packed::from(small)),
            // Moves the result by `?`, as `pack` does.
            Err(_) => Ok(pack_wide(alloc, n)?),
        }
    }

    /// Returns the term, or an error if memory is refused.
    pub fn unpack(&self, alloc: Global) -> Result<Term, AllocError>
        ensures { IfOk result (λ t. t ≡ self.now) }
    {
        unpack(alloc, self)
    }

    /// Makes `target` equal to this term, and reuses the memory of its tuples and lists.
    ///
    /// If memory is refused, `target` is still a term, but some of its parts may be replaced already.
    pub fn unpack_into(&self, alloc: Global, target: &mut Term) -> Result<(), AllocError>
        ensures { OnOk result (target.new ≡ self.now) }
    {
        unpack_into(alloc, self, target)
    }

    /// Returns a copy, or an error if memory is refused.
    pub fn try_clone(&self, alloc: Global) -> Result<Packed, AllocError>
        ensures { IfOk result (λ p. p ≡ self.now) }
    {
        if let Form::Small(n) = &self.form {
            return Ok(Packed::from(*n));
        }
        // Moves the result by `?`, as `pack` does.
        Ok(copy(alloc, self)?)
    }

    /// Returns whether this term equals a term (`=:=`). Takes no memory. For integers of 64 bits it calls no other
    /// function.
    #[inline(always)]
    pub fn is_equal(&self, term: &Term) -> bool
        ensures { result ≡ same self.now term.now }
    {
        if let (Form::Small(m), Term::Int(n)) = (&self.form, term) {
            return i128::from(*m) == *n;
        }
        is_equal(self, term)
    }

    /// Returns the value of an integer, or `None` for another term.
    #[inline(always)]
    pub fn as_integer(&self) -> Option<Integer>
        ensures { result ≡ as_int self.now }
    {
        match &self.form {
            Form::Small(n) => Some(i128::from(*n)),
            Form::Wide(n) => Some(**n),
            _ => None,
        }
    }

    /// Returns the elements of a tuple, or none for another term.
    #[inline(always)]
    pub fn elements(&self) -> &[Packed]
        ensures { result.now ≡ elements self.now }
    {
        match &self.form {
            Form::Pair(parts) => &parts[..],
            Form::Triple(parts) => &parts[..],
            Form::Tuple(parts) => parts.as_slice(),
            _ => &[],
        }
    }

    /// Returns element `n` of a tuple, counted from 1, or `None` if the term is not a tuple or has no such element.
    pub fn element(&self, n: Position) -> Option<&Packed>
        ensures { option_copied result ≡ element_at n self.now }
    {
        element_of(self.elements(), n)
    }
}

/// Returns element `n` of these, counted from 1, or `None` if there are fewer.
#[inline(always)]
pub(crate) fn element_of(parts: &[Packed], n: Position) -> Option<&Packed>
    ensures { option_copied result ≡ nth n parts.now }
{
    if n == 0 || n > parts.len() as Position {
        return None;
    }
    parts.get((n - 1) as usize)
}
