//! Makes terms of packed ones.
ghost use Rattle.std.specs.Prelude.{◌≡◌, ◌≤◌, IfOk, OnOk, length, take};
ghost use Rattle.ets_term.specs.Character.{IsAtomText};

use crate::form::{Form, MAX_INLINE};
use crate::packed::Packed;
use ets_term::{Atom, Items, Term};
use std::alloc::{AllocError, Global};

/// Returns the term of a packed one, or an error if memory is refused.
#[cycle(unpack)]
pub(crate) fn unpack(alloc: Global, packed: &Packed) -> Result<Term, AllocError>
    ensures { IfOk result (λ t. t ≡ packed.now) }
{
    match &packed.form {
        Form::Small(n) => Ok(Term::Int(i128::from(*n))),
        Form::Wide(n) => Ok(Term::Int(**n)),
        Form::Name { len, bytes } => Ok(Term::Atom(Atom::of_bytes(
            alloc,
            &bytes[..*len as usize],
        )?)),
        Form::Atom(atom) => Ok(Term::Atom(atom.try_clone(alloc)?)),
        Form::Pid(n) => Ok(Term::Pid(*n)),
        Form::Tid(n) => Ok(Term::Tid(*n)),
        Form::Pair(parts) => Ok(Term::Tuple(unpack_all(alloc, &parts[..])?)),
        Form::Triple(parts) => Ok(Term::Tuple(unpack_all(alloc, &parts[..])?)),
        Form::Tuple(parts) => Ok(Term::Tuple(unpack_all(alloc, parts.as_slice())?)),
        Form::List(parts) => Ok(Term::List(unpack_all(alloc, parts.as_slice())?)),
        Form::Short { len, bytes } => {
            Ok(Term::Binary(Items::from_vec(bytes[..*len as usize].to_vec(alloc)?)))
        }
        Form::Binary(bytes) => Ok(Term::Binary(Items::from_vec(bytes.as_slice().to_vec(alloc)?))),
    }
}

/// Returns the terms of packed ones. For an integer of 64 bits it calls no other function.
#[cycle(unpack)]
pub(crate) fn unpack_all(alloc: Global, parts: &[Packed]) -> Result<Items<Term>, AllocError>
    ensures { IfOk result (λ v. v ≡ parts.now) }
{
    let mut all = Vec::with_capacity(alloc, parts.len())?;
    for part in parts {
        if let Form::Small(n) = &part.form {
            all.push_reserved(Term::Int(i128::from(*n)));
            continue;
        }
        all.push_reserved(unpack(alloc, part)?);
    }
    Ok(Items::from_vec(all))
}
