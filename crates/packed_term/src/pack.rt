//! Packs terms.
ghost use Rattle.std.specs.Prelude.{◌≡◌, IfOk, IfSome};
ghost use Rattle.ets_term.specs.declared.term.Term.TheVariants.{Int, Tuple};

use crate::form::{Form, MAX_INLINE};
use crate::packed::Packed;
use ets_term::{Atom, Integer, Term};
use std::alloc::{AllocError, Global};

/// Returns the packed form of a term, or an error if memory is refused.
#[cycle(pack)]
pub(crate) fn pack(alloc: Global, term: &Term) -> Result<Packed, AllocError>
    ensures { IfOk result (λ p. p ≡ term.now) }
{
    if let Some(n) = small(term) {
        return Ok(Packed::from(n));
    }
    let packed = match term {
        Term::Int(n) => pack_wide(alloc, *n),
        Term::Atom(atom) => pack_atom(alloc, atom),
        Term::Pid(n) => return Ok(Packed {
            form: Form::Pid(*n),
        }),
        Term::Tid(n) => return Ok(Packed {
            form: Form::Tid(*n),
        }),
        Term::Tuple(items) => pack_tuple(alloc, items.as_slice()),
        Term::List(items) => pack_list(alloc, items.as_slice()),
        Term::Binary(bytes) => pack_binary(alloc, bytes.as_slice()),
    };
    // Moves the result by `?`, as `Packed::pack` does.
    Ok(packed?)
}

/// Returns the value of an integer of 64 bits, or `None` for another term.
#[inline(always)]
pub(crate) fn small(term: &Term) -> Option<i64>
    ensures { IfSome result (λ n. term.now ≡ Int n) }
{
    match term {
        Term::Int(n) => i64::try_from(*n).ok(),
        _ => None,
    }
}

/// Returns the packed form of any integer in memory of its own, or an error if memory is refused.
#[inline(never)]
pub(crate) fn pack_wide(alloc: Global, n: Integer) -> Result<Packed, AllocError>
    ensures { IfOk result (λ p. p ≡ Int n) }
{
    Ok(Packed {
        form: Form::Wide(Box::new(alloc, n)?),
    })
}

/// Returns the packed form of an atom. One of at most `MAX_INLINE` characters takes no memory.
#[inline(never)]
fn pack_atom(alloc: Global, atom: &Atom) -> Result<Packed, AllocError>
    ensures { IfOk result (λ p. p ≡ Term.Atom atom.now) }
{
    let text = atom.text().as_bytes();
    if text.len() <= MAX_INLINE {
        let mut bytes = [0; MAX_INLINE];
        bytes[..text.len()].copy_from_slice(text);
        return Ok(Packed {
            form: Form::Name {
                len: text.len() as u8,
                bytes,
            },
        });
    }
    Ok(Packed {
        form: Form::Atom(Box::new(alloc, atom.try_clone(alloc)?)?),
    })
}

/// Returns the packed form of a binary. One of at most `MAX_INLINE` bytes takes no memory.
#[inline(never)]
fn pack_binary(alloc: Global, binary: &[u8]) -> Result<Packed, AllocError>
    ensures { IfOk result (λ p. p ≡ Term.Binary binary.now) }
{
    if binary.len() <= MAX_INLINE {
        let mut bytes = [0; MAX_INLINE];
        bytes[..binary.len()].copy_from_slice(binary);
        return Ok(Packed {
            form: Form::Short {
                len: binary.len() as u8,
                bytes,
            },
        });
    }
    Ok(Packed {
        form: Form::Binary(Box::new(alloc, binary.to_vec(alloc)?)?),
    })
}

/// Returns the packed form of a tuple of these elements.
#[cycle(pack)]
#[inline(never)]
fn pack_tuple(alloc: Global, items: &[Term]) -> Result<Packed, AllocError>
    ensures { IfOk result (λ p. p ≡ Tuple items.now) }
{
    if items.len() == 2 {
        let first = pack(alloc, &items[0])?;
        let second = pack(alloc, &items[1])?;
        return Ok(Packed {
            form: Form::Pair(Box::new(alloc, [first, second])?),
        });
    }
    if items.len() == 3 {
        let first = pack(alloc, &items[0])?;
        let second = pack(alloc, &items[1])?;
        let third = pack(alloc, &items[2])?;
        return Ok(Packed {
            form: Form::Triple(Box::new(alloc, [first, second, third])?),
        });
    }
    Ok(Packed {
        form: Form::Tuple(Box::new(alloc, pack_all(alloc, items)?)?),
    })
}

/// Returns the packed form of a list of these elements.
#[cycle(pack)]
#[inline(never)]
fn pack_list(alloc: Global, items: &[Term]) -> Result<Packed, AllocError>
    ensures { IfOk result (λ p. p ≡ Term.List items.now) }
{
    Ok(Packed {
        form: Form::List(Box::new(alloc, pack_all(alloc, items)?)?),
    })
}

/// Returns the packed forms of terms. For an integer of 64 bits it calls no other function.
#[cycle(pack)]
fn pack_all(alloc: Global, terms: &[Term]) -> Result<Vec<Packed>, AllocError>
    ensures { IfOk result (λ v. v.items ≡ terms.now) }
{
    let mut all = Vec::with_capacity(alloc, terms.len())?;
    for term in terms {
        if let Some(n) = small(term) {
            all.push_reserved(Packed::from(n));
            continue;
        }
        all.push_reserved(pack(alloc, term)?);
    }
    Ok(all)
}
