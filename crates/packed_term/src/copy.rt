//! Copies of packed terms.
ghost use Rattle.std.specs.Prelude.{◌≡◌, IfOk};

use crate::form::Form;
use crate::packed::Packed;
use std::alloc::{AllocError, Global};

/// Returns a copy of a packed term, or an error if memory is refused.
#[cycle(copy)]
pub(crate) fn copy(alloc: Global, packed: &Packed) -> Result<Packed, AllocError>
    ensures { IfOk result (λ p. p ≡ packed.now) }
{
    let form = match &packed.form {
        Form::Small(n) => Form::Small(*n),
        Form::Wide(n) => Form::Wide(Box::new(alloc, **n)?),
        Form::Name { len, bytes } => Form::Name {
            len: *len,
            bytes: *bytes,
        },
        Form::Atom(atom) => Form::Atom(Box::new(alloc, atom.try_clone(alloc)?)?),
        Form::Pid(n) => Form::Pid(*n),
        Form::Tid(n) => Form::Tid(*n),
        Form::Pair(parts) => {
            let first = copy(alloc, &parts[0])?;
            let second = copy(alloc, &parts[1])?;
            Form::Pair(Box::new(alloc, [first, second])?)
        }
        Form::Triple(parts) => {
            let first = copy(alloc, &parts[0])?;
            let second = copy(alloc, &parts[1])?;
            let third = copy(alloc, &parts[2])?;
            Form::Triple(Box::new(alloc, [first, second, third])?)
        }
        Form::Tuple(parts) => Form::Tuple(Box::new(alloc, copy_all(alloc, parts.as_slice())?)?),
        Form::List(parts) => Form::List(Box::new(alloc, copy_all(alloc, parts.as_slice())?)?),
        Form::Short { len, bytes } => Form::Short {
            len: *len,
            bytes: *bytes,
        },
        Form::Binary(bytes) => Form::Binary(Box::new(alloc, bytes.as_slice().to_vec(alloc)?)?),
    };
    Ok(Packed { form })
}

/// Returns copies of packed terms, or an error if memory is refused.
#[cycle(copy)]
fn copy_all(alloc: Global, parts: &[Packed]) -> Result<Vec<Packed>, AllocError>
    ensures { IfOk result (λ v. v.items ≡ parts.now) }
{
    let mut copies = Vec::with_capacity(alloc, parts.len())?;
    for part in parts {
        copies.push_reserved(copy(alloc, part)?);
    }
    Ok(copies)
}
