//! Terms of packed terms that reuse the memory of other terms.
ghost use Rattle.std.specs.Prelude.{◌≡◌, ◌<◌, OnOk, length, slice_set};

use crate::form::Form;
use crate::packed::Packed;
use crate::unpack::unpack;
use ets_term::{Items, Term};
use std::alloc::{AllocError, Global};

/// Makes `target` equal to a packed term. A tuple of `target` is reused for a tuple of the same length, and a list for a
/// list of the same length: their memory is not allocated again. If memory is refused, `target` is still a term, but
/// some of its parts may be replaced already.
#[cycle(reuse)]
#[inline(always)]
pub(crate) fn unpack_into(
    alloc: Global,
    packed: &Packed,
    target: &mut Term,
) -> Result<(), AllocError>
    ensures { OnOk result (target.new ≡ packed.now) }
{
    match &packed.form {
        Form::Small(n) => {
            *target = Term::Int(i128::from(*n));
            return Ok(());
        }
        Form::Pair(parts) => {
            if let Term::Tuple(own) = target {
                if own.len() == 2 {
                    return unpack_all_into(alloc, &parts[..], own);
                }
            }
        }
        Form::Triple(parts) => {
            if let Term::Tuple(own) = target {
                if own.len() == 3 {
                    return unpack_all_into(alloc, &parts[..], own);
                }
            }
        }
        Form::Tuple(parts) => {
            if let Term::Tuple(own) = target {
                if own.len() == parts.len() {
                    return unpack_all_into(alloc, parts.as_slice(), own);
                }
            }
        }
        Form::List(parts) => {
            if let Term::List(own) = target {
                if own.len() == parts.len() {
                    return unpack_all_into(alloc, parts.as_slice(), own);
                }
            }
        }
        _ => {}
    }
    *target = unpack(alloc, packed)?;
    Ok(())
}

/// Makes each item of `target` equal to the packed term at its index. For an integer it calls no other function.
#[cycle(reuse)]
pub(crate) fn unpack_all_into(
    alloc: Global,
    parts: &[Packed],
    target: &mut Items<Term>,
) -> Result<(), AllocError>
    requires { length target.old ≡ length parts.now }
    ensures { OnOk result (target.new ≡ parts.now) }
{
    for at in 0..parts.len() {
        let part = &parts[at];
        if let Form::Small(n) = &part.form {
            set_item(target, at, Term::Int(i128::from(*n)));
            continue;
        }
        // Takes the item out, since the items lend no reference through which one can change.
        let mut item = target.replace(at, Term::Int(0));
        let written = unpack_into(alloc, part, &mut item);
        set_item(target, at, item);
        written?;
    }
    Ok(())
}

/// Sets an item, and drops the old one.
#[inline(always)]
fn set_item(items: &mut Items<Term>, at: usize, item: Term)
    requires { at < length items.old }
    ensures { items.new ≡ slice_set items.old at item }
{
    let _old = items.replace(at, item);
}
