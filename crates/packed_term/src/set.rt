//! The change of one element in place.
ghost use Rattle.std.specs.Prelude.{◌≡◌, slice_set};
ghost use Rattle.packed_term.specs.Elements.{with_element};

use crate::form::Form;
use crate::packed::Packed;
use std::mem;

impl Packed {
    /// Sets the element at `index`, counted from 0, and drops the old element. Changes nothing if the term is not a
    /// tuple or has no such element; `value` is then dropped. Takes no memory.
    pub fn set_element(&mut self, index: usize, value: Packed)
        ensures { self.new ≡ with_element index value self.old }
    {
        match &mut self.form {
            Form::Pair(parts) => set_in_array(parts, index, value),
            Form::Triple(parts) => set_in_array(parts, index, value),
            Form::Tuple(parts) => set_in_vec(parts, index, value),
            // No elements.
            _ => set_at(&mut [], index, value),
        }
    }
}

/// Sets the part of an array at `index`, as `set_at` does.
#[inline(always)]
fn set_in_array<const N: usize>(parts: &mut [Packed; N], index: usize, value: Packed)
    ensures { parts.new ≡ slice_set parts.old index value }
{
    set_at(&mut parts[..], index, value)
}

/// Sets the part of a `Vec` at `index`, as `set_at` does.
#[inline(always)]
fn set_in_vec(parts: &mut Vec<Packed>, index: usize, value: Packed)
    ensures { parts.new.items ≡ slice_set parts.old.items index value }
{
    set_at(parts.as_mut_slice(), index, value)
}

/// Sets the part at `index`, and drops the old part. Changes nothing past the end; `value` is then dropped.
#[inline(always)]
pub(crate) fn set_at(parts: &mut [Packed], index: usize, value: Packed)
    ensures { parts.new ≡ slice_set parts.old index value }
{
    if index < parts.len() {
        // Sets the part before it drops the old one.
        let _old = mem::replace(&mut parts[index], value);
    }
}
