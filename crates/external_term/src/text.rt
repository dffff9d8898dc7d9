//! Reads atoms, strings and binaries.
ghost use Rattle.std.specs.Prelude.{◌≡◌, ◌+◌, ◌≤◌, ◌<◌, map, length, IfOk};
ghost use Rattle.std.specs.List.{list_all};
ghost use Rattle.ets_term.specs.Character.{is_character};
ghost use Rattle.external_term.specs.Faults.{ReturnsOrMemory};
ghost use Rattle.external_term.specs.Texts.{code, is_atom_text, name_at as read_name, atom_at as read_atom, binary_at as read_binary, string_at as read_string};

use crate::fault::ExternalFault;
use crate::field::{Width, number_at, piece_at};
use ets_term::{Atom, Integer, Items, MAX_CHARACTERS, Term};
use std::alloc::{AllocError, Global};

/// Returns whether all bytes are printable ASCII.
fn is_printable(text: &[u8]) -> bool
    ensures { result ≡ list_all is_character text.now }
{
    // 32 is the space, and 126 the tilde.
    text.iter().all(|b| *b >= 32 && *b <= 126)
}

/// Returns whether an atom may have these characters.
fn is_atom(text: &[u8]) -> bool
    ensures { result ≡ is_atom_text text.now }
{
    text.len() <= MAX_CHARACTERS && is_printable(text)
}

/// Reads the length of an atom, at the offset, and finds its characters. Returns the offsets where they begin and end.
pub(crate) fn name_at(
    bytes: &[u8],
    at: usize,
    width: Width,
) -> Result<(usize, usize), ExternalFault>
    requires { at ≤ length bytes.now }
    ensures within { IfOk result (λ x. (x.0 ≤ x.1) × (x.1 ≤ length bytes.now)) }
    ensures reads { ReturnsOrMemory (read_name width bytes.now at) result }
{
    let (n, next) = number_at(bytes, at, width)?;
    piece_at(bytes, next, n)
}

/// Reads the atom whose tag is at the offset. Returns the atom and the offset after it. `width` is that of its length.
pub(crate) fn atom_at(
    alloc: Global,
    bytes: &[u8],
    at: usize,
    width: Width,
) -> Result<(Term, usize), ExternalFault>
    requires { at < length bytes.now }
    ensures within { IfOk result (λ x. x.1 ≤ length bytes.now) }
    ensures reads { ReturnsOrMemory (read_atom width bytes.now at) result }
{
    let (start, end) = name_at(bytes, at + 1, width)?;
    let text = &bytes[start..end];
    if !is_atom(text) {
        return Err(ExternalFault::BadAtom(at));
    }
    Ok((Term::Atom(Atom::of_bytes(alloc, text)?), end))
}

/// Reads the binary whose tag is at the offset. Returns the binary and the offset after it.
pub(crate) fn binary_at(
    alloc: Global,
    bytes: &[u8],
    at: usize,
) -> Result<(Term, usize), ExternalFault>
    requires { at < length bytes.now }
    ensures within { IfOk result (λ x. x.1 ≤ length bytes.now) }
    ensures reads { ReturnsOrMemory (read_binary bytes.now at) result }
{
    let (n, next) = number_at(bytes, at + 1, Width::Four)?;
    let (start, end) = piece_at(bytes, next, n)?;
    let copied = bytes[start..end].to_vec(alloc)?;
    Ok((Term::Binary(Items::from_vec(copied)), end))
}

/// Returns the code of each character as an integer, or an error if memory runs out.
fn codes_of(alloc: Global, chars: &[u8]) -> Result<Items<Term>, AllocError>
    ensures { IfOk result (λ ts. ts ≡ map code chars.now) }
{
    let mut codes = Vec::with_capacity(alloc, chars.len())?;
    for c in chars {
        codes.push_reserved(Term::Int(*c as Integer));
    }
    Ok(Items::from_vec(codes))
}

/// Reads the string whose tag is at the offset, as a list of integers. Returns the list and the offset after it. The
/// characters are one level deeper than the list, so a string with characters is a fault if `levels_left` is 0.
pub(crate) fn string_at(
    alloc: Global,
    bytes: &[u8],
    at: usize,
    levels_left: usize,
) -> Result<(Term, usize), ExternalFault>
    requires { at < length bytes.now }
    ensures within { IfOk result (λ x. x.1 ≤ length bytes.now) }
    ensures reads { ReturnsOrMemory (read_string bytes.now levels_left at) result }
{
    let (n, next) = number_at(bytes, at + 1, Width::Two)?;
    let (start, end) = piece_at(bytes, next, n)?;
    if levels_left == 0 && n > 0 {
        return Err(ExternalFault::TooDeep(start));
    }
    let codes = codes_of(alloc, &bytes[start..end])?;
    Ok((Term::List(codes), end))
}
