//! Reads texts in quotes: atoms, strings, and strings in binaries.
ghost use Rattle.std.specs.Prelude.{◌≡◌, ◌+◌, ◌≤◌, ◌<◌, ◌==◌, ◌∷◌, [], List, map, true, false, length, IfOk, IsTrue, slice_index};
ghost use Rattle.std.specs.List.{list_all};
ghost use Rattle.ets_term.specs.Character.{is_character};
ghost use Rattle.term_text.specs.inside.Reader.{code, quote, OpenBracket, in_quotes, reads_on};
ghost use Rattle.term_text.specs.inside.Parts.{EndsWithin, ReadsEscaped, ReadsCharacter, IsShort, ReadsQuoted, ReadsTerm, IsOutOfLevels};
ghost use Rattle.term_text.specs.declared.quote_form.QuoteForm.TheVariants as form;

use crate::bytes::is_character_byte;
use crate::fault::TextFault;
use crate::quote_form::QuoteForm;
use ets_term::{Atom, Integer, Items, Term};
use std::alloc::{AllocError, Global};

/// Reads the character after a `\`, which must be the quote of this kind of text or a `\`. Returns the character and
/// the offset after it.
fn escape_at(text: &[u8], at: usize, quotes: QuoteForm) -> Result<(u8, usize), TextFault>
    requires { at ≤ length text.now }
    ensures within { IfOk result (λ x. (at < x.1) × (x.1 ≤ length text.now)) }
    ensures character { IfOk result (λ x. is_character x.0 ≡ true) }
    ensures reads { ReadsEscaped text.now at quotes result }
{
    if at >= text.len() {
        return Err(TextFault::Unclosed(at));
    }
    let b = text[at];
    if b != quotes.quote() && b != b'\\' {
        return Err(TextFault::Unexpected(at));
    }
    Ok((b, at + 1))
}

/// Reads one character at this offset, which is not the closing quote. The character may be written with a `\`. `n` is
/// the number of characters before it. Returns the character and the offset after it.
fn character_at(
    text: &[u8],
    at: usize,
    quotes: QuoteForm,
    out_of_levels: bool,
    n: usize,
) -> Result<(u8, usize), TextFault>
    requires within { at < length text.now }
    requires open { (slice_index text.now at == quote quotes) ≡ false }
    ensures within { IfOk result (λ x. (at < x.1) × (x.1 ≤ length text.now)) }
    ensures character { IfOk result (λ x. is_character x.0 ≡ true) }
    ensures short { IfOk result (λ x. IsShort quotes n → IsShort quotes (n + 1)) }
    ensures reads { ReadsCharacter text.now at quotes out_of_levels n result }
{
    let b = text[at];
    if b != b'\\' && !is_character_byte(b) {
        return Err(TextFault::Unexpected(at));
    }
    // The limit is checked at the first byte of a character, before the byte after a `\` is read.
    if let Some(fault) = quotes.fault_of_next(at, n, out_of_levels) {
        return Err(fault);
    }
    if b == b'\\' {
        return escape_at(text, at + 1, quotes);
    }
    Ok((b, at + 1))
}

/// Reads the characters up to the closing quote, and returns them with the offset after it. `out_of_levels` says that a
/// string is at the last level, and so may not have characters.
pub(crate) fn characters_at(
    alloc: Global,
    text: &[u8],
    at: usize,
    quotes: QuoteForm,
    out_of_levels: bool,
) -> Result<(Items<u8>, usize), TextFault>
    requires { at ≤ length text.now }
    ensures within { EndsWithin text.now at result }
    ensures characters { IfOk result (λ x. IsTrue (list_all is_character x.0)) }
    ensures short { IfOk result (λ x. IsShort quotes (length x.0)) }
    ensures reads { ReadsQuoted text.now at quotes out_of_levels result }
{
    let mut chars = Vec::new(alloc);
    let mut offset = at;
    while offset < text.len() {
        if text[offset] == quotes.quote() {
            return Ok((Items::from_vec(chars), offset + 1));
        }
        let (c, end) = character_at(text, offset, quotes, out_of_levels, chars.len())?;
        chars.push(c)?;
        offset = end;
    }
    Err(TextFault::Unclosed(offset))
}

/// Reads the atom whose opening quote is at this offset. Returns the atom and the offset after its closing quote.
pub(crate) fn quoted_atom_at(
    alloc: Global,
    text: &[u8],
    at: usize,
) -> Result<(Term, usize), TextFault>
    requires { at < length text.now }
    ensures within { EndsWithin text.now at result }
    ensures reads { (os : List OpenBracket)
        → ReadsTerm text.now (at + 1) (reads_on (in_quotes (form.Atom at) []) os) os result }
{
    // The last argument is `false`: the characters of an atom are not terms at a deeper level.
    let (chars, end) = characters_at(alloc, text, at + 1, QuoteForm::Atom(at), false)?;
    let name = Atom::of_bytes(alloc, chars.as_slice())?;
    Ok((Term::Atom(name), end))
}

/// Reads a string after its opening quote, as a list of integers, the codes of its characters. Returns the list and the
/// offset after the closing quote. `out_of_levels` says that the string is at the last level, so it must be empty.
pub(crate) fn string_at(
    alloc: Global,
    text: &[u8],
    at: usize,
    out_of_levels: bool,
) -> Result<(Term, usize), TextFault>
    requires { at ≤ length text.now }
    ensures within { EndsWithin text.now at result }
    ensures reads { (os : List OpenBracket) → IsOutOfLevels form.String out_of_levels os
        → ReadsTerm text.now at (reads_on (in_quotes form.String []) os) os result }
{
    let (chars, end) = characters_at(alloc, text, at, QuoteForm::String, out_of_levels)?;
    let codes = codes_of(alloc, chars.as_slice())?;
    Ok((Term::List(codes), end))
}

/// Returns the code of each character as an integer, or an error if memory runs out.
fn codes_of(alloc: Global, chars: &[u8]) -> Result<Items<Term>, AllocError>
    ensures { IfOk result (λ ts. ts ≡ map code chars.now) }
{
    let mut codes = Vec::with_capacity(alloc, chars.len())?;
    for c in chars {
        codes.push(Term::Int(*c as Integer))?;
    }
    Ok(Items::from_vec(codes))
}
