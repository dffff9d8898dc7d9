//! Reads terms by recursive descent. `levels_left` is the number of levels that may still be opened.
ghost use Rattle.std.specs.Prelude.{◌≡◌, ◌+◌, ◌≤◌, ◌<◌, ◌∷◌, List, true, false, length, IfOk, IfErr, slice_index};
ghost use Rattle.term_text.specs.inside.Reader.{OpenBracket, wants, reads_on, open_bracket, begin, reading};
ghost use Rattle.term_text.specs.Faults.{IsFaultOrMemory};
ghost use Rattle.term_text.specs.Grammar.{Front};
ghost use Rattle.term_text.specs.Reading.{ReaderReturns};
ghost use Rattle.term_text.specs.inside.Parts.{EndsWithin, ReadsTerm, is_square};

use crate::binary::{identifier_at, pid_or_binary_at};
use crate::bracket::Bracket;
use crate::bytes::{is_digit_byte, is_first_byte, is_lowercase_byte, past_blanks};
use crate::fault::TextFault;
use crate::integer::integer_at;
use crate::name::name_at;
use crate::quoted::{quoted_atom_at, string_at};
use ets_term::{Items, MAX_DEPTH, Term};
use std::alloc::Global;

/// Reads the term at the start of the text, after blanks. Returns the term, and the number of bytes of the blanks and
/// the term. Otherwise returns the fault of the first byte with which no text of a term can continue, or of the end of
/// the text. Returns `Memory` if memory runs out.
pub fn read_term(alloc: Global, text: &str) -> Result<(Term, usize), TextFault>
    ensures found { IfOk result (λ x. Front text.now x.0 x.1) }
    ensures fault { IfErr result (λ f. IsFaultOrMemory text.now f) }
{
    let bytes = text.as_bytes();
    read_term_bytes(alloc, bytes)
}

/// Does what `read_term` does for a text in bytes.
#[inline(always)]
pub fn read_term_bytes(alloc: Global, text: &[u8]) -> Result<(Term, usize), TextFault>
    ensures found { IfOk result (λ x. Front text.now x.0 x.1) }
    ensures fault { IfErr result (λ f. IsFaultOrMemory text.now f) }
    // This clause follows from the two clauses above, by the laws. Specifications of lines and calls need the result as
    // a function of the text.
    ensures exactly { ReaderReturns (reading text.now) result }
{
    term_at(alloc, text, 0, MAX_DEPTH)
}

/// Reads the term that must begin at `at` or after blanks there. It may have at most `levels_left` levels. Returns the
/// term and the offset after it.
#[inline(always)]
#[cycle(term)]
fn term_at(
    alloc: Global,
    text: &[u8],
    at: usize,
    levels_left: usize,
) -> Result<(Term, usize), TextFault>
    requires { at ≤ length text.now }
    ensures within { EndsWithin text.now at result }
    ensures reads { (os : List OpenBracket) → length os + levels_left ≡ MAX_DEPTH
        → ReadsTerm text.now at (reads_on (wants false) os) os result }
{
    let start = past_blanks(text, at);
    if start >= text.len() {
        return Err(TextFault::Unclosed(start));
    }
    form_at(alloc, text, start, levels_left)
}

/// Reads the term whose first byte is at `at`. Returns the term and the offset after it. First tests for an atom
/// without quotes or an integer without a sign, because most terms are such.
#[inline(always)]
#[cycle(term)]
fn form_at(
    alloc: Global,
    text: &[u8],
    at: usize,
    levels_left: usize,
) -> Result<(Term, usize), TextFault>
    requires { at < length text.now }
    ensures within { EndsWithin text.now at result }
    ensures reads { (os : List OpenBracket) → length os + levels_left ≡ MAX_DEPTH
        → ReadsTerm text.now (at + 1) (begin at os (slice_index text.now at)) os result }
{
    if levels_left > 0 {
        if is_lowercase_byte(text[at]) {
            return name_at(alloc, text, at);
        }
        if is_digit_byte(text[at]) {
            return integer_at(text, at, at, false);
        }
    }
    any_form_at(alloc, text, at, levels_left)
}

/// Reads the term, of any kind, whose first byte is at `at`. Returns the term and the offset after it. It is a fault if
/// no term can begin with this byte, or if `levels_left` is 0.
#[inline(never)]
#[cycle(term)]
fn any_form_at(
    alloc: Global,
    text: &[u8],
    at: usize,
    levels_left: usize,
) -> Result<(Term, usize), TextFault>
    requires { at < length text.now }
    ensures within { EndsWithin text.now at result }
    ensures reads { (os : List OpenBracket) → length os + levels_left ≡ MAX_DEPTH
        → ReadsTerm text.now (at + 1) (begin at os (slice_index text.now at)) os result }
{
    let b = text[at];
    if !is_first_byte(b) {
        return Err(TextFault::Unexpected(at));
    }
    if levels_left == 0 {
        return Err(TextFault::TooDeep(at));
    }
    match b {
        b'{' => bracket_at(alloc, text, at + 1, Bracket::Brace, levels_left - 1),
        b'[' => bracket_at(alloc, text, at + 1, Bracket::Square, levels_left - 1),
        // The digits begin after the minus sign; a fault for the range has the offset of the sign.
        b'-' => integer_at(text, at + 1, at, true),
        b'\'' => quoted_atom_at(alloc, text, at),
        // A string is a list of integers, so it must be empty if only one level is left.
        b'"' => string_at(alloc, text, at + 1, levels_left == 1),
        b'<' => pid_or_binary_at(alloc, text, at + 1),
        b'#' => identifier_at(text, at + 1),
        _ => {
            if is_digit_byte(b) {
                integer_at(text, at, at, false)
            } else {
                name_at(alloc, text, at)
            }
        }
    }
}

/// Reads a tuple or list after its opening bracket. Its elements may have at most `levels_left` levels. Returns the
/// term and the offset after its closing bracket.
#[cycle(term)]
fn bracket_at(
    alloc: Global,
    text: &[u8],
    at: usize,
    bracket: Bracket,
    levels_left: usize,
) -> Result<(Term, usize), TextFault>
    requires { at ≤ length text.now }
    ensures within { EndsWithin text.now at result }
    ensures reads { (os : List OpenBracket) → length os + 1 + levels_left ≡ MAX_DEPTH
        → ReadsTerm text.now at (reads_on (wants true) (open_bracket (is_square bracket) ∷ os)) os result }
{
    let mut offset = past_blanks(text, at);
    if offset < text.len() && bracket.is_closed_by(text[offset]) {
        return Ok((bracket.enclose(Items::new(alloc)), offset + 1));
    }
    // An object often has two elements, and a table keeps the capacity of an object that moves in.
    let mut items = Items::from_vec(Vec::with_capacity(alloc, 2)?);
    loop {
        let (item, end) = match term_at(alloc, text, offset, levels_left) {
            Ok(found) => found,
            Err(fault) => return Err(fault),
        };
        items.push(item)?;
        let next = past_blanks(text, end);
        if next >= text.len() {
            return Err(TextFault::Unclosed(next));
        }
        if bracket.is_closed_by(text[next]) {
            return Ok((bracket.enclose(items), next + 1));
        }
        if text[next] != b',' {
            return Err(TextFault::Unexpected(next));
        }
        // After a comma an element must follow: `term_at` skips blanks, and a closing bracket is a fault.
        offset = next + 1;
    }
}
