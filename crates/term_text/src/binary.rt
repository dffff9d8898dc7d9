//! Reads binaries, pids and table identifiers.
ghost use Rattle.std.specs.Prelude.{◌≡◌, ◌+◌, ◌≤◌, ◌<◌, ◌∷◌, [], List, true, length, IfOk, codes};
ghost use Rattle.term_text.specs.inside.Reader.{OpenBracket, byte, digit, in_quotes, reads_on, opened_binary, angle, expect, digits, pid, identifier};
ghost use Rattle.term_text.specs.inside.Parts.{EndsWithin, ReadsTerm, ReadsBytes};
ghost use Rattle.term_text.specs.declared.quote_form.QuoteForm.TheVariants as form;

use crate::bytes::{byte_is, digit_at, past_blanks};
use crate::fault::TextFault;
use crate::number::{Magnitude, literal_at, number_at};
use crate::quote_form::QuoteForm;
use crate::quoted::characters_at;
use ets_term::{Items, Term};
use std::alloc::Global;

/// Reads the bytes of a binary, `1, 2` in `<<1, 2>>`: one or more numbers from 0 to 255, separated by commas. Returns
/// the bytes, and the offset after them and the blanks that follow.
#[tactic(auto, using(crate::proofs::Binaries::bytes_end, crate::proofs::Binaries::comma_byte, crate::proofs::Binaries::wants_digit, crate::proofs::Blanks::after_byte_ignores, crate::proofs::Blanks::wants_byte_ignores, crate::proofs::Offsets::begins_in))]
fn bytes_at(alloc: Global, text: &[u8], at: usize) -> Result<(Items<u8>, usize), TextFault>
    requires { at ≤ length text.now }
    ensures within { EndsWithin text.now at result }
    ensures reads { ReadsBytes text.now at result }
{
    let mut bytes = Vec::new(alloc);
    let mut offset = at;
    loop {
        // A byte has no minus sign: it starts where its digits start.
        let (n, end) = number_at(text, offset, offset, u8::MAX as Magnitude)?;
        bytes.push(n as u8)?;
        let next = past_blanks(text, end);
        if !byte_is(text, next, b',') {
            return Ok((Items::from_vec(bytes), next));
        }
        offset = past_blanks(text, next + 1);
    }
}

/// Reads a binary with bytes from its first byte on: its `<<` and blanks are already read. Returns the binary and the
/// offset after its `>>`.
fn byte_binary_at(alloc: Global, text: &[u8], at: usize) -> Result<(Term, usize), TextFault>
    requires { at ≤ length text.now }
    ensures within { EndsWithin text.now at result }
    ensures reads { (os : List OpenBracket) → ReadsTerm text.now at (reads_on (digit (byte []) at) os) os result }
{
    let (bytes, offset) = bytes_at(alloc, text, at)?;
    let end = literal_at(text, offset, b">>")?;
    Ok((Term::Binary(bytes), end))
}

/// Reads a binary with a string, `<<"text">>`, from the byte after the opening quote on. Returns the binary and the
/// offset after its `>>`.
#[tactic(auto, using(crate::proofs::Binaries::string_ends, crate::proofs::Blanks::after_string_ignores))]
fn string_binary_at(alloc: Global, text: &[u8], at: usize) -> Result<(Term, usize), TextFault>
    requires { at ≤ length text.now }
    ensures within { EndsWithin text.now at result }
    ensures reads { (os : List OpenBracket) → ReadsTerm text.now at (reads_on (in_quotes form.Binary []) os) os result }
{
    // The last argument is `false`: the characters of a binary are bytes, not terms at a deeper level.
    let (bytes, next) = characters_at(alloc, text, at, QuoteForm::Binary, false)?;
    let offset = past_blanks(text, next);
    let end = literal_at(text, offset, b">>")?;
    Ok((Term::Binary(bytes), end))
}

/// Reads a binary after its `<<`: with a string, with bytes, or empty. Returns the binary and the offset after its
/// `>>`.
#[tactic(auto, using(crate::proofs::Binaries::opened_quote, crate::proofs::Binaries::opened_digit, crate::proofs::Binaries::opened_ends, crate::proofs::Blanks::opened_binary_ignores, crate::proofs::Offsets::reads_along, crate::proofs::Offsets::begins_in))]
fn binary_at(alloc: Global, text: &[u8], at: usize) -> Result<(Term, usize), TextFault>
    requires { at ≤ length text.now }
    ensures within { EndsWithin text.now at result }
    ensures reads { (os : List OpenBracket) → ReadsTerm text.now at (reads_on opened_binary os) os result }
{
    let start = past_blanks(text, at);
    if byte_is(text, start, b'"') {
        return string_binary_at(alloc, text, start + 1);
    }
    if digit_at(text, start) {
        return byte_binary_at(alloc, text, start);
    }
    let end = literal_at(text, start, b">>")?;
    Ok((Term::Binary(Items::new(alloc)), end))
}

/// Reads a pid, such as `<0.7.0>`, after its `<0`. Returns the pid and the offset after its `>`.
fn pid_at(text: &[u8], at: usize) -> Result<(Term, usize), TextFault>
    requires { at ≤ length text.now }
    ensures within { EndsWithin text.now at result }
    ensures reads { (os : List OpenBracket) → ReadsTerm text.now at (expect at (codes ".") (digits pid) os) os result }
{
    let first = literal_at(text, at, b".")?;
    let (n, next) = number_at(text, first, first, u32::MAX as Magnitude)?;
    let end = literal_at(text, next, b".0>")?;
    Ok((Term::Pid(n as u32), end))
}

/// Reads a table identifier, such as `#Tid<7>`, after its `#`. Returns the identifier and the offset after its `>`.
pub(crate) fn identifier_at(text: &[u8], at: usize) -> Result<(Term, usize), TextFault>
    requires { at ≤ length text.now }
    ensures within { EndsWithin text.now at result }
    ensures reads { (os : List OpenBracket)
        → ReadsTerm text.now at (expect at (codes "Tid<") (digits identifier) os) os result }
{
    let first = literal_at(text, at, b"Tid<")?;
    let (n, next) = number_at(text, first, first, u32::MAX as Magnitude)?;
    let end = literal_at(text, next, b">")?;
    Ok((Term::Tid(n as u32), end))
}

/// Reads a pid or a binary after its first `<`. Returns the term and the offset after its last `>`.
pub(crate) fn pid_or_binary_at(
    alloc: Global,
    text: &[u8],
    at: usize,
) -> Result<(Term, usize), TextFault>
    requires { at ≤ length text.now }
    ensures within { EndsWithin text.now at result }
    ensures reads { (os : List OpenBracket) → ReadsTerm text.now at (reads_on angle os) os result }
{
    if at >= text.len() {
        return Err(TextFault::Unclosed(at));
    }
    match text[at] {
        b'<' => binary_at(alloc, text, at + 1),
        b'0' => pid_at(text, at + 1),
        _ => Err(TextFault::Unexpected(at)),
    }
}
