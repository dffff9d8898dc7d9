//! The parsers of the parts of a line, of which the parsers of commands are composed. Each returns what it parsed, and
//! the text after it. A fault is the rest of the text, from the syntax error on.
ghost use Rattle.std.specs.Prelude.{[], IfOk};
ghost use Rattle.ets_term.specs.Character.{IsAtomText};
ghost use Rattle.ets_script.specs.Reads.{read};
ghost use Rattle.ets_script.specs.Commands as spec;
ghost use Rattle.ets_script.specs.inside.Parsing.{GivesExactly};

use crate::classes::{name_len, skip_blanks, starts_blank, starts_digit, starts_lowercase};
use crate::parse_stop::ParseStop;
use ets_term::MAX_CHARACTERS;
use term_text::{Magnitude, digits_at};

/// Parses one or more blanks, and returns the text after them.
pub fn parse_gap(text: &[u8]) -> Result<&[u8], ParseStop<'_>>
    ensures { GivesExactly (λ r. read tt r.now) result (spec.gap text.now) }
{
    if !starts_blank(text) {
        return Err(ParseStop::Fault(text));
    }
    Ok(skip_blanks(text))
}

/// Parses a name, or the word of a call: at most `MAX_CHARACTERS` bytes, of which the first is a lower-case letter.
/// Returns it and the text after it.
pub fn parse_word(text: &[u8]) -> Result<(&[u8], &[u8]), ParseStop<'_>>
    ensures word { GivesExactly (λ r. read r.0.now r.1.now) result (spec.word text.now) }
    ensures atom { IfOk result (λ r. IsAtomText r.0.now) }
{
    let len = name_len(text);
    if !starts_lowercase(text) || len > MAX_CHARACTERS {
        return Err(ParseStop::Fault(text));
    }
    Ok(text.split_at(len))
}

/// Parses the parenthesis before arguments, with blanks before it, and returns the text after it.
pub fn parse_open_parenthesis(text: &[u8]) -> Result<&[u8], ParseStop<'_>>
    ensures { GivesExactly (λ r. read tt r.now) result (spec.open_parenthesis text.now) }
{
    match skip_blanks(text) {
        [b'(', rest @ ..] => Ok(rest),
        rest => Err(ParseStop::Fault(rest)),
    }
}

/// Checks that a line ends here: only blanks may follow.
pub fn parse_end(text: &[u8]) -> Result<(), ParseStop<'_>>
    ensures { GivesExactly (λ _. read tt []) result (spec.line_end text.now) }
{
    match skip_blanks(text) {
        [] => Ok(()),
        rest => Err(ParseStop::Fault(rest)),
    }
}

/// Parses the number of a bucket: digits, of a number below 2^32. Returns it and the text after it.
pub fn parse_bucket(text: &[u8]) -> Result<(u32, &[u8]), ParseStop<'_>>
    ensures { GivesExactly (λ r. read r.0 r.1.now) result (spec.bucket text.now) }
{
    // `digits_at` also accepts a text without digits, as 0, so the first digit is checked too.
    match digits_at(text, 0, u32::MAX as Magnitude) {
        Some((bucket, end)) if starts_digit(text) => {
            let (_, rest) = text.split_at(end);
            Ok((bucket as u32, rest))
        }
        _ => Err(ParseStop::Fault(text)),
    }
}

/// Parses what follows an argument: a comma, or the closing parenthesis. Returns whether an argument must follow, which
/// a comma says, and the text after it.
pub fn parse_separator(text: &[u8]) -> Result<(bool, &[u8]), ParseStop<'_>>
    ensures { GivesExactly (λ r. read r.0 r.1.now) result (spec.separator text.now) }
{
    match skip_blanks(text) {
        [b',', rest @ ..] => Ok((true, rest)),
        [b')', rest @ ..] => Ok((false, rest)),
        rest => Err(ParseStop::Fault(rest)),
    }
}
