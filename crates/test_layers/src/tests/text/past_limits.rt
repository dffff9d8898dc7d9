//! Texts at and past the greatest depth of a term, and the greatest length of an atom.
use super::Reading::{self, Fails, Reads};
use super::{Bytes, has_reading};
use crate::tests::keep_if_ok;
use ets_term::MAX_DEPTH;
use std::alloc::{AllocError, Global};
use std::process::Abort;
use term_text::TextFault::{AtomTooLong, TooDeep, Unclosed, Unexpected};
use term_text::read_term_bytes;

/// The greatest number of characters of an atom.
const MAX_LENGTH: usize = 255;

/// The start of a text.
#[derive(Clone, Copy)]
struct Start<'a>(&'a str);

/// A part of a text, and how often it is repeated.
#[derive(Clone, Copy)]
struct Repeat<'a>(&'a str, usize);

/// The end of a text.
#[derive(Clone, Copy)]
struct End<'a>(&'a str);

/// The parts of a text, and the wanted result of reading it.
type LongRow<'a> = (Start<'a>, Repeat<'a>, End<'a>, Reading<'a>);

/// Texts at a limit or past it, with their syntax errors and the offsets of these. Where two errors are possible, the
/// row says which is found first. The offset 128 is that of the byte after `MAX_DEPTH` bytes.
const LONG: [LongRow<'static>; 9] = [
    (
        Start(""),
        Repeat("[", MAX_DEPTH),
        End("["),
        Fails(TooDeep(128)),
    ),
    (
        Start(""),
        Repeat("[", MAX_DEPTH),
        End("A"),
        Fails(Unexpected(128)),
    ),
    (
        Start(""),
        Repeat("[", MAX_DEPTH),
        End("-"),
        Fails(TooDeep(128)),
    ),
    (
        Start(""),
        Repeat("[", MAX_DEPTH - 1),
        End("\"\\"),
        Fails(TooDeep(128)),
    ),
    (
        Start(""),
        Repeat("[", MAX_DEPTH - 1),
        End("\"\t"),
        Fails(Unexpected(128)),
    ),
    (
        Start(""),
        Repeat("[", MAX_DEPTH - 1),
        End("\""),
        Fails(Unclosed(128)),
    ),
    (
        Start(""),
        Repeat("a", MAX_LENGTH + 1),
        End(""),
        Fails(AtomTooLong(0)),
    ),
    (
        Start(" '"),
        Repeat("a", MAX_LENGTH + 1),
        End(""),
        Fails(AtomTooLong(1)),
    ),
    (
        Start("'"),
        Repeat("a", MAX_LENGTH),
        End("\\"),
        Fails(AtomTooLong(0)),
    ),
];

/// Pushes a part of a text `count` times.
fn push_repeated(text: &mut String, part: &str, count: usize) -> Result<(), AllocError> {
    for _ in 0..count {
        text.push_str(part)?;
    }
    Ok(())
}

/// Pushes a start, a repeated part, and an end.
fn push_with_repeated_part(
    text: &mut String,
    start: &str,
    part: &str,
    count: usize,
    end: &str,
) -> Result<(), AllocError> {
    text.push_str(start)?;
    push_repeated(text, part, count)?;
    text.push_str(end)
}

/// Builds the text of a start, a repeated part, and an end.
pub fn text_with_repeated_part(
    alloc: Global,
    start: &str,
    part: &str,
    count: usize,
    end: &str,
) -> Result<String, AllocError> {
    let mut text = String::new(alloc);
    keep_if_ok(
        push_with_repeated_part(&mut text, start, part, count, end),
        text,
    )
}

/// Builds the text of a repeated part.
pub fn repeat_text(alloc: Global, part: &str, count: usize) -> Result<String, AllocError> {
    text_with_repeated_part(alloc, "", part, count, "")
}

/// Builds the text of a row, and returns whether it is read as the row says.
fn long_text_has_reading(alloc: Global, row: LongRow) -> Result<bool, AllocError> {
    let (start, part, end, wanted) = row;
    let text = text_with_repeated_part(alloc, start.0, part.0, part.1, end.0)?;
    let same = has_reading(alloc, text.as_bytes(), wanted);
    drop(text);
    same
}

/// Returns the index of the first row that is not read as it says.
fn first_long_mismatch(alloc: Global, rows: &[LongRow]) -> Result<Option<usize>, AllocError> {
    for (i, row) in rows.iter().enumerate() {
        if !long_text_has_reading(alloc, *row)? {
            return Ok(Some(i));
        }
    }
    Ok(None)
}

/// Checks the syntax errors of texts past a limit.
#[test]
fn texts_past_a_limit_have_their_faults(rt: HostRuntime) {
    assert_eq!(rt; first_long_mismatch(rt.alloc(), &LONG), Ok(None));
}

/// Returns whether a quoted atom of the greatest length is read, and printed without quotes.
fn longest_atom_is_read(alloc: Global) -> Result<bool, AllocError> {
    let printed = repeat_text(alloc, "a", MAX_LENGTH)?;
    let read = Reads(printed.as_str(), Bytes(MAX_LENGTH + 2));
    let same = long_text_has_reading(alloc, (Start("'"), Repeat("a", MAX_LENGTH), End("'"), read));
    drop(printed);
    same
}

/// Checks that an atom may have 255 characters.
#[test]
fn an_atom_may_have_255_characters(rt: HostRuntime) {
    assert!(rt; longest_atom_is_read(rt.alloc()) == Ok(true));
}

/// Builds the text of lists within lists, as deep as a term may be.
fn deepest_text(alloc: Global) -> Result<String, AllocError> {
    let closing = repeat_text(alloc, "]", MAX_DEPTH)?;
    let text = text_with_repeated_part(alloc, "", "[", MAX_DEPTH, closing.as_str());
    drop(closing);
    text
}

/// Returns the depth of the term of a text, and how many bytes of the text it takes.
fn depth_and_bytes_of(alloc: Global, text: &[u8]) -> Option<(usize, Bytes)> {
    let (term, taken) = read_term_bytes(alloc, text).ok()?;
    let depth = term.depth();
    drop(term);
    Some((depth, Bytes(taken)))
}

/// Returns the depth of the deepest term, and how many bytes its text takes.
fn depth_and_bytes_of_deepest(alloc: Global) -> Option<(usize, Bytes)> {
    let text = deepest_text(alloc).ok()?;
    let depth_and_bytes = depth_and_bytes_of(alloc, text.as_bytes());
    drop(text);
    depth_and_bytes
}

/// Checks that a term may be as deep as `MAX_DEPTH`.
#[test]
fn a_term_may_be_as_deep_as_the_limit(rt: HostRuntime) {
    assert!(rt; depth_and_bytes_of_deepest(rt.alloc()) == Some((MAX_DEPTH, Bytes(2 * MAX_DEPTH))));
}
