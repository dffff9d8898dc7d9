//! Long and deep texts, built from parts, with the texts that their terms are printed as.
use super::past_limits::{repeat_text, text_with_repeated_part};
use super::writer::is_written_as;
use ets_term::{MAX_DEPTH, Term};
use std::alloc::{AllocError, Global};
use term_text::{TextFault, print_term, read_term};

/// How often a part is repeated: one more than each power of two up to 1,024, and 70,000, which is more than 2^16.
const COUNTS: [usize; 12] = [2, 3, 5, 9, 17, 33, 65, 129, 257, 513, 1_025, 70_000];

/// Returns whether `print_term` and `write_term` of a term give this text.
fn is_printed_and_written_as(
    alloc: Global,
    term: &Term,
    printed: &str,
) -> Result<bool, AllocError> {
    let mut out = String::new(alloc);
    let outcome = print_term(alloc, term, &mut out);
    let same = out.as_str() == printed;
    drop(out);
    outcome?;
    Ok(same && is_written_as(alloc, term, printed))
}

/// Returns whether the whole text is read as a term, and the term is printed and written as `printed`.
fn is_read_whole(alloc: Global, text: &str, printed: &str) -> Result<bool, AllocError> {
    match read_term(alloc, text) {
        Ok((term, taken)) => {
            let same = is_printed_and_written_as(alloc, &term, printed);
            drop(term);
            Ok(same? && taken == text.len())
        }
        Err(_) => Ok(false),
    }
}

/// A start, a repeated part and an end: of a text, and of the text that its term is printed as.
#[derive(Clone, Copy)]
struct Repeated {
    /// The parts of a text to be read.
    text: [&'static str; 3],
    /// The parts of the text that its term is printed as.
    printed: [&'static str; 3],
}

/// Strings, which are printed as lists of bytes.
const STRING: Repeated = Repeated {
    text: ["\"a", "b", "\""],
    printed: ["[97", ",98", "]"],
};

/// Binaries as strings, which are printed as bytes.
const BYTES: Repeated = Repeated {
    text: ["<<\"a", "b", "\">>"],
    printed: ["<<97", ",98", ">>"],
};

/// Tuples of quoted atoms, with blanks that are not printed.
const TUPLE: Repeated = Repeated {
    text: ["{'A b'", " , 'A b'", "}"],
    printed: ["{'A b'", ",'A b'", "}"],
};

/// Builds the text of three parts, with the second part repeated `count` times.
fn repeated_text(
    alloc: Global,
    parts: [&'static str; 3],
    count: usize,
) -> Result<String, AllocError> {
    let [front, part, end] = parts;
    text_with_repeated_part(alloc, front, part, count, end)
}

/// Returns whether the text of these parts, the second `count` times, is read as a term that is printed as `printed`.
fn repeated_is_printed_as(
    alloc: Global,
    parts: [&'static str; 3],
    count: usize,
    printed: &str,
) -> Result<bool, AllocError> {
    let text = repeated_text(alloc, parts, count)?;
    let whole = is_read_whole(alloc, text.as_str(), printed);
    drop(text);
    whole
}

/// Returns whether a text with a repeated part is read and printed as its row says, and the printed text is read and
/// printed unchanged.
fn repeated_is_read(alloc: Global, row: Repeated, count: usize) -> Result<bool, AllocError> {
    let printed = repeated_text(alloc, row.printed, count)?;
    let text_is_read = repeated_is_printed_as(alloc, row.text, count, printed.as_str());
    let printed_is_read = is_read_whole(alloc, printed.as_str(), printed.as_str());
    drop(printed);
    Ok(text_is_read? && printed_is_read?)
}

/// Returns whether the texts of a row are read and printed for each number of repetitions.
fn is_read_at_each_count(
    alloc: Global,
    row: Repeated,
    counts: &[usize],
) -> Result<bool, AllocError> {
    for count in counts {
        if !repeated_is_read(alloc, row, *count)? {
            return Ok(false);
        }
    }
    Ok(true)
}

/// Checks long strings, binaries and tuples.
#[test]
fn long_texts_are_read_and_printed(rt: HostRuntime) {
    assert!(rt; is_read_at_each_count(rt.alloc(), STRING, &COUNTS) == Ok(true));
    assert!(rt; is_read_at_each_count(rt.alloc(), BYTES, &COUNTS) == Ok(true));
    assert!(rt; is_read_at_each_count(rt.alloc(), TUPLE, &COUNTS) == Ok(true));
}

/// Builds the text of brackets within brackets, to this depth.
fn nested_brackets(
    alloc: Global,
    open: &str,
    close: &str,
    levels: usize,
) -> Result<String, AllocError> {
    let closing = repeat_text(alloc, close, levels)?;
    let text = text_with_repeated_part(alloc, "", open, levels, closing.as_str());
    drop(closing);
    text
}

/// Returns whether nested brackets of this depth are read, and printed unchanged.
fn brackets_are_read(
    alloc: Global,
    open: &str,
    close: &str,
    levels: usize,
) -> Result<bool, AllocError> {
    let text = nested_brackets(alloc, open, close, levels)?;
    let whole = is_read_whole(alloc, text.as_str(), text.as_str());
    drop(text);
    whole
}

/// Returns whether a text is refused as too deep at the offset 128, that of the 129th bracket.
fn is_too_deep_text(alloc: Global, text: &str) -> bool {
    let read = read_term(alloc, text);
    let refused = matches!(&read, Err(TextFault::TooDeep(128)));
    drop(read);
    refused
}

/// Returns whether brackets one level deeper than the limit are refused at the last opening bracket.
fn brackets_are_too_deep(alloc: Global, open: &str, close: &str) -> Result<bool, AllocError> {
    let text = nested_brackets(alloc, open, close, MAX_DEPTH + 1)?;
    let refused = is_too_deep_text(alloc, text.as_str());
    drop(text);
    Ok(refused)
}

/// Returns whether brackets are read and printed at each depth up to the limit, and refused above it.
fn brackets_are_read_to_limit(alloc: Global, open: &str, close: &str) -> Result<bool, AllocError> {
    for levels in 1..=MAX_DEPTH {
        if !brackets_are_read(alloc, open, close, levels)? {
            return Ok(false);
        }
    }
    brackets_are_too_deep(alloc, open, close)
}

/// Checks nested lists and tuples of each depth up to one above the limit.
#[test]
fn deep_texts_are_read_up_to_the_limit(rt: HostRuntime) {
    assert!(rt; brackets_are_read_to_limit(rt.alloc(), "[", "]") == Ok(true));
    assert!(rt; brackets_are_read_to_limit(rt.alloc(), "{", "}") == Ok(true));
}
