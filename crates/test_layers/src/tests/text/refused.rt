//! Reading and printing of terms that run out of memory. `.ci/refusals` runs these tests with each allocation refused
//! in turn.
// A retry must have the result of enough memory. Printing that is refused memory must leave the output as it was.
use super::*;
use term_text::{TextFault, read_term};

/// Reads a text. Retries once if memory is refused.
pub(crate) fn read_with_retry(alloc: Global, text: &str) -> Result<(Term, usize), TextFault> {
    let read = read_term(alloc, text);
    if !matches!(&read, Err(TextFault::Memory)) {
        return read;
    }
    drop(read);
    read_term(alloc, text)
}

/// Reads the term of a text. Retries once if memory is refused. None means a syntax error, or out of memory twice.
pub(crate) fn term_with_retry(alloc: Global, text: &str) -> Option<Term> {
    match read_with_retry(alloc, text) {
        Ok((term, _)) => Some(term),
        Err(_) => None,
    }
}

/// The text that is already in an output before a term is appended.
const PREFIX: &str = "a front: ";

/// Builds an output with the text `PREFIX`. Retries once if memory is refused.
fn prefix_with_retry(alloc: Global) -> Option<String> {
    match String::from_str(alloc, PREFIX) {
        Ok(text) => Some(text),
        Err(_) => String::from_str(alloc, PREFIX).ok(),
    }
}

/// Prints a term after the prefix, and returns whether this succeeds. If memory is refused, the output must be
/// unchanged, and a retry must succeed.
fn prints_with_retry(alloc: Global, term: &Term, text: &mut String) -> bool {
    match print_term(alloc, term, text) {
        Ok(()) => true,
        Err(_) => text.as_str() == PREFIX && print_term(alloc, term, text).is_ok(),
    }
}

/// Prints a term after the prefix. Retries once if memory is refused. Returns whether the output is then `printed`.
fn prints_text_with_retry(alloc: Global, term: &Term, text: &mut String, printed: &str) -> bool {
    prints_with_retry(alloc, term, text) && text.as_str() == printed
}

/// Returns whether the term of a text is printed after the prefix so that the output is `printed`. Retries once if
/// memory is refused.
fn is_read_and_printed_with_retry(alloc: Global, text: &str, printed: &str) -> Option<bool> {
    let term = term_with_retry(alloc, text)?;
    let same = is_printed_with_retry(alloc, &term, printed);
    drop(term);
    same
}

/// Returns whether a term is printed after the prefix so that the output is `printed`. Retries once if memory is
/// refused.
fn is_printed_with_retry(alloc: Global, term: &Term, printed: &str) -> Option<bool> {
    let mut text = prefix_with_retry(alloc)?;
    let same = prints_text_with_retry(alloc, term, &mut text, printed);
    drop(text);
    Some(same)
}

/// Returns the first text whose term is not printed as its row says, even with retries.
fn first_mismatch_with_retry(
    alloc: Global,
    rows: &[(&'static str, &'static str)],
) -> Option<&'static str> {
    for (text, printed) in rows {
        if is_read_and_printed_with_retry(alloc, *text, *printed) != Some(true) {
            return Some(*text);
        }
    }
    None
}

/// Each row is a text, and the output when its term is printed after the prefix. The terms take memory.
const TERMS: [(&str, &str); 7] = [
    ("-9223372036854775808", "a front: -9223372036854775808"),
    ("<0.4294967295.0>", "a front: <0.4294967295.0>"),
    (
        "'an atom of more than 22 characters'",
        "a front: 'an atom of more than 22 characters'",
    ),
    (
        "<<\"nine bytes\">>",
        "a front: <<110,105,110,101,32,98,121,116,101,115>>",
    ),
    ("\"a string\"", "a front: [97,32,115,116,114,105,110,103]"),
    (
        "{ {}, [1,2,3,4,5,6,7,8,9], #Tid<3>, a_plain_atom_that_is_longer_than_its_place }",
        "a front: {{},[1,2,3,4,5,6,7,8,9],#Tid<3>,a_plain_atom_that_is_longer_than_its_place}",
    ),
    (
        "[[[[[[[[[{a,{b,{c,{d,[1,2,3,4,5,6,7,8,9,10,11,12,13,14,15,16,17]}}}}]]]]]]]]]",
        "a front: [[[[[[[[[{a,{b,{c,{d,[1,2,3,4,5,6,7,8,9,10,11,12,13,14,15,16,17]}}}}]]]]]]]]]",
    ),
];

#[test]
fn a_retry_reads_and_prints_the_term(rt: HostRuntime) {
    assert_eq!(rt; first_mismatch_with_retry(rt.alloc(), &TERMS), None);
}

/// Returns whether a text has this syntax error. Retries once if memory is refused.
fn has_fault_with_retry(alloc: Global, text: &str, fault: TextFault) -> bool {
    let read = read_with_retry(alloc, text);
    let same = matches!(&read, Err(found) if *found == fault);
    drop(read);
    same
}

/// Returns the first text without the syntax error of its row, even with a retry.
fn first_fault_mismatch_with_retry(
    alloc: Global,
    rows: &[(&'static str, TextFault)],
) -> Option<&'static str> {
    for (text, fault) in rows {
        if !has_fault_with_retry(alloc, *text, *fault) {
            return Some(*text);
        }
    }
    None
}

/// Each row is a text, and its syntax error with the offset.
const FAULTS: [(&str, TextFault); 4] = [
    (
        "[1,2,{'an atom of more than 22 characters'",
        TextFault::Unclosed(42),
    ),
    (
        "{[1,2,3,4,5,6,7,8,9],a_plain_atom_that_is_longer,}",
        TextFault::Unexpected(49),
    ),
    ("\"a string\t\"", TextFault::Unexpected(9)),
    ("<<1,2,3,4,5,6,7,8,9,256>>", TextFault::OutOfRange(20)),
];

#[test]
fn a_retry_has_the_syntax_error(rt: HostRuntime) {
    assert_eq!(rt; first_fault_mismatch_with_retry(rt.alloc(), &FAULTS), None);
}
