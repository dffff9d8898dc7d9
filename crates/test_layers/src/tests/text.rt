//! Texts of terms: rows of texts, and the terms or syntax errors that are read from them by the rules of the text.

// The reader, compared with a plain reader.
mod against_reference;
// Long and deep texts.
mod long;
// Texts at a limit and past it.
pub(crate) mod past_limits;
// The plain reader.
mod reference;
// Reading and printing that run out of memory.
pub(crate) mod refused;
// Writers that fail.
mod writer;

use Reading::{Fails, Reads};
use ets_term::Term;
use std::alloc::{AllocError, Global};
use std::process::Abort;
use term_text::TextFault::{self, OutOfRange, Unclosed, Unexpected};
use term_text::{print_term, read_term_bytes};

/// Returns the printed term, a blank, and `taken`: how many bytes of its text the term took.
fn print_with_length(alloc: Global, term: &Term, taken: usize) -> Result<String, AllocError> {
    let mut text = String::new(alloc);
    let result = match print_term(alloc, term, &mut text) {
        Ok(()) => format!(in alloc; "{text} {taken}"),
        Err(error) => Err(error),
    };
    drop(text);
    result
}

/// Reads a text. Returns the result as a text: the printed term, a blank and how many bytes the term took, or the
/// syntax error.
fn result_of(alloc: Global, text: &[u8]) -> Result<String, AllocError> {
    match read_term_bytes(alloc, text) {
        Ok((term, taken)) => {
            let result = print_with_length(alloc, &term, taken);
            drop(term);
            result
        }
        Err(fault) => format!(in alloc; "{fault:?}"),
    }
}

/// Returns whether a text has this result, as `result_of` spells it.
fn has_result(alloc: Global, text: &[u8], wanted: &str) -> Result<bool, AllocError> {
    let result = result_of(alloc, text)?;
    let same = result.as_str() == wanted;
    drop(result);
    Ok(same)
}

/// How many bytes of a text its term took.
#[derive(Clone, Copy, PartialEq, Eq)]
pub(crate) struct Bytes(usize);

/// The wanted result of reading a text.
#[derive(Clone, Copy)]
pub(crate) enum Reading<'a> {
    /// A term that is printed as this text, and takes this many bytes of the text that is read.
    Reads(&'a str, Bytes),
    /// A syntax error. Its number is the offset.
    Fails(TextFault),
}

/// Returns whether a text is read as a row says.
fn has_reading(alloc: Global, text: &[u8], wanted: Reading) -> Result<bool, AllocError> {
    let wanted = match wanted {
        Reads(printed, bytes) => format!(in alloc; "{printed} {}", bytes.0)?,
        Fails(fault) => format!(in alloc; "{fault:?}")?,
    };
    let same = has_result(alloc, text, wanted.as_str());
    drop(wanted);
    same
}

/// Returns the first text that is not read as its row says.
fn first_mismatch(
    alloc: Global,
    rows: &[(&'static str, Reading)],
) -> Result<Option<&'static str>, AllocError> {
    for (text, wanted) in rows {
        if !has_reading(alloc, text.as_bytes(), *wanted)? {
            return Ok(Some(*text));
        }
    }
    Ok(None)
}

/// Each row is a text and its wanted result: the printed term and the bytes that it takes, or the syntax error with its
/// offset. The texts begin with a digit, a minus, a letter or a single quote, perhaps after a space, or are blank.
const NUMBERS_AND_ATOMS: [(&str, Reading); 26] = [
    ("007 ", Reads("7", Bytes(3))),
    ("-0", Reads("0", Bytes(2))),
    ("-", Fails(Unclosed(1))),
    ("- 1", Fails(Unexpected(1))),
    (
        "9223372036854775808",
        Reads("9223372036854775808", Bytes(19)),
    ),
    (
        "18446744073709551615",
        Reads("18446744073709551615", Bytes(20)),
    ),
    (
        "18446744073709551616",
        Reads("18446744073709551616", Bytes(20)),
    ),
    (
        "-184467440737095516159",
        Reads("-184467440737095516159", Bytes(22)),
    ),
    (
        "170141183460469231731687303715884105727",
        Reads("170141183460469231731687303715884105727", Bytes(39)),
    ),
    (
        "170141183460469231731687303715884105728",
        Fails(OutOfRange(0)),
    ),
    (
        "-170141183460469231731687303715884105728",
        Reads("-170141183460469231731687303715884105728", Bytes(40)),
    ),
    (
        " -170141183460469231731687303715884105729",
        Fails(OutOfRange(1)),
    ),
    ("a@B_9-", Reads("a@B_9", Bytes(5))),
    ("aé", Reads("a", Bytes(1))),
    ("é", Fails(Unexpected(0))),
    ("Ab", Fails(Unexpected(0))),
    ("'Hello World'", Reads("'Hello World'", Bytes(13))),
    ("'plain'", Reads("plain", Bytes(7))),
    ("''", Reads("''", Bytes(2))),
    ("'\\\\\\''", Reads("'\\\\\\''", Bytes(6))),
    ("'abc", Fails(Unclosed(4))),
    ("'a\\n'", Fails(Unexpected(3))),
    ("'a\\\"'", Fails(Unexpected(3))),
    ("'a\t'", Fails(Unexpected(2))),
    ("", Fails(Unclosed(0))),
    (" \t\r\n", Fails(Unclosed(4))),
];

/// Checks what is read from texts of integers and atoms.
#[test]
fn numbers_and_atoms_are_read(rt: HostRuntime) {
    assert_eq!(rt; first_mismatch(rt.alloc(), &NUMBERS_AND_ATOMS), Ok(None));
}

/// Each row is a text and its wanted result: the printed term and the bytes that it takes, or the syntax error with its
/// offset. The texts begin with a bracket or a double quote.
const BRACKETS_AND_STRINGS: [(&str, Reading); 11] = [
    (" {}x", Reads("{}", Bytes(3))),
    ("[a,]", Fails(Unexpected(3))),
    ("[,a]", Fails(Unexpected(1))),
    ("[a}", Fails(Unexpected(2))),
    ("[a,", Fails(Unclosed(3))),
    ("[ 1 ,{ } , [] ]", Reads("[1,{},[]]", Bytes(15))),
    (
        "{key123,456,[1,2,3],'Hello World'}",
        Reads("{key123,456,[1,2,3],'Hello World'}", Bytes(34)),
    ),
    ("\"ab\"", Reads("[97,98]", Bytes(4))),
    ("\"\"", Reads("[]", Bytes(2))),
    ("\"a\\'\"", Fails(Unexpected(3))),
    ("\"a\\\"\"", Reads("[97,34]", Bytes(5))),
];

/// Checks what is read from texts of tuples, lists and strings.
#[test]
fn brackets_and_strings_are_read(rt: HostRuntime) {
    assert_eq!(rt; first_mismatch(rt.alloc(), &BRACKETS_AND_STRINGS), Ok(None));
}

/// Each row is a text and its wanted result: the printed term and the bytes that it takes, or the syntax error with its
/// offset. The texts begin with `<` or `#`.
const BINARIES_PIDS_AND_IDENTIFIERS: [(&str, Reading); 20] = [
    ("<<256>>", Fails(OutOfRange(2))),
    ("<< 1, 2 >>", Reads("<<1,2>>", Bytes(10))),
    ("<<0255>>", Reads("<<255>>", Bytes(8))),
    ("<< >>", Reads("<<>>", Bytes(5))),
    ("<<1 >", Fails(Unclosed(5))),
    ("<<1> >", Fails(Unexpected(4))),
    ("<<-1>>", Fails(Unexpected(2))),
    ("<<\"hi\" >>", Reads("<<104,105>>", Bytes(9))),
    ("<<\"a\",1>>", Fails(Unexpected(5))),
    ("<<1,\"a\">>", Fails(Unexpected(4))),
    ("<0.007.0>", Reads("<0.7.0>", Bytes(9))),
    ("<0.7.1>", Fails(Unexpected(5))),
    ("<00.7.0>", Fails(Unexpected(2))),
    ("<0.7.00>", Fails(Unexpected(6))),
    ("<0.4294967296.0>", Fails(OutOfRange(3))),
    ("<0.", Fails(Unclosed(3))),
    ("< 0", Fails(Unexpected(1))),
    ("#Tid<4294967295>", Reads("#Tid<4294967295>", Bytes(16))),
    ("#Tid<4294967296>", Fails(OutOfRange(5))),
    ("#tid", Fails(Unexpected(1))),
];

/// Checks what is read from texts of binaries, pids and identifiers of tables.
#[test]
fn binaries_pids_and_identifiers_are_read(rt: HostRuntime) {
    assert_eq!(rt;
        first_mismatch(rt.alloc(), &BINARIES_PIDS_AND_IDENTIFIERS),
        Ok(None)
    );
}
