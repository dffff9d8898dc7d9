//! How the plain reader prints the parts of terms.
use super::pieces::is_name_byte;
use std::alloc::{AllocError, Global};

/// Prints a number.
pub(super) fn put_number(alloc: Global, out: &mut String, n: u128) -> Result<(), AllocError> {
    let text = format!(in alloc; "{n}")?;
    let pushed = out.push_str(text.as_str());
    drop(text);
    pushed
}

/// Prints the number at an index, with a comma before each but the first.
fn put_number_at(alloc: Global, out: &mut String, i: usize, n: u8) -> Result<(), AllocError> {
    if i > 0 {
        out.push(',')?;
    }
    put_number(alloc, out, u128::from(n))
}

/// Prints numbers with commas between them.
pub(super) fn put_numbers(alloc: Global, out: &mut String, bytes: &[u8]) -> Result<(), AllocError> {
    for (i, n) in bytes.iter().enumerate() {
        put_number_at(alloc, out, i, *n)?;
    }
    Ok(())
}

/// Returns whether an atom of this text is printed without quotes.
fn needs_no_quotes(text: &[u8]) -> bool {
    for b in text {
        if !is_name_byte(*b) {
            return false;
        }
    }
    matches!(text.first(), Some(b'a'..=b'z'))
}

/// Prints a character, with a backslash before it if it is a quote or a backslash.
fn put_character(out: &mut String, b: u8) -> Result<(), AllocError> {
    if b == b'\'' || b == b'\\' {
        out.push('\\')?;
    }
    out.push(b as char)
}

/// Prints characters, with a backslash before each quote and backslash.
fn put_characters(out: &mut String, text: &[u8]) -> Result<(), AllocError> {
    for b in text {
        put_character(out, *b)?;
    }
    Ok(())
}

/// Prints characters in quotes.
fn put_quoted(out: &mut String, text: &[u8]) -> Result<(), AllocError> {
    out.push('\'')?;
    put_characters(out, text)?;
    out.push('\'')
}

/// Prints an atom, in quotes if it needs them.
pub(super) fn put_atom(out: &mut String, text: &[u8]) -> Result<(), AllocError> {
    if needs_no_quotes(text) {
        put_characters(out, text)
    } else {
        put_quoted(out, text)
    }
}
