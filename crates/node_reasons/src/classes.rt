//! Classes of bytes on a line, and what a text begins or ends with.
ghost use Rattle.std.specs.Prelude.{◌≡◌, ◌≤◌, length, if◌then◌else◌};
ghost use Rattle.std.specs.List.{prefix_len};
ghost use Rattle.term_text.specs.Text.{is_blank, is_digit, is_name, begins, begins_term};
ghost use Rattle.node_reasons.specs.Classes as spec;

use term_text::{is_character_byte, is_digit_byte, is_lowercase_byte, is_name_byte};

/// Checks whether a byte is a blank on a line: a space or a tab.
fn is_gap(byte: u8) -> bool
    ensures { result ≡ spec.is_gap byte }
{
    byte == b' ' || byte == b'\t'
}

/// Checks whether a byte is allowed on a line: a tab or printable ASCII.
pub fn is_line_byte(byte: u8) -> bool
    ensures { result ≡ spec.is_line_byte byte }
{
    byte == b'\t' || is_character_byte(byte)
}

/// Checks whether a term begins with this byte, except for `#`, with which an identifier of a table begins:
/// `diagnose_after_hash` diagnoses the text after a `#`.
pub fn begins_nested_term(byte: u8) -> bool
    ensures { result ≡ spec.begins_nested_term byte }
{
    begins_atom(byte) || begins_number(byte) || matches!(byte, b'"' | b'[' | b'{' | b'<')
}

/// Checks whether an atom begins with this byte: a lower-case letter or a quote.
pub fn begins_atom(byte: u8) -> bool
    ensures { result ≡ spec.begins_atom byte }
{
    is_lowercase_byte(byte) || byte == b'\''
}

/// Checks whether an integer begins with this byte: a digit or a minus.
pub fn begins_number(byte: u8) -> bool
    ensures { result ≡ spec.begins_number byte }
{
    is_digit_byte(byte) || byte == b'-'
}

/// Checks whether a variable of Erlang begins with this byte: a capital letter or `_`.
pub fn begins_variable(byte: u8) -> bool
    ensures { result ≡ spec.begins_variable byte }
{
    matches!(byte, b'A'..=b'Z' | b'_')
}

/// Checks whether a text that is a term, perhaps after blanks, can begin with this byte.
pub fn may_begin_term(byte: u8) -> bool
    ensures { result ≡ spec.may_begin_term byte }
{
    begins_term(byte) || is_blank(byte)
}

/// Checks whether a term can begin with this byte, by the grammar of terms.
#[tactic(auto, unfolding(term_text::specs::Text::begins_term))]
fn begins_term(byte: u8) -> bool
    ensures { result ≡ begins_term byte }
{
    byte == b'{'
        || byte == b'['
        || byte == b'-'
        || byte == b'\''
        || byte == b'"'
        || byte == b'<'
        || byte == b'#'
        || is_digit_byte(byte)
        || is_lowercase_byte(byte)
}

/// Checks whether a byte is a blank of the grammar of terms, which may be between terms.
#[tactic(auto, unfolding(term_text::specs::Text::is_blank))]
fn is_blank(byte: u8) -> bool
    ensures { result ≡ is_blank byte }
{
    byte == b' ' || byte == b'\t' || byte == b'\n' || byte == b'\r'
}

/// Checks whether a term, or a number of a pid or identifier, can come after this text. Only the text's last byte that
/// is neither a space nor a tab decides.
pub fn expects_term(before: &[u8]) -> bool
    ensures { result ≡ spec.expects_term before.now }
{
    matches!(last_non_blank(before), b',' | b'{' | b'[' | b'<' | b'(')
}

/// Returns the number of bytes at the front of a text that can be in a name.
pub fn name_len(text: &[u8]) -> usize
    ensures { result ≡ prefix_len is_name text.now }
{
    text.iter().take_while(|byte| is_name_byte(**byte)).count()
}

/// Returns the number of decimal digits at the front of a text.
pub fn digits_len(text: &[u8]) -> usize
    ensures len { result ≡ prefix_len is_digit text.now }
    ensures within { result ≤ length text.now }
{
    text.iter().take_while(|byte| is_digit_byte(**byte)).count()
}

/// Checks whether a text starts with a decimal digit.
pub fn starts_with_digit(text: &[u8]) -> bool
    ensures { result ≡ begins is_digit text.now }
{
    match text {
        [first, ..] => is_digit_byte(*first),
        [] => false,
    }
}

/// Returns the last byte of a text, or 0 if it is empty.
pub fn last_byte(text: &[u8]) -> u8
    ensures { result ≡ spec.last_byte text.now }
{
    text.last().copied().unwrap_or(0)
}

/// Returns the last byte of a text that is neither a space nor a tab, or 0 if there is none.
fn last_non_blank(text: &[u8]) -> u8
    ensures { result ≡ spec.last_non_blank text.now }
{
    let mut last = 0;
    for byte in text {
        last = update_last_non_blank(last, *byte);
    }
    last
}

/// Returns the last byte that is neither a space nor a tab, after one more byte. `last` is the result before this byte.
fn update_last_non_blank(last: u8, byte: u8) -> u8
    ensures { result ≡ (if spec.is_gap byte then last else byte) }
{
    if is_gap(byte) { last } else { byte }
}
