//! The problem at the syntax error of a line, found from the bytes around it.
ghost use Rattle.std.specs.Prelude.{◌≡◌};
ghost use Rattle.node_reasons.specs.SyntaxProblems as spec;

use crate::classes::{
    begins_atom, begins_nested_term, begins_number, begins_variable, digits_len, expects_term,
    is_line_byte, last_byte, may_begin_term, name_len, starts_with_digit,
};
use crate::lex_state::{LexState, QuoteState};
use ets_term::{MAX_CHARACTERS, MAX_DEPTH};
use term_text::{is_digit_byte, is_lowercase_byte};

/// The least number of digits of a number that can be out of range. Ten digits can exceed 2^32 - 1, the greatest number
/// of a pid or table identifier.
const LONG_NUMBER: usize = 10;

/// The problem at the syntax error of a line.
#[derive(Clone, Copy, Debug, PartialEq, Eq)]
pub enum SyntaxProblem {
    /// The line ends, and no parenthesis was opened.
    EndOfLine,
    /// The line ends among the arguments.
    EndOfLineInCall,
    /// The line ends in a bracket, or in quotes.
    EndOfLineInTerm,
    /// A byte that is neither printable ASCII nor a tab.
    NotPrintable(u8),
    /// A `.`, as at the end of an expression of Erlang.
    FullStop,
    /// A `%`, which begins a comment. A comment must be on a line of its own.
    Comment,
    /// More text after the parenthesis that ends a call.
    TrailingText,
    /// A capital letter or `_`, as at the start of a variable of Erlang.
    Variable,
    /// A `.` between two digits, as in `1.5`.
    Float,
    /// A map, as `#{a => 1}`.
    Map,
    /// A `#` with other text directly after it, as `#Ref<1>`.
    UnsupportedReference,
    /// A character as `$a`.
    Character,
    /// A number as `16#ff`.
    BasedInteger,
    /// A `|`, as in `[a|b]`.
    ImproperList,
    /// A colon, as between a module and its function.
    Colon,
    /// A `+`, as in `+1`.
    PlusSign,
    /// A backslash inside quotes before a byte that is neither the quote, which is this byte, nor a backslash.
    Escape(u8),
    /// An integer, or the number of a pid or table identifier, that is out of range.
    IntegerOutOfRange,
    /// An atom of more than 255 characters.
    LongName,
    /// A term of more than 128 levels.
    TooDeep,
    /// A text that begins as a term does, and not as a call.
    NotACall,
    /// Any other byte that cannot be here.
    Other(u8),
}

/// Diagnoses a line that is not a command, at the offset `at` of its syntax error. An offset past the end counts as the
/// end of the line.
pub fn diagnose_at(line: &[u8], at: usize) -> SyntaxProblem
    ensures { result ≡ spec.diagnose_at line.now at }
{
    let (before, rest) = line.split_at(at.min(line.len()));
    match rest {
        [] => diagnose_end(&LexState::of_text(before)),
        [byte, after @ ..] => diagnose_byte(before, *byte, after),
    }
}

/// Diagnoses a text that is not a call, at the offset `at` of its syntax error. An error at offset 0 usually means that
/// the text is a term that is not a call, such as the tuple `{lookup,t,a}`.
pub fn diagnose_in_call(text: &[u8], at: usize) -> SyntaxProblem
    ensures { result ≡ spec.diagnose_in_call text.now at }
{
    match diagnose_at(text, at) {
        SyntaxProblem::Other(byte) if at == 0 && may_begin_term(byte) => SyntaxProblem::NotACall,
        problem => problem,
    }
}

/// Diagnoses a line that ends too early, by the lexical state at its end.
fn diagnose_end(state: &LexState) -> SyntaxProblem
    ensures { result ≡ spec.diagnose_end state.now }
{
    if state.quotes.is_quoted() || state.levels > 0 {
        SyntaxProblem::EndOfLineInTerm
    } else if state.has_opened {
        SyntaxProblem::EndOfLineInCall
    } else {
        SyntaxProblem::EndOfLine
    }
}

/// Diagnoses a syntax error at a byte, by the text before it and the text after it.
fn diagnose_byte(before: &[u8], byte: u8, after: &[u8]) -> SyntaxProblem
    ensures { result ≡ spec.diagnose_byte before.now byte after.now }
{
    let state = LexState::of_text(before);
    if !is_line_byte(byte) {
        SyntaxProblem::NotPrintable(byte)
    } else if state.quotes.is_quoted() {
        diagnose_in_quotes(&state, byte)
    } else if state.has_closed {
        diagnose_after_call(byte)
    } else if expects_term(before) {
        diagnose_term_start(&state, before, byte, after)
    } else {
        diagnose_unexpected_byte(before, byte, after)
    }
}

/// Diagnoses a byte inside quotes.
fn diagnose_in_quotes(state: &LexState, byte: u8) -> SyntaxProblem
    ensures { result ≡ spec.diagnose_in_quotes state.now byte }
{
    match state.quotes {
        QuoteState::Escaped(quote) => SyntaxProblem::Escape(quote),
        // A string is a list: its characters are one level deeper than the string.
        _ if state.levels >= MAX_DEPTH - 1 => SyntaxProblem::TooDeep,
        _ => SyntaxProblem::Other(byte),
    }
}

/// Diagnoses a byte after the parenthesis that ends a call.
fn diagnose_after_call(byte: u8) -> SyntaxProblem
    ensures { result ≡ spec.diagnose_after_call byte }
{
    match byte {
        b'.' => SyntaxProblem::FullStop,
        b'%' => SyntaxProblem::Comment,
        _ => SyntaxProblem::TrailingText,
    }
}

/// Diagnoses a byte where a term must begin. An atom that is too long, or an integer out of range, has its syntax error
/// at its start.
fn diagnose_term_start(state: &LexState, before: &[u8], byte: u8, after: &[u8]) -> SyntaxProblem
    ensures { result ≡ spec.diagnose_term_start state.now before.now byte after.now }
{
    if state.levels >= MAX_DEPTH && begins_nested_term(byte) {
        SyntaxProblem::TooDeep
    } else if begins_atom(byte) {
        SyntaxProblem::LongName
    } else if begins_number(byte) {
        SyntaxProblem::IntegerOutOfRange
    } else {
        diagnose_unexpected_byte(before, byte, after)
    }
}

/// Diagnoses a byte that cannot follow the text before it.
fn diagnose_unexpected_byte(before: &[u8], byte: u8, after: &[u8]) -> SyntaxProblem
    ensures { result ≡ spec.diagnose_unexpected_byte before.now byte after.now }
{
    let last = last_byte(before);
    if last == b'#' {
        return diagnose_after_hash(byte);
    }
    let follows_digit = is_digit_byte(last);
    match byte {
        b'.' if follows_digit && starts_with_digit(after) => SyntaxProblem::Float,
        b'#' if follows_digit => SyntaxProblem::BasedInteger,
        _ => diagnose_sign(byte, after),
    }
}

/// Diagnoses a byte after `#`.
fn diagnose_after_hash(byte: u8) -> SyntaxProblem
    ensures { result ≡ spec.diagnose_after_hash byte }
{
    match byte {
        b'{' => SyntaxProblem::Map,
        _ => SyntaxProblem::UnsupportedReference,
    }
}

/// Diagnoses a byte by the byte and the text after it, whatever text is before it.
fn diagnose_sign(byte: u8, after: &[u8]) -> SyntaxProblem
    ensures { result ≡ spec.diagnose_sign byte after.now }
{
    match byte {
        b'.' => SyntaxProblem::FullStop,
        b'%' => SyntaxProblem::Comment,
        b'|' => SyntaxProblem::ImproperList,
        b'$' => SyntaxProblem::Character,
        b':' => SyntaxProblem::Colon,
        b'+' => SyntaxProblem::PlusSign,
        _ if begins_variable(byte) => SyntaxProblem::Variable,
        _ => diagnose_word(byte, after),
    }
}

/// Diagnoses the start of a name or a number that is too long, or any other byte that is not allowed here.
fn diagnose_word(byte: u8, after: &[u8]) -> SyntaxProblem
    ensures { result ≡ spec.diagnose_word byte after.now }
{
    // `byte` is one more character, or one more digit, than `after` has.
    if is_lowercase_byte(byte) && name_len(after) >= MAX_CHARACTERS {
        SyntaxProblem::LongName
    } else if is_digit_byte(byte) && digits_len(after) + 1 >= LONG_NUMBER {
        SyntaxProblem::IntegerOutOfRange
    } else {
        SyntaxProblem::Other(byte)
    }
}
