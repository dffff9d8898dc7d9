//! The text of a term, appended piece by piece to a sink, which is any destination of text. The public functions that
//! choose the sink are in `print`.
ghost use Rattle.std.specs.Prelude.{◌≡◌, ◌++◌, ◌-◌, ◌≤◌, ◌==◌, ◌||◌, length, take, drop, ◌∷◌, [], List, ℕ, map, decimal, codes, true, false};
ghost use Rattle.std.specs.Fmt.{signed_decimal};
ghost use Rattle.std.specs.List.{list_all, flat_map};
ghost use Rattle.ets_term.specs.Character.{is_character};
ghost use Rattle.term_text.specs.Printed.{text_of_term, join_with_commas, is_plain, escape, atom_text, comma_if};
ghost use Rattle.term_text.specs.Sent.{AppendsOrPrefix};
ghost use Rattle.term_text.specs.Text.{is_name};

use crate::bytes::{is_lowercase_byte, is_name_byte};
use crate::sink::Sink;
use ets_term::{Atom, Integer, Term};
use itoa::Buffer;

/// Appends the text of a term to a sink. If the sink fails, a prefix of the text is appended.
#[cycle(append)]
pub(crate) fn append<S: Sink>(term: &Term, out: &mut S) -> Result<(), S::Fault>
    ensures { AppendsOrPrefix (S.contents out.old) (S.contents out.new) (text_of_term term.now) result }
{
    match term {
        Term::Int(n) => append_integer(*n, out),
        Term::Atom(name) => append_atom(name, out),
        Term::Pid(n) => append_number("<0.", *n, ".0>", out),
        Term::Tid(n) => append_number("#Tid<", *n, ">", out),
        Term::Tuple(items) => append_items("{", items.as_slice(), "}", out),
        Term::List(items) => append_items("[", items.as_slice(), "]", out),
        Term::Binary(bytes) => append_bytes("<<", bytes.as_slice(), ">>", out),
    }
}

/// Appends terms, separated by commas, between the texts `front` and `back`.
#[cycle(append)]
fn append_items<S: Sink>(
    front: &str,
    items: &[Term],
    back: &str,
    out: &mut S,
) -> Result<(), S::Fault>
    ensures { AppendsOrPrefix (S.contents out.old) (S.contents out.new)
        (front.now ++ (join_with_commas false (map text_of_term items.now) ++ back.now)) result }
{
    out.write_str(front)?;
    // Whether an item comes before, so that a comma must separate the two.
    let mut later = false;
    for item in items {
        append_comma(later, out)?;
        append(item, out)?;
        later = true;
    }
    out.write_str(back)
}

/// Appends bytes in decimal, separated by commas, between the texts `front` and `back`.
fn append_bytes<S: Sink>(front: &str, bytes: &[u8], back: &str, out: &mut S) -> Result<(), S::Fault>
    ensures { AppendsOrPrefix (S.contents out.old) (S.contents out.new)
        (front.now ++ (join_with_commas false (map decimal bytes.now) ++ back.now)) result }
{
    out.write_str(front)?;
    // Whether an item comes before, so that a comma must separate the two.
    let mut later = false;
    for b in bytes {
        append_comma(later, out)?;
        append_decimal(*b as u32, out)?;
        later = true;
    }
    out.write_str(back)
}

/// Appends a comma if `later` is true: if the item that follows is not the first.
fn append_comma<S: Sink>(later: bool, out: &mut S) -> Result<(), S::Fault>
    ensures { AppendsOrPrefix (S.contents out.old) (S.contents out.new) (comma_if later) result }
{
    if later { out.write_str(",") } else { Ok(()) }
}

/// Appends a number in decimal, between the texts `front` and `back`.
fn append_number<S: Sink>(front: &str, n: u32, back: &str, out: &mut S) -> Result<(), S::Fault>
    ensures { AppendsOrPrefix (S.contents out.old) (S.contents out.new) (front.now ++ (decimal n ++ back.now)) result }
{
    out.write_str(front)?;
    append_decimal(n, out)?;
    out.write_str(back)
}

/// Appends a number in decimal.
fn append_decimal<S: Sink>(n: u32, out: &mut S) -> Result<(), S::Fault>
    ensures { AppendsOrPrefix (S.contents out.old) (S.contents out.new) (decimal n) result }
{
    let mut buffer = Buffer::new();
    out.write_str(buffer.format(n))
}

/// Appends an integer in decimal.
fn append_integer<S: Sink>(n: Integer, out: &mut S) -> Result<(), S::Fault>
    ensures { AppendsOrPrefix (S.contents out.old) (S.contents out.new) (signed_decimal n) result }
{
    let mut buffer = Buffer::new();
    out.write_str(buffer.format(n))
}

/// Appends the text of an atom.
fn append_atom<S: Sink>(name: &Atom, out: &mut S) -> Result<(), S::Fault>
    ensures { AppendsOrPrefix (S.contents out.old) (S.contents out.new) (atom_text name.now) result }
{
    let text = name.text();
    if is_plain_text(text.as_bytes()) {
        return out.write_str(text);
    }
    append_in_quotes(text, out)
}

/// Returns whether an atom of these characters needs no quotes.
fn is_plain_text(bytes: &[u8]) -> bool
    ensures { result ≡ is_plain bytes.now }
{
    match bytes {
        [] => false,
        [b, ..] => is_lowercase_byte(*b) && are_name_bytes(bytes),
    }
}

/// Returns whether an atom without quotes may contain each of the bytes.
fn are_name_bytes(bytes: &[u8]) -> bool
    ensures { result ≡ list_all is_name bytes.now }
{
    bytes.iter().all(|b| is_name_byte(*b))
}

/// Appends characters between single quotes, as the text of an atom.
fn append_in_quotes<S: Sink>(text: &str, out: &mut S) -> Result<(), S::Fault>
    requires { list_all is_character text.now ≡ true }
    ensures { AppendsOrPrefix (S.contents out.old) (S.contents out.new)
        (codes "'" ++ (flat_map escape text.now ++ codes "'")) result }
{
    out.write_str("'")?;
    append_with_escapes(text, out)?;
    out.write_str("'")
}

/// Appends characters, with a `\` before each single quote and each `\`.
fn append_with_escapes<S: Sink>(text: &str, out: &mut S) -> Result<(), S::Fault>
    requires { list_all is_character text.now ≡ true }
    ensures { AppendsOrPrefix (S.contents out.old) (S.contents out.new) (flat_map escape text.now) result }
{
    let mut start = 0;
    for (i, b) in text.as_bytes().iter().enumerate() {
        if needs_escape(*b) {
            append_piece(text, start, i, out)?;
            // The next piece begins with the character whose `\` is now appended.
            start = i;
        }
    }
    append_slice(text, start, text.len(), out)
}

/// Returns whether a `\` must precede the character between single quotes.
fn needs_escape(b: u8) -> bool
    // 39 is the ASCII code of `'`, and 92 that of `\`.
    ensures { result ≡ ((b == 39) || (b == 92)) }
{
    b == b'\'' || b == b'\\'
}

/// Appends the characters between two offsets, and then a `\`.
fn append_piece<S: Sink>(text: &str, start: usize, end: usize, out: &mut S) -> Result<(), S::Fault>
    requires ascii { list_all is_character text.now ≡ true }
    requires within { (start ≤ end) × (end ≤ length text.now) }
    // 92 is the ASCII code of `\`.
    ensures { AppendsOrPrefix (S.contents out.old) (S.contents out.new)
        (take (end - start) (drop start text.now) ++ 92 ∷ []) result }
{
    append_slice(text, start, end, out)?;
    out.write_str("\\")
}

/// Appends the characters between two offsets.
#[tactic(auto, using(crate::proofs::Escapes::boundary))]
fn append_slice<S: Sink>(text: &str, start: usize, end: usize, out: &mut S) -> Result<(), S::Fault>
    requires ascii { list_all is_character text.now ≡ true }
    requires within { (start ≤ end) × (end ≤ length text.now) }
    ensures { AppendsOrPrefix (S.contents out.old) (S.contents out.new)
        (take (end - start) (drop start text.now)) result }
{
    // The text is ASCII, so every offset in it is a boundary of characters and the slice cannot panic.
    out.write_str(&text[start..end])
}
