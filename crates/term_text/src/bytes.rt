//! Classes of bytes, and functions that skip blanks and names.
ghost use Rattle.std.specs.Prelude.{◌≡◌, ◌+◌, ◌≤◌, ◌==◌, length, drop, false};
ghost use Rattle.ets_term.specs.Character.{is_character};
ghost use Rattle.std.specs.List.{prefix_len};
ghost use Rattle.term_text.specs.inside.Reader.{Reading};
ghost use Rattle.term_text.specs.inside.Parts.{IgnoresBlanks, Reaches};
ghost use Rattle.term_text.specs.Text.{is_blank, is_digit, is_lowercase, is_name, begins_term, begins};

/// Returns whether the byte is a space, tab, line feed or carriage return.
#[tactic(auto, unfolding(crate::specs::Text::is_blank))]
pub(crate) fn is_blank_byte(b: u8) -> bool
    ensures { result ≡ is_blank b }
{
    b == b' ' || b == b'\t' || b == b'\n' || b == b'\r'
}

/// Returns whether the byte is a digit from `0` to `9`.
#[tactic(auto, unfolding(crate::specs::Text::is_digit))]
pub fn is_digit_byte(b: u8) -> bool
    ensures { result ≡ is_digit b }
{
    b >= b'0' && b <= b'9'
}

/// Returns whether the byte is a letter from `a` to `z`. Atoms without quotes begin with such a letter.
#[tactic(auto, unfolding(crate::specs::Text::is_lowercase))]
pub fn is_lowercase_byte(b: u8) -> bool
    ensures { result ≡ is_lowercase b }
{
    b >= b'a' && b <= b'z'
}

/// Returns whether an atom without quotes may contain the byte: an ASCII letter, a digit, `_` or `@`.
#[tactic(auto, unfolding(crate::specs::Text::is_name))]
pub fn is_name_byte(b: u8) -> bool
    ensures { result ≡ is_name b }
{
    is_lowercase_byte(b) || is_digit_byte(b) || b == b'_' || (b >= b'A' && b <= b'Z') || b == b'@'
}

/// Returns whether a term can begin with the byte.
#[tactic(auto, unfolding(crate::specs::Text::begins_term))]
pub(crate) fn is_first_byte(b: u8) -> bool
    ensures { result ≡ begins_term b }
{
    b == b'{'
        || b == b'['
        || b == b'-'
        || b == b'\''
        || b == b'"'
        || b == b'<'
        || b == b'#'
        || is_digit_byte(b)
        || is_lowercase_byte(b)
}

/// Returns whether the byte is printable ASCII, from the space to the tilde.
pub fn is_character_byte(b: u8) -> bool
    ensures { result ≡ is_character b }
{
    b >= b' ' && b <= b'~'
}

/// Returns whether the text has this byte at the offset.
#[tactic(auto, using(crate::proofs::Offsets::begins_at, crate::proofs::Offsets::begins_end))]
pub(crate) fn byte_is(text: &[u8], at: usize, sign: u8) -> bool
    ensures { result ≡ begins (λ b. b == sign) (drop at text.now) }
{
    at < text.len() && text[at] == sign
}

/// Returns whether the text has a digit at the offset.
#[tactic(auto, using(crate::proofs::Offsets::begins_at, crate::proofs::Offsets::begins_end))]
pub(crate) fn digit_at(text: &[u8], at: usize) -> bool
    ensures { result ≡ begins is_digit (drop at text.now) }
{
    at < text.len() && is_digit_byte(text[at])
}

/// Returns the offset of the first byte, from `at` on, that is not blank, or the end of the text.
#[tactic(auto, using(crate::proofs::Blanks::stops_here, crate::proofs::Blanks::stops_end, crate::proofs::Blanks::stays_more))]
pub(crate) fn past_blanks(text: &[u8], at: usize) -> usize
    requires { at ≤ length text.now }
    ensures within { (at ≤ result) × (result ≤ length text.now) }
    ensures stop { begins is_blank (drop result text.now) ≡ false }
    ensures stays { (s : Reading) → IgnoresBlanks s → Reaches text.now at s result s }
{
    let mut offset = at;
    while offset < text.len() && is_blank_byte(text[offset]) {
        offset += 1;
    }
    offset
}

/// Returns the offset of the first byte, from `at` on, that an atom without quotes may not contain.
pub(crate) fn past_name(text: &[u8], at: usize) -> usize
    requires { at ≤ length text.now }
    ensures end { result ≡ at + prefix_len is_name (drop at text.now) }
    ensures within { (at ≤ result) × (result ≤ length text.now) }
{
    let mut offset = at;
    while offset < text.len() && is_name_byte(text[offset]) {
        offset += 1;
    }
    offset
}
