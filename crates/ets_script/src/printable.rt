//! Printable bytes: those that are allowed on a line outside comments, the tab and printable ASCII.
ghost use Rattle.std.specs.Prelude.{◌≡◌, ◌≤◌, length};
ghost use Rattle.std.specs.List.{list_all, prefix_len};
ghost use Rattle.ets_script.specs.Classes as spec;

use term_text::is_character_byte;

/// Checks whether a byte is allowed on a line outside comments.
fn is_printable(byte: u8) -> bool
    ensures { result ≡ spec.is_printable byte }
{
    byte == b'\t' || is_character_byte(byte)
}

/// The number of bytes that are checked together.
const GROUP: usize = 8;

/// Checks whether all bytes are printable, as on nearly all lines. Groups of bytes are checked together. The last group
/// may overlap the previous group.
pub fn are_printable(text: &[u8]) -> bool
    ensures { result ≡ list_all spec.is_printable text.now }
{
    if text.len() < GROUP {
        return are_each_printable(text);
    }
    let (groups, _) = text.split_at(text.len() / GROUP * GROUP);
    let (_, last) = text.split_at(text.len() - GROUP);
    are_each_printable(groups) && are_each_printable(last)
}

/// Checks whether each byte is printable. The scan has no early exit, so that it can be vectorised.
#[inline(always)]
fn are_each_printable(text: &[u8]) -> bool
    ensures { result ≡ list_all spec.is_printable text.now }
{
    // Whether all bytes so far are printable.
    let mut are = true;
    for byte in text {
        are &= is_printable(*byte);
    }
    are
}

/// Returns the number of printable bytes at the front.
pub fn printable_len(text: &[u8]) -> usize
    ensures len { result ≡ prefix_len spec.is_printable text.now }
    ensures within { result ≤ length text.now }
{
    if are_printable(text) {
        return text.len();
    }
    text.iter().take_while(|byte| is_printable(**byte)).count()
}
