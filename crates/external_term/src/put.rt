//! Appends fields to a vector that has room for them.
ghost use Rattle.std.specs.Prelude.{◌≡◌, ◌+◌, ◌/◌, ◌%◌, ◌≤◌, ◌<◌, ◌∷◌, [], ◌++◌, length, vec_len, vec_capacity};
ghost use Rattle.external_term.specs.Encoding.{big2, big4, digits_of};

use crate::integer::{MAX_DIGITS, Magnitude};

/// Appends the bytes.
pub(crate) fn put(bytes: &[u8], out: &mut Vec<u8>)
    requires { vec_len out.old + length bytes.now ≤ vec_capacity out.old }
    ensures items { out.new.items ≡ out.old.items ++ bytes.now }
    ensures capacity { vec_capacity out.old ≤ vec_capacity out.new }
{
    // The result is always `Ok`, because the vector has room.
    let _ = out.extend_from_slice(bytes);
}

/// Returns the byte of `n` that has the place value `unit`, a power of 256.
#[inline(always)]
fn byte_of(n: usize, unit: usize) -> u8
    requires { 0 < unit }
    ensures { result ≡ n / unit % 256 }
{
    (n / unit % 256) as u8
}

/// Appends a tag and a number of one byte.
pub(crate) fn put_tag_and_u8(tag: u8, n: u8, out: &mut Vec<u8>)
    requires { vec_len out.old + 2 ≤ vec_capacity out.old }
    ensures items { out.new.items ≡ out.old.items ++ tag ∷ n ∷ [] }
    ensures capacity { vec_capacity out.old ≤ vec_capacity out.new }
{
    out.push_reserved(tag);
    out.push_reserved(n);
}

/// Appends a tag and the low two bytes of a number, the high byte first.
pub(crate) fn put_tag_and_u16(tag: u8, n: usize, out: &mut Vec<u8>)
    requires { vec_len out.old + 3 ≤ vec_capacity out.old }
    ensures items { out.new.items ≡ out.old.items ++ tag ∷ big2 n }
    ensures capacity { vec_capacity out.old ≤ vec_capacity out.new }
{
    out.push_reserved(tag);
    out.push_reserved(byte_of(n, 256));
    out.push_reserved(byte_of(n, 1));
}

/// Appends the low four bytes of a number, the high byte first.
pub(crate) fn put_u32(n: usize, out: &mut Vec<u8>)
    requires { vec_len out.old + 4 ≤ vec_capacity out.old }
    ensures items { out.new.items ≡ out.old.items ++ big4 n }
    ensures capacity { vec_capacity out.old ≤ vec_capacity out.new }
{
    // 16777216 is 256^3, and 65536 is 256^2.
    out.push_reserved(byte_of(n, 16777216));
    out.push_reserved(byte_of(n, 65536));
    out.push_reserved(byte_of(n, 256));
    out.push_reserved(byte_of(n, 1));
}

/// Appends a tag and the low four bytes of a number, the high byte first.
pub(crate) fn put_tag_and_u32(tag: u8, n: usize, out: &mut Vec<u8>)
    requires { vec_len out.old + 5 ≤ vec_capacity out.old }
    ensures items { out.new.items ≡ out.old.items ++ tag ∷ big4 n }
    ensures capacity { vec_capacity out.old ≤ vec_capacity out.new }
{
    out.push_reserved(tag);
    put_u32(n, out);
}

/// Returns the number of bytes of a magnitude without leading zeros: 0 for 0.
#[tactic(auto, using(crate::proofs::Digits::low_none, crate::proofs::Digits::low_more, crate::proofs::Digits::low_end))]
pub(crate) fn digit_count(n: Magnitude) -> usize
    ensures count { result ≡ length (digits_of n) }
    ensures few { result ≤ MAX_DIGITS }
{
    // `n` without its low `i` bytes.
    let mut left = n;
    for i in 0..MAX_DIGITS {
        if left == 0 {
            return i;
        }
        left /= 256;
    }
    MAX_DIGITS
}

/// Appends the bytes of a magnitude without leading zeros, the low byte first. Appends nothing for 0.
#[tactic(auto, using(crate::proofs::Digits::low_none, crate::proofs::Digits::low_more, crate::proofs::Digits::low_end))]
pub(crate) fn put_digits(n: Magnitude, out: &mut Vec<u8>)
    requires { vec_len out.old + length (digits_of n) ≤ vec_capacity out.old }
    ensures items { out.new.items ≡ out.old.items ++ digits_of n }
    ensures capacity { vec_capacity out.old ≤ vec_capacity out.new }
{
    // `n` without the bytes that are already appended.
    let mut left = n;
    for i in 0..MAX_DIGITS {
        if left == 0 {
            return;
        }
        out.push_reserved((left % 256) as u8);
        left /= 256;
    }
}
