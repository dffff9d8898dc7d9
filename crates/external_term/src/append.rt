//! Appends terms that contain no other terms, and headers, to a vector that has room for them.
ghost use Rattle.std.specs.Prelude.{◌≡◌, ◌+◌, ◌≤◌, ◌<◌, ◌^◌, ◌++◌, length, vec_len, vec_capacity, pos, negsuc};
ghost use Rattle.external_term.specs.Encoding.{encode_integer, atom_bytes, pid_bytes, reference_bytes, node_name_bytes, tuple_header, binary_bytes, big_bytes};

use crate::identifier::NODE;
use crate::integer::Magnitude;
use crate::put::{digit_count, put, put_digits, put_tag_and_u8, put_tag_and_u32, put_u32};
use ets_term::{Atom, Integer};

/// Appends a magnitude with its sign (0 for positive, 1 for negative), as SMALL_BIG_EXT.
fn append_big(sign: u8, n: Magnitude, out: &mut Vec<u8>)
    requires { vec_len out.old + length (big_bytes sign n) ≤ vec_capacity out.old }
    ensures items { out.new.items ≡ out.old.items ++ big_bytes sign n }
    ensures capacity { vec_capacity out.old ≤ vec_capacity out.new }
{
    // 110 is the tag SMALL_BIG_EXT. The number of bytes of the magnitude follows.
    put_tag_and_u8(110, digit_count(n) as u8, out);
    out.push_reserved(sign);
    put_digits(n, out);
}

/// Appends the integer `n`, which is not negative.
#[tactic(auto, using(crate::proofs::SmallIntegers::byte_bytes, crate::proofs::SmallIntegers::word_bytes, crate::proofs::SmallIntegers::wide_bytes))]
fn append_positive(n: Magnitude, out: &mut Vec<u8>)
    requires { vec_len out.old + length (encode_integer (pos n)) ≤ vec_capacity out.old }
    ensures items { out.new.items ≡ out.old.items ++ encode_integer (pos n) }
    ensures capacity { vec_capacity out.old ≤ vec_capacity out.new }
{
    // 97 is the tag SMALL_INTEGER_EXT, for one byte. 98 is INTEGER_EXT, for 32 bits with a sign: for `n` below 2^31.
    if n < 256 {
        put_tag_and_u8(97, n as u8, out);
    } else if n < 0x8000_0000 {
        put_tag_and_u32(98, n as usize, out);
    } else {
        append_big(0, n, out);
    }
}

/// Appends the integer `-1 - n`.
#[tactic(auto, using(crate::proofs::SmallIntegers::negative_word, crate::proofs::SmallIntegers::negative_wide))]
fn append_negative(n: Magnitude, out: &mut Vec<u8>)
    requires room { vec_len out.old + length (encode_integer (negsuc n)) ≤ vec_capacity out.old }
    requires fits { n < 2 ^ 127 }
    ensures items { out.new.items ≡ out.old.items ++ encode_integer (negsuc n) }
    ensures capacity { vec_capacity out.old ≤ vec_capacity out.new }
{
    // 98 is the tag INTEGER_EXT, for `n` below 2^31. In 32 bits of two's complement, `-1 - n` is 2^32 - 1 - `n`.
    if n < 0x8000_0000 {
        put_tag_and_u32(98, 0xFFFF_FFFF - n as usize, out);
    } else {
        // The sign 1 is negative, and the magnitude of `-1 - n` is `n + 1`.
        append_big(1, n + 1, out);
    }
}

/// Appends an integer as SMALL_INTEGER_EXT, INTEGER_EXT or SMALL_BIG_EXT.
pub(crate) fn append_integer(n: Integer, out: &mut Vec<u8>)
    requires { vec_len out.old + length (encode_integer n) ≤ vec_capacity out.old }
    ensures items { out.new.items ≡ out.old.items ++ encode_integer n }
    ensures capacity { vec_capacity out.old ≤ vec_capacity out.new }
{
    if n >= 0 {
        append_positive(n as Magnitude, out);
    } else {
        // `-(n + 1)` is in range also for the least integer, and `-n` is not.
        append_negative(-(n + 1) as Magnitude, out);
    }
}

/// Appends characters as an atom, in the form SMALL_ATOM_UTF8_EXT.
pub(crate) fn append_name(text: &[u8], out: &mut Vec<u8>)
    requires few { length text.now < 256 }
    requires room { vec_len out.old + length (atom_bytes text.now) ≤ vec_capacity out.old }
    ensures items { out.new.items ≡ out.old.items ++ atom_bytes text.now }
    ensures capacity { vec_capacity out.old ≤ vec_capacity out.new }
{
    // 119 is the tag SMALL_ATOM_UTF8_EXT.
    put_tag_and_u8(119, text.len() as u8, out);
    put(text, out);
}

/// Appends an atom as SMALL_ATOM_UTF8_EXT.
pub(crate) fn append_atom(name: &Atom, out: &mut Vec<u8>)
    requires { vec_len out.old + length (atom_bytes name.now) ≤ vec_capacity out.old }
    ensures items { out.new.items ≡ out.old.items ++ atom_bytes name.now }
    ensures capacity { vec_capacity out.old ≤ vec_capacity out.new }
{
    append_name(name.text().as_bytes(), out);
}

/// Appends the name of the node, `NODE`, as SMALL_ATOM_UTF8_EXT.
fn append_node(out: &mut Vec<u8>)
    // 15 bytes: the tag, the length and the 13 characters of `NODE`.
    requires { vec_len out.old + 15 ≤ vec_capacity out.old }
    ensures items { out.new.items ≡ out.old.items ++ node_name_bytes }
    ensures capacity { vec_capacity out.old ≤ vec_capacity out.new }
{
    // 119 is the tag SMALL_ATOM_UTF8_EXT, and 13 the number of characters of `NODE`.
    put_tag_and_u8(119, 13, out);
    put(NODE, out);
}

/// Appends the pid with this number as NEW_PID_EXT.
pub(crate) fn append_pid(n: u32, out: &mut Vec<u8>)
    requires { vec_len out.old + length (pid_bytes n) ≤ vec_capacity out.old }
    ensures items { out.new.items ≡ out.old.items ++ pid_bytes n }
    ensures capacity { vec_capacity out.old ≤ vec_capacity out.new }
{
    // 88 is the tag NEW_PID_EXT.
    out.push_reserved(88);
    append_node(out);
    put_u32(n as usize, out);
    // The serial and the creation, of 4 bytes each.
    put(&[0, 0, 0, 0, 0, 0, 0, 0], out);
}

/// Appends the table identifier with this number as NEWER_REFERENCE_EXT.
pub(crate) fn append_reference(n: u32, out: &mut Vec<u8>)
    requires { vec_len out.old + length (reference_bytes n) ≤ vec_capacity out.old }
    ensures items { out.new.items ≡ out.old.items ++ reference_bytes n }
    ensures capacity { vec_capacity out.old ≤ vec_capacity out.new }
{
    // 90 is the tag NEWER_REFERENCE_EXT. The two bytes after it are the number of words, 1.
    put(&[90, 0, 1], out);
    append_node(out);
    // The creation, and then the only word.
    put(&[0, 0, 0, 0], out);
    put_u32(n as usize, out);
}

/// Appends a binary as BINARY_EXT.
pub(crate) fn append_binary(bytes: &[u8], out: &mut Vec<u8>)
    requires { vec_len out.old + length (binary_bytes bytes.now) ≤ vec_capacity out.old }
    ensures items { out.new.items ≡ out.old.items ++ binary_bytes bytes.now }
    ensures capacity { vec_capacity out.old ≤ vec_capacity out.new }
{
    // 109 is the tag BINARY_EXT.
    put_tag_and_u32(109, bytes.len(), out);
    put(bytes, out);
}

/// Appends the tag of a tuple with its number of elements, as SMALL_TUPLE_EXT or LARGE_TUPLE_EXT.
#[tactic(auto, using(crate::proofs::Encoded::header_short, crate::proofs::Encoded::header_long))]
pub(crate) fn append_tuple_header(n: usize, out: &mut Vec<u8>)
    requires { vec_len out.old + length (tuple_header n) ≤ vec_capacity out.old }
    ensures items { out.new.items ≡ out.old.items ++ tuple_header n }
    ensures capacity { vec_capacity out.old ≤ vec_capacity out.new }
{
    // 104 is the tag SMALL_TUPLE_EXT, and 105 is LARGE_TUPLE_EXT.
    if n < 256 {
        put_tag_and_u8(104, n as u8, out);
    } else {
        put_tag_and_u32(105, n, out);
    }
}
