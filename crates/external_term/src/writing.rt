//! Appends terms to bytes in memory.
ghost use Rattle.std.specs.Prelude.{◌≡◌, ◌+◌, ◌≤◌, ◌++◌, ◌↔◌, ◌^◌, length, map, min, vec_len, vec_capacity, OnOk, OnErr, IsErrOf};
ghost use Rattle.ets_term.specs.Encoding.{concat};
ghost use Rattle.external_term.specs.Encoding.{encode, tuple_bytes, list_bytes, string_bytes, long_list_bytes, char_of, encode_with_version};

use crate::append::{
    append_atom, append_binary, append_integer, append_pid, append_reference, append_tuple_header,
};
use crate::fault::ExternalWriteFault;
use crate::put::{put_tag_and_u16, put_tag_and_u32};
use crate::sizes::size_of_term;
use crate::small::{byte_of_term, is_string};
use crate::tag::{LIST_EXT, NIL_EXT, STRING_EXT, VERSION};
use ets_term::Term;

/// The greatest number of bytes of a written term, with the version: 2^32 - 1. So each length fits its 4 bytes.
pub const MAX_BYTES: usize = 0xFFFF_FFFF;

/// Returns the number of bytes that `write_external` appends for a term, or `usize::MAX` if it is greater.
pub fn external_size(term: &Term) -> usize
    ensures { result ≡ min (length (encode_with_version term.now)) usize.MAX }
{
    // The version has 1 byte.
    size_of_term(term).saturating_add(1)
}

/// Appends the version and the term. First reserves memory for all bytes. Changes nothing if memory is refused, or if
/// the bytes are more than `MAX_BYTES`.
pub fn write_external(term: &Term, out: &mut Vec<u8>) -> Result<(), ExternalWriteFault>
    ensures ok { OnOk result (out.new.items ≡ out.old.items ++ encode_with_version term.now) }
    ensures err { OnErr result (out.new.items ≡ out.old.items) }
    ensures large { IsErrOf result ExternalWriteFault.TooLarge ↔ 2 ^ 32 ≤ length (encode_with_version term.now) }
{
    let size = external_size(term);
    if size > MAX_BYTES {
        return Err(ExternalWriteFault::TooLarge);
    }
    if out.reserve(size).is_err() {
        return Err(ExternalWriteFault::Memory);
    }
    out.push_reserved(VERSION);
    append_term(term, out);
    Ok(())
}

/// Appends a term, without the version.
#[cycle(append)]
fn append_term(term: &Term, out: &mut Vec<u8>)
    requires { vec_len out.old + length (encode term.now) ≤ vec_capacity out.old }
    ensures items { out.new.items ≡ out.old.items ++ encode term.now }
    ensures capacity { vec_capacity out.old ≤ vec_capacity out.new }
{
    match term {
        Term::Int(n) => append_integer(*n, out),
        Term::Atom(name) => append_atom(name, out),
        Term::Pid(n) => append_pid(*n, out),
        Term::Tid(n) => append_reference(*n, out),
        Term::Tuple(items) => append_tuple(items.as_slice(), out),
        Term::List(items) => append_list(items.as_slice(), out),
        Term::Binary(bytes) => append_binary(bytes.as_slice(), out),
    }
}

/// Appends the tuple of these elements: its header, and then the elements.
#[cycle(append)]
fn append_tuple(items: &[Term], out: &mut Vec<u8>)
    requires { vec_len out.old + length (tuple_bytes (map encode items.now)) ≤ vec_capacity out.old }
    ensures items { out.new.items ≡ out.old.items ++ tuple_bytes (map encode items.now) }
    ensures capacity { vec_capacity out.old ≤ vec_capacity out.new }
{
    append_tuple_header(items.len(), out);
    append_items(items, out);
}

/// Appends the list of these elements as NIL_EXT, STRING_EXT or LIST_EXT.
#[cycle(append)]
#[tactic(auto, using(crate::proofs::Encoded::list_empty, crate::proofs::Encoded::list_string, crate::proofs::Encoded::list_long))]
fn append_list(items: &[Term], out: &mut Vec<u8>)
    requires { vec_len out.old + length (list_bytes (map encode items.now)) ≤ vec_capacity out.old }
    ensures items { out.new.items ≡ out.old.items ++ list_bytes (map encode items.now) }
    ensures capacity { vec_capacity out.old ≤ vec_capacity out.new }
{
    if items.is_empty() {
        out.push_reserved(NIL_EXT);
    } else if is_string(items) {
        append_string(items, out);
    } else {
        append_long_list(items, out);
    }
}

/// Appends a list of bytes as STRING_EXT.
fn append_string(items: &[Term], out: &mut Vec<u8>)
    requires { vec_len out.old + length (string_bytes (map encode items.now)) ≤ vec_capacity out.old }
    ensures items { out.new.items ≡ out.old.items ++ string_bytes (map encode items.now) }
    ensures capacity { vec_capacity out.old ≤ vec_capacity out.new }
{
    put_tag_and_u16(STRING_EXT, items.len(), out);
    append_chars(items, out);
}

/// Appends the characters of a string: the elements, all of them bytes.
pub(crate) fn append_chars(items: &[Term], out: &mut Vec<u8>)
    requires { vec_len out.old + length items.now ≤ vec_capacity out.old }
    ensures items { out.new.items ≡ out.old.items ++ map char_of (map encode items.now) }
    ensures capacity { vec_capacity out.old ≤ vec_capacity out.new }
{
    for item in items {
        out.push_reserved(byte_of_term(item));
    }
}

/// Appends a list in the long form, LIST_EXT: the elements, and then the empty list as the tail. This form is for any
/// nonempty list that STRING_EXT cannot hold, also for a short one with an element that is not a byte.
#[cycle(append)]
fn append_long_list(items: &[Term], out: &mut Vec<u8>)
    requires { vec_len out.old + length (long_list_bytes (map encode items.now)) ≤ vec_capacity out.old }
    ensures items { out.new.items ≡ out.old.items ++ long_list_bytes (map encode items.now) }
    ensures capacity { vec_capacity out.old ≤ vec_capacity out.new }
{
    put_tag_and_u32(LIST_EXT, items.len(), out);
    append_items(items, out);
    out.push_reserved(NIL_EXT);
}

/// Appends some terms, one after another.
#[cycle(append)]
fn append_items(items: &[Term], out: &mut Vec<u8>)
    requires { vec_len out.old + length (concat (map encode items.now)) ≤ vec_capacity out.old }
    ensures items { out.new.items ≡ out.old.items ++ concat (map encode items.now) }
    ensures capacity { vec_capacity out.old ≤ vec_capacity out.new }
{
    for item in items {
        append_term(item, out);
    }
}
