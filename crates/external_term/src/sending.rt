//! Sends terms to writers, piece by piece.
ghost use Rattle.std.specs.Prelude.{◌≡◌, ◌≤◌, ◌↔◌, ◌^◌, length, map, vec_capacity, IsErrOf};
ghost use Rattle.ets_term.specs.Encoding.{concat};
ghost use Rattle.external_term.specs.Encoding.{encode, tuple_bytes, list_bytes, string_bytes, long_list_bytes, char_of, encode_with_version};
ghost use Rattle.external_term.specs.Sent.{AppendsOrPrefix};
ghost use Rattle.external_term.specs.inside.Block.{block_bytes};

use crate::append::append_tuple_header;
use crate::fault::ExternalSendFault;
use crate::put::{put_tag_and_u16, put_tag_and_u32};
use crate::send::{
    WriterFault, send_atom, send_binary, send_bytes, send_integer, send_pid, send_reference,
};
use crate::small::is_string;
use crate::tag::{LIST_EXT, NIL_EXT, STRING_EXT, VERSION};
use crate::writing::{MAX_BYTES, append_chars, external_size};
use ets_term::Term;
use std::alloc::Global;
use std::io::Write;

/// The number of bytes of the block in which a piece of a term is encoded before it is sent. The longest piece that
/// cannot be divided is an atom of 257 bytes.
const BLOCK_BYTES: usize = 320;

/// Writes the version and the term into a writer, in many small pieces. Takes a block of 320 bytes and no other memory.
///
/// If the writer fails, it has taken a prefix of the bytes. If the result is `TooLarge` or `Memory`, it has taken none.
pub fn write_external_to<W: Write>(
    alloc: Global,
    term: &Term,
    out: &mut W,
) -> Result<(), ExternalSendFault>
    ensures sent { AppendsOrPrefix (W.contents out.old) (W.contents out.new) (encode_with_version term.now) result }
    ensures large { IsErrOf result ExternalSendFault.TooLarge ↔ 2 ^ 32 ≤ length (encode_with_version term.now) }
    ensures none_if_large { IsErrOf result ExternalSendFault.TooLarge → W.contents out.new ≡ W.contents out.old }
    ensures none_if_no_memory { IsErrOf result ExternalSendFault.Memory → W.contents out.new ≡ W.contents out.old }
{
    if external_size(term) > MAX_BYTES {
        return Err(ExternalSendFault::TooLarge);
    }
    let Ok(mut block) = Vec::with_capacity(alloc, BLOCK_BYTES) else {
        return Err(ExternalSendFault::Memory);
    };
    match send_with_version(term, &mut block, out) {
        Ok(()) => Ok(()),
        Err(WriterFault::Zero) => Err(ExternalSendFault::Zero),
        Err(WriterFault::Io(error)) => Err(ExternalSendFault::Io(error)),
    }
}

/// Sends the version, and then the term through the block.
fn send_with_version<W: Write>(
    term: &Term,
    block: &mut Vec<u8>,
    out: &mut W,
) -> Result<(), WriterFault>
    requires { block_bytes ≤ vec_capacity block.old }
    ensures { AppendsOrPrefix (W.contents out.old) (W.contents out.new) (encode_with_version term.now) result }
{
    send_bytes(&[VERSION], out)?;
    send_term(term, block, out)
}

/// Sends a term to the writer `out`, piece by piece through the block.
#[cycle(send)]
fn send_term<W: Write>(term: &Term, block: &mut Vec<u8>, out: &mut W) -> Result<(), WriterFault>
    requires { block_bytes ≤ vec_capacity block.old }
    ensures room { block_bytes ≤ vec_capacity block.new }
    ensures sent { AppendsOrPrefix (W.contents out.old) (W.contents out.new) (encode term.now) result }
{
    match term {
        Term::Int(n) => send_integer(*n, block, out),
        Term::Atom(name) => send_atom(name, block, out),
        Term::Pid(n) => send_pid(*n, block, out),
        Term::Tid(n) => send_reference(*n, block, out),
        Term::Tuple(items) => send_tuple(items.as_slice(), block, out),
        Term::List(items) => send_list(items.as_slice(), block, out),
        Term::Binary(bytes) => send_binary(bytes.as_slice(), block, out),
    }
}

/// Sends the tuple of these elements: its header, and then the elements.
#[cycle(send)]
fn send_tuple<W: Write>(items: &[Term], block: &mut Vec<u8>, out: &mut W) -> Result<(), WriterFault>
    requires { block_bytes ≤ vec_capacity block.old }
    ensures room { block_bytes ≤ vec_capacity block.new }
    ensures sent { AppendsOrPrefix (W.contents out.old) (W.contents out.new) (tuple_bytes (map encode items.now)) result }
{
    block.clear();
    append_tuple_header(items.len(), block);
    send_bytes(block.as_slice(), out)?;
    send_items(items, block, out)
}

/// Sends the list of these elements as NIL_EXT, STRING_EXT or LIST_EXT.
#[cycle(send)]
#[tactic(auto, using(crate::proofs::Encoded::list_empty, crate::proofs::Encoded::list_string, crate::proofs::Encoded::list_long))]
fn send_list<W: Write>(items: &[Term], block: &mut Vec<u8>, out: &mut W) -> Result<(), WriterFault>
    requires { block_bytes ≤ vec_capacity block.old }
    ensures room { block_bytes ≤ vec_capacity block.new }
    ensures sent { AppendsOrPrefix (W.contents out.old) (W.contents out.new) (list_bytes (map encode items.now)) result }
{
    if items.is_empty() {
        return send_bytes(&[NIL_EXT], out);
    }
    if is_string(items) {
        return send_string(items, block, out);
    }
    send_long_list(items, block, out)
}

/// Sends a list as LIST_EXT: the elements, and then the empty list as the tail.
#[cycle(send)]
fn send_long_list<W: Write>(
    items: &[Term],
    block: &mut Vec<u8>,
    out: &mut W,
) -> Result<(), WriterFault>
    requires { block_bytes ≤ vec_capacity block.old }
    ensures room { block_bytes ≤ vec_capacity block.new }
    ensures sent { AppendsOrPrefix (W.contents out.old) (W.contents out.new) (long_list_bytes (map encode items.now)) result }
{
    block.clear();
    put_tag_and_u32(LIST_EXT, items.len(), block);
    send_bytes(block.as_slice(), out)?;
    send_items(items, block, out)?;
    send_bytes(&[NIL_EXT], out)
}

/// Sends terms, one after another.
#[cycle(send)]
fn send_items<W: Write>(items: &[Term], block: &mut Vec<u8>, out: &mut W) -> Result<(), WriterFault>
    requires { block_bytes ≤ vec_capacity block.old }
    ensures room { block_bytes ≤ vec_capacity block.new }
    ensures sent { AppendsOrPrefix (W.contents out.old) (W.contents out.new) (concat (map encode items.now)) result }
{
    for item in items {
        send_term(item, block, out)?;
    }
    Ok(())
}

/// Sends a list of bytes as STRING_EXT.
fn send_string<W: Write>(
    items: &[Term],
    block: &mut Vec<u8>,
    out: &mut W,
) -> Result<(), WriterFault>
    requires { block_bytes ≤ vec_capacity block.old }
    ensures room { block_bytes ≤ vec_capacity block.new }
    ensures sent { AppendsOrPrefix (W.contents out.old) (W.contents out.new) (string_bytes (map encode items.now)) result }
{
    block.clear();
    put_tag_and_u16(STRING_EXT, items.len(), block);
    send_bytes(block.as_slice(), out)?;
    send_chars(items, block, out)
}

/// Sends the characters of a string, whose elements are all bytes, at most one block at a time.
fn send_chars<W: Write>(items: &[Term], block: &mut Vec<u8>, out: &mut W) -> Result<(), WriterFault>
    requires { block_bytes ≤ vec_capacity block.old }
    ensures room { block_bytes ≤ vec_capacity block.new }
    ensures sent { AppendsOrPrefix (W.contents out.old) (W.contents out.new) (map char_of (map encode items.now)) result }
{
    // The number of characters that are sent.
    let mut done = 0;
    while done < items.len() {
        let count = BLOCK_BYTES.min(items.len() - done);
        send_block(&items[done..done + count], block, out)?;
        done += count;
    }
    Ok(())
}

/// Sends a part of the characters of a string, which fits in the block.
fn send_block<W: Write>(items: &[Term], block: &mut Vec<u8>, out: &mut W) -> Result<(), WriterFault>
    requires room { block_bytes ≤ vec_capacity block.old }
    requires few { length items.now ≤ block_bytes }
    ensures room { block_bytes ≤ vec_capacity block.new }
    ensures sent { AppendsOrPrefix (W.contents out.old) (W.contents out.new) (map char_of (map encode items.now)) result }
{
    block.clear();
    append_chars(items, block);
    send_bytes(block.as_slice(), out)
}
