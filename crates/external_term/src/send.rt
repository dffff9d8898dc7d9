//! Writes bytes, and terms that contain no other terms, to a writer in the External Term Format. Each term is encoded
//! in a buffer, the block, and then sent. Of a binary only the header goes through the block.
ghost use Rattle.std.specs.Prelude.{◌≤◌, vec_capacity};
ghost use Rattle.external_term.specs.Encoding.{encode_integer, atom_bytes, pid_bytes, reference_bytes, binary_bytes};
ghost use Rattle.external_term.specs.Sent.{AppendsOrPrefix};
ghost use Rattle.external_term.specs.inside.Block.{block_bytes};

use crate::append::{append_integer, append_name, append_pid, append_reference};
use crate::put::put_tag_and_u32;
use ets_term::{Atom, Integer};
use std::io::{Error, Write};

/// Why a writer did not take all bytes.
#[derive(Drop)]
pub(crate) enum WriterFault {
    /// The writer returned that it took 0 bytes.
    Zero,
    /// The writer returned this error.
    Io(Error),
}

/// Sends bytes to a writer. If this fails, the writer has taken a prefix of them.
pub(crate) fn send_bytes<W: Write>(bytes: &[u8], out: &mut W) -> Result<(), WriterFault>
    ensures { AppendsOrPrefix (W.contents out.old) (W.contents out.new) bytes.now result }
{
    // The number of bytes that the writer has taken.
    let mut done = 0;
    while done < bytes.len() {
        match out.write(&bytes[done..]) {
            Ok(0) => return Err(WriterFault::Zero),
            Ok(n) => done += n,
            Err(error) => return Err(WriterFault::Io(error)),
        }
    }
    Ok(())
}

/// Sends an integer to the writer `out`, through the block.
#[tactic(auto, using(crate::proofs::SentPieces::integer_short))]
pub(crate) fn send_integer<W: Write>(
    n: Integer,
    block: &mut Vec<u8>,
    out: &mut W,
) -> Result<(), WriterFault>
    requires { block_bytes ≤ vec_capacity block.old }
    ensures room { block_bytes ≤ vec_capacity block.new }
    ensures sent { AppendsOrPrefix (W.contents out.old) (W.contents out.new) (encode_integer n) result }
{
    block.clear();
    append_integer(n, block);
    send_bytes(block.as_slice(), out)
}

/// Sends an atom to the writer `out`, through the block.
pub(crate) fn send_atom<W: Write>(
    name: &Atom,
    block: &mut Vec<u8>,
    out: &mut W,
) -> Result<(), WriterFault>
    requires { block_bytes ≤ vec_capacity block.old }
    ensures room { block_bytes ≤ vec_capacity block.new }
    ensures sent { AppendsOrPrefix (W.contents out.old) (W.contents out.new) (atom_bytes name.now) result }
{
    block.clear();
    append_name(name.text().as_bytes(), block);
    send_bytes(block.as_slice(), out)
}

/// Sends a pid to the writer `out`, through the block.
pub(crate) fn send_pid<W: Write>(
    n: u32,
    block: &mut Vec<u8>,
    out: &mut W,
) -> Result<(), WriterFault>
    requires { block_bytes ≤ vec_capacity block.old }
    ensures room { block_bytes ≤ vec_capacity block.new }
    ensures sent { AppendsOrPrefix (W.contents out.old) (W.contents out.new) (pid_bytes n) result }
{
    block.clear();
    append_pid(n, block);
    send_bytes(block.as_slice(), out)
}

/// Sends a table identifier to the writer `out`, through the block.
pub(crate) fn send_reference<W: Write>(
    n: u32,
    block: &mut Vec<u8>,
    out: &mut W,
) -> Result<(), WriterFault>
    requires { block_bytes ≤ vec_capacity block.old }
    ensures room { block_bytes ≤ vec_capacity block.new }
    ensures sent { AppendsOrPrefix (W.contents out.old) (W.contents out.new) (reference_bytes n) result }
{
    block.clear();
    append_reference(n, block);
    send_bytes(block.as_slice(), out)
}

/// Sends a binary: its header (tag and length) from the block, then its own bytes.
pub(crate) fn send_binary<W: Write>(
    bytes: &[u8],
    block: &mut Vec<u8>,
    out: &mut W,
) -> Result<(), WriterFault>
    requires { block_bytes ≤ vec_capacity block.old }
    ensures room { block_bytes ≤ vec_capacity block.new }
    ensures sent { AppendsOrPrefix (W.contents out.old) (W.contents out.new) (binary_bytes bytes.now) result }
{
    block.clear();
    // 109 is the tag BINARY_EXT.
    put_tag_and_u32(109, bytes.len(), block);
    send_bytes(block.as_slice(), out)?;
    send_bytes(bytes, out)
}
