//! The bytes that were read and not yet answered.
ghost use Rattle.std.specs.Prelude.{◌≡◌, ◌+◌, ◌≤◌, [], length, take, drop, vec_len, slice_range, IfOk, IfErr};
ghost use Rattle.std.specs.Io.KnownBytes.{Keeps};
ghost use Rattle.ets_packets.specs.Traffic.{flow};
ghost use Rattle.ets_packets.specs.inside.Buffer.{Refills, RefillStops};

use std::alloc::{AllocError, Global};
use std::io::Read;
use std::marker::Model;

/// The greatest number of bytes of a read.
const CHUNK: usize = 65_536;

/// Why no more bytes were buffered.
#[derive(Debug, Drop)]
pub(crate) enum RefillFault {
    /// The reader failed.
    Read,
    /// Memory ran out for the bytes that were read.
    Memory,
}

/// The bytes that were read and not yet answered.
#[derive(Drop)]
pub(crate) struct Buffer {
    /// Where a read puts its bytes.
    chunk: Vec<u8>,
    /// The bytes of all reads, without those that `refill` has discarded.
    input: Vec<u8>,
    /// The number of bytes at the front of `input` that were answered.
    start: usize,
}

impl Model for Buffer {
    ghost use Rattle.std.specs.Prelude.{ℕ, List, ◌≤◌, ◌≡◌, vec_len, slice_range};
    ghost use Rattle.ets_packets.specs.declared.buffer.TheConstants.{CHUNK};

    ghost Value = { List ℕ };

    ghost view = { λ f. slice_range f.input.items f.start (vec_len f.input) };

    ghost invariant = { λ f. (f.start ≤ vec_len f.input) × (vec_len f.chunk ≡ CHUNK) };
}

impl Buffer {
    /// Returns an empty buffer.
    pub(crate) fn new(alloc: Global) -> Result<Buffer, AllocError>
        ensures { IfOk result (λ f. f ≡ []) }
    {
        Ok(Buffer {
            chunk: vec![in alloc; 0; CHUNK]?,
            input: Vec::new(alloc),
            start: 0,
        })
    }

    /// Returns the bytes that were read and not yet answered.
    pub(crate) fn bytes(&self) -> &[u8]
        ensures { result.now ≡ self.now }
    {
        &self.input[self.start..self.input.len()]
    }

    /// Removes the first `count` bytes, which were answered.
    pub(crate) fn consume(&mut self, count: usize)
        requires { count ≤ length self.old }
        ensures { self.new ≡ drop count self.old }
    {
        self.start += count;
    }

    /// Reads more bytes after those buffered, and returns their number: 0 only at the end of the input.
    pub(crate) fn refill<R: Read>(&mut self, reader: &mut R) -> Result<usize, RefillFault>
        ensures ok { IfOk result (Refills self.old self.new (flow R.remaining reader.old reader.new)) }
        ensures err { IfErr result (RefillStops (flow R.remaining reader.old reader.new)) }
    {
        discard_front(&mut self.input, self.start);
        self.start = 0;
        let Ok(count) = reader.read(&mut self.chunk) else {
            return Err(RefillFault::Read);
        };
        if self.input.extend_from_slice(&self.chunk[..count]).is_err() {
            return Err(RefillFault::Memory);
        }
        Ok(count)
    }
}

/// Removes the first `count` bytes.
fn discard_front(input: &mut Vec<u8>, count: usize)
    requires { count ≤ vec_len input.old }
    ensures { input.new.items ≡ slice_range input.old.items count (vec_len input.old) }
{
    if count == 0 {
        return;
    }
    let len = input.len();
    input.copy_within(count..len, 0);
    input.truncate(len - count);
}
