//! The bytes read of a script, in a buffer from which lines are taken.
ghost use Rattle.std.specs.Prelude.{◌≡◌, ◌+◌, ◌-◌, ◌≤◌, ◌<◌, [], false, length, take, drop, slice_range, vec_len, IfOk, OnErr};
ghost use Rattle.std.specs.Io.KnownBytes.{Consumes, Keeps, IsAtEnd};
ghost use Rattle.ets_packets.specs.Traffic.{flow};
ghost use Rattle.ets_script.specs.inside.LineBuffers.{Refills, Finds, Waits};
ghost use Rattle.ets_script.specs.Lines.{IsOneLine};

use crate::lines::{MAX_LINE, NextLine, find_line};
use std::alloc::{AllocError, Global};
use std::io::Read;
use std::marker::Model;

/// Twice the greatest length of a line, so that a part of such a line leaves capacity for the next read.
const CAPACITY: usize = 2 * MAX_LINE;

/// A read failed, or there were too many reads.
#[derive(Debug, Drop)]
pub struct ReadFault;

/// The bytes that were read and not yet consumed.
#[derive(Drop)]
pub struct LineBuffer {
    /// `CAPACITY` bytes, of which those from `start` to `end` were read and not yet consumed.
    buffer: Vec<u8>,
    start: usize,
    end: usize,
    /// Whether the bytes continue a line that is too long, whose start was discarded.
    is_skipping: bool,
    /// The number of reads that are still allowed.
    reads: u32,
}

// The value that contracts see of this type (`view`), and what is true of its fields between calls (`invariant`).
impl Model for LineBuffer {
    ghost use Rattle.std.specs.Prelude.{◌≤◌, ◌≡◌, vec_len, slice_range};
    ghost use Rattle.ets_script.specs.inside.LineBuffers.{LineBufferState};
    ghost use Rattle.ets_script.specs.declared.line_buffer.TheConstants.{CAPACITY};

    ghost Value = { LineBufferState };

    ghost view = { λ f. record {
      bytes = slice_range f.buffer.items f.start f.end;
      is_skipping = f.is_skipping;
      reads = f.reads;
    } };

    ghost invariant = { λ f. (f.start ≤ f.end) × (f.end ≤ CAPACITY) × (vec_len f.buffer ≡ CAPACITY) };
}

impl LineBuffer {
    /// Creates an empty buffer, for at most this many reads.
    pub fn new(alloc: Global, reads: u32) -> Result<LineBuffer, AllocError>
        ensures { IfOk result (λ f. f ≡ record { bytes = []; is_skipping = false; reads = reads }) }
    {
        Ok(LineBuffer {
            buffer: vec![in alloc; 0; CAPACITY]?,
            start: 0,
            end: 0,
            is_skipping: false,
            reads,
        })
    }

    /// Returns the bytes that were read and not yet consumed.
    pub fn bytes(&self) -> &[u8]
        ensures { result.now ≡ self.now.bytes }
    {
        &self.buffer[self.start..self.end]
    }

    /// Returns whether the buffer continues a line that is too long, whose start was discarded.
    pub fn is_skipping(&self) -> bool
        ensures { result ≡ self.now.is_skipping }
    {
        self.is_skipping
    }

    /// Removes the first `count` bytes, which end with a line. The bytes after them start a new line.
    pub fn consume(&mut self, count: usize)
        requires { count ≤ length self.old.bytes }
        ensures bytes { self.new.bytes ≡ drop count self.old.bytes }
        ensures whole { self.new.is_skipping ≡ false }
        ensures reads { self.new.reads ≡ self.old.reads }
    {
        self.start += count;
        self.is_skipping = false;
    }

    /// Returns the next line, if it is whole. A part of a line is searched for its LF again after each read.
    pub fn next_line(&self) -> NextLine
        ensures { Finds self.now result }
    {
        find_line(self.bytes(), self.is_skipping)
    }

    /// Discards the buffered bytes, a part of a line, if the line is too long. The rest of the line is then skipped.
    pub fn skip_long(&mut self)
        requires { IsOneLine self.old.bytes }
        ensures { Waits self.old self.new }
    {
        if self.is_skipping || self.bytes().len() > MAX_LINE {
            self.start = self.end;
            self.is_skipping = true;
        }
    }

    /// Reads more bytes after those buffered, and returns their number: 0 only at the end of the input. When no more
    /// reads are allowed, that is a fault, so that a script with an endless input stops.
    pub fn refill<R: Read>(&mut self, reader: &mut R) -> Result<usize, ReadFault>
        requires { length self.old.bytes ≤ MAX_LINE }
        ensures ok { IfOk result (Refills self.old self.new
            (flow R.remaining reader.old reader.new)) }
        ensures err { OnErr result (Keeps (R.remaining reader.old) (R.remaining reader.new)
            × (self.new.bytes ≡ self.old.bytes)) }
    {
        if self.reads == 0 {
            return Err(ReadFault);
        }
        let len = self.end - self.start;
        self.start = shift(&mut self.buffer, self.start, self.end);
        self.end = self.start + len;
        self.reads -= 1;
        let count = read_into(reader, &mut self.buffer, self.end)?;
        self.end += count;
        Ok(count)
    }
}

/// Moves the bytes from `start` to `end` to the buffer's front, unless `MAX_LINE` bytes fit after them. Returns where
/// they start then.
fn shift(buffer: &mut Vec<u8>, start: usize, end: usize) -> usize
    requires part { start ≤ end }
    requires within { end ≤ vec_len buffer.old }
    requires room { vec_len buffer.old ≡ CAPACITY }
    requires short { end ≤ start + MAX_LINE }
    ensures len { vec_len buffer.new ≡ vec_len buffer.old }
    ensures bytes { slice_range buffer.new.items result (result + (end - start))
        ≡ slice_range buffer.old.items start end }
    ensures room { result + (end - start) ≤ MAX_LINE }
{
    if end <= MAX_LINE {
        return start;
    }
    buffer.copy_within(start..end, 0);
    0
}

/// Reads once into the buffer, after its first `end` bytes, and returns the number of bytes read.
fn read_into<R: Read>(reader: &mut R, buffer: &mut Vec<u8>, end: usize) -> Result<usize, ReadFault>
    requires { end ≤ vec_len buffer.old }
    ensures len { vec_len buffer.new ≡ vec_len buffer.old }
    ensures front { take end buffer.new.items ≡ take end buffer.old.items }
    ensures fits { IfOk result (λ n. end + n ≤ vec_len buffer.new) }
    ensures read { IfOk result (λ n. Consumes (R.remaining reader.old) (R.remaining reader.new)
        (take n (drop end buffer.new.items))) }
    ensures none { IfOk result (λ n. n ≡ 0 → end < vec_len buffer.new
        → IsAtEnd (R.remaining reader.new)) }
    ensures err { OnErr result (Keeps (R.remaining reader.old) (R.remaining reader.new)) }
{
    match reader.read(&mut buffer[end..]) {
        Ok(n) => Ok(n),
        Err(_) => Err(ReadFault),
    }
}
