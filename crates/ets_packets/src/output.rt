//! The output buffer with its writer. Bytes are written in large blocks.
ghost use Rattle.std.specs.Prelude.{◌≡◌, [], ◌∷◌, ◌++◌, IfOk, OnOk, OnErr};
ghost use Rattle.std.specs.Io.KnownBytes.{Appends};
ghost use Rattle.term_text.specs.Printed.{text_of_term};
ghost use Rattle.ets_packets.specs.Traffic.{flow};
ghost use Rattle.ets_packets.specs.Output.{Sends, Breaks, Adds, Fails, HasWriterOf, buffered_bytes, writer_flow};

use ets_term::Term;
use std::alloc::{AllocError, Global};
use std::io::Write;
use term_text::{append_term, write_bytes, write_term};

/// The buffer is written once it has this many bytes.
const BLOCK_SIZE: usize = 65_536;

/// The writer failed, or took no byte.
#[derive(Debug, Drop)]
pub struct WriteFault;

/// A writer, and a buffer with the bytes that are not written yet.
#[derive(Drop)]
pub struct Output<'a, W> {
    bytes: &'a mut Vec<u8>,
    writer: &'a mut W,
}

/// Returns an empty buffer, with capacity for more than a block.
pub fn output_buffer(alloc: Global) -> Result<Vec<u8>, AllocError>
    ensures { IfOk result (λ bytes. bytes.items ≡ []) }
{
    Vec::with_capacity(alloc, 2 * BLOCK_SIZE)
}

impl<'a, W: Write> Output<'a, W> {
    /// Makes the output with this buffer and this writer.
    pub fn new(bytes: &'a mut Vec<u8>, writer: &'a mut W) -> Output<'a, W>
        ensures bytes { result.bytes.now ≡ bytes.old }
        ensures writer { result.writer.now ≡ writer.old }
        ensures same_writer { result.writer.ghost_name ≡ writer.entry.ghost_name }
    {
        Output { bytes, writer }
    }

    /// Writes the buffered bytes, and flushes the writer.
    pub fn flush(&mut self) -> Result<(), WriteFault>
        ensures same_writer { HasWriterOf self.old self.new }
        ensures ok { OnOk result (Sends (writer_flow W.contents self.old self.new)
            (buffered_bytes self.old) (buffered_bytes self.new)) }
        ensures empty { OnOk result (buffered_bytes self.new ≡ []) }
        ensures err { OnErr result (Breaks (writer_flow W.contents self.old self.new)
            (buffered_bytes self.old)) }
    {
        self.send()?;
        match self.writer.flush() {
            Ok(()) => Ok(()),
            Err(_) => Err(WriteFault),
        }
    }

    /// Writes the buffered bytes, and empties the buffer.
    #[inline(never)]
    fn send(&mut self) -> Result<(), WriteFault>
        ensures same_writer { HasWriterOf self.old self.new }
        ensures ok { OnOk result (Appends (W.contents self.old.writer.now)
            (W.contents self.new.writer.now) (buffered_bytes self.old)) }
        ensures empty { OnOk result (buffered_bytes self.new ≡ []) }
        ensures err { OnErr result (Breaks (writer_flow W.contents self.old self.new)
            (buffered_bytes self.old)) }
    {
        write_whole(self.writer, self.bytes.as_slice())?;
        self.bytes.clear();
        Ok(())
    }

    /// Adds bytes, and writes the buffer if it then has a whole block. If the buffer cannot grow, writes the buffered
    /// bytes and then these to the writer.
    #[inline(always)]
    pub fn add(&mut self, bytes: &[u8]) -> Result<(), WriteFault>
        ensures same_writer { HasWriterOf self.old self.new }
        ensures ok { OnOk result (Adds W.contents self.old self.new bytes.now) }
        ensures err { OnErr result (Fails W.contents self.old self.new bytes.now) }
    {
        if self.bytes.extend_from_slice(bytes).is_err() {
            self.send()?;
            return write_whole(self.writer, bytes);
        }
        if self.bytes.len() >= BLOCK_SIZE {
            self.send()?;
        }
        Ok(())
    }

    /// Adds the text of a term and an LF, and writes the buffer if it then has a whole block.
    pub fn add_term_line(&mut self, term: &Term) -> Result<(), WriteFault>
        ensures same_writer { HasWriterOf self.old self.new }
        ensures ok { OnOk result (Adds W.contents self.old self.new
            (text_of_term term.now ++ 10 ∷ [])) }
        ensures err { OnErr result (Fails W.contents self.old self.new
            (text_of_term term.now ++ 10 ∷ [])) }
    {
        self.add_term_text(term)?;
        self.add(b"\n")
    }

    /// Adds the text of a term. If the buffer cannot grow, writes the buffered bytes and then the text to the writer.
    fn add_term_text(&mut self, term: &Term) -> Result<(), WriteFault>
        ensures same_writer { HasWriterOf self.old self.new }
        ensures ok { OnOk result (Adds W.contents self.old self.new (text_of_term term.now)) }
        ensures err { OnErr result (Fails W.contents self.old self.new (text_of_term term.now)) }
    {
        match append_term(term, self.bytes) {
            Ok(()) => return Ok(()),
            Err(_) => {}
        }
        self.send()?;
        match write_term(term, self.writer) {
            Ok(()) => Ok(()),
            Err(_) => Err(WriteFault),
        }
    }
}

/// Writes all of the bytes, or writes a prefix of them and returns a fault.
fn write_whole<W: Write>(writer: &mut W, bytes: &[u8]) -> Result<(), WriteFault>
    ensures ok { OnOk result (Appends (W.contents writer.old) (W.contents writer.new) bytes.now) }
    ensures err { OnErr result (Breaks (flow W.contents writer.old writer.new) bytes.now) }
{
    match write_bytes(bytes, writer) {
        Ok(()) => Ok(()),
        Err(_) => Err(WriteFault),
    }
}
