//! Sinks take a text piece by piece: a string, bytes in memory, or a writer.
ghost use Rattle.std.specs.Prelude.{◌≡◌, Option, List, ℕ};
ghost use Rattle.term_text.specs.Sent.{AppendsOrPrefix};

use std::alloc::AllocError;
use std::io::{Error, Write};

/// A destination of a text, which takes it piece by piece.
pub(crate) trait Sink {
    /// Why a piece was not appended completely.
    type Fault: Drop;

    /// The bytes that the sink has, as contracts see them; `None` if those of a writer are not known.
    ghost contents: { Self → Option (List ℕ) };

    /// Appends a piece. If this fails, a prefix of the piece is appended.
    fn write_str(&mut self, piece: &str) -> Result<(), Self::Fault>
        ensures { AppendsOrPrefix (contents self.old) (contents self.new) piece.now result };
}

/// A sink that appends to a string.
#[derive(Drop)]
pub(crate) struct StringSink {
    pub(crate) text: String,
}

impl Sink for StringSink {
    ghost use Rattle.std.specs.Prelude.{Some, string_bytes};

    type Fault = AllocError;

    ghost contents = { λ b. Some (string_bytes b.text) };

    fn write_str(&mut self, piece: &str) -> Result<(), AllocError> {
        self.text.push_str(piece)
    }
}

/// A sink that appends to bytes in memory.
#[derive(Drop)]
pub(crate) struct BytesSink {
    pub(crate) bytes: Vec<u8>,
}

impl Sink for BytesSink {
    ghost use Rattle.std.specs.Prelude.{Some};

    type Fault = AllocError;

    ghost contents = { λ b. Some b.bytes.items };

    #[inline(always)]
    fn write_str(&mut self, piece: &str) -> Result<(), AllocError> {
        self.bytes.extend_from_slice(piece.as_bytes())
    }
}

/// Why a text was not written completely.
#[derive(Debug, Drop)]
pub enum WriteFault {
    /// The writer returned that it took 0 bytes.
    Zero,
    /// The writer returned this error.
    Io(Error),
}

impl<W: Write> Sink for W {
    type Fault = WriteFault;

    ghost contents = { W.contents };

    fn write_str(&mut self, piece: &str) -> Result<(), WriteFault> {
        write_bytes(piece.as_bytes(), self)
    }
}

/// Writes all bytes into a writer. If it fails, a prefix of them is written.
pub fn write_bytes<W: Write>(bytes: &[u8], out: &mut W) -> Result<(), WriteFault>
    ensures { AppendsOrPrefix (W.contents out.old) (W.contents out.new) bytes.now result }
{
    // The number of bytes that the writer has taken.
    let mut done = 0;
    while done < bytes.len() {
        match out.write(&bytes[done..]) {
            Ok(0) => return Err(WriteFault::Zero),
            Ok(n) => done += n,
            Err(error) => return Err(WriteFault::Io(error)),
        }
    }
    Ok(())
}
