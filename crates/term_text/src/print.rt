//! The public functions that print a term: into a string, into bytes in memory, or into a writer. `printer` makes the
//! text; here a print into memory that fails is undone.
ghost use Rattle.std.specs.Prelude.{◌≡◌, ◌++◌, OnOk, OnErr, string_bytes};
ghost use Rattle.term_text.specs.Printed.{text_of_term};
ghost use Rattle.term_text.specs.Sent.{AppendsOrPrefix};

use crate::printer::append;
use crate::sink::{BytesSink, StringSink, WriteFault};
use ets_term::Term;
use std::alloc::{AllocError, Global};
use std::io::Write;
use std::mem;

/// Appends the text of a term to the string. If memory runs out, the string is unchanged.
pub fn print_term(alloc: Global, term: &Term, out: &mut String) -> Result<(), AllocError>
    ensures ok { OnOk result (string_bytes out.new ≡ string_bytes out.old ++ text_of_term term.now) }
    ensures err { OnErr result (string_bytes out.new ≡ string_bytes out.old) }
{
    let len = out.len();
    // The sink owns the string while the term is printed. An empty string is in `out` meanwhile.
    let mut buffer = StringSink {
        text: mem::replace(out, String::new(alloc)),
    };
    let result = append(term, &mut buffer);
    let StringSink { mut text } = buffer;
    if result.is_err() {
        text.truncate(len);
    }
    *out = text;
    result
}

/// Appends the text of a term to the bytes. If memory runs out, the bytes are unchanged.
pub fn append_term(term: &Term, out: &mut Vec<u8>) -> Result<(), AllocError>
    ensures ok { OnOk result (out.new.items ≡ out.old.items ++ text_of_term term.now) }
    ensures err { OnErr result (out.new.items ≡ out.old.items) }
{
    let len = out.len();
    let alloc = *out.allocator();
    // The sink owns the bytes while the term is printed. An empty vector is in `out` meanwhile.
    let mut buffer = BytesSink {
        bytes: mem::replace(out, Vec::new(alloc)),
    };
    let result = append(term, &mut buffer);
    let BytesSink { mut bytes } = buffer;
    if let Err(error) = result {
        bytes.truncate(len);
        *out = bytes;
        return Err(error);
    }
    *out = bytes;
    Ok(())
}

/// Writes the text of a term into a writer. Allocates nothing. If the writer fails, it has taken a prefix of the text.
pub fn write_term<W: Write>(term: &Term, out: &mut W) -> Result<(), WriteFault>
    ensures { AppendsOrPrefix (W.contents out.old) (W.contents out.new) (text_of_term term.now) result }
{
    append(term, out)
}
