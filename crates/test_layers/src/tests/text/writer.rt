//! Terms and texts that are written to a writer. The writer may fail after some writes, or take only a part of the
//! bytes.
use super::past_limits::repeat_text;
use ets_term::Term;
use std::alloc::{AllocError, Global};
use std::io::{self, Error, ErrorKind, Write};
use std::process::Abort;
use term_text::{WriteFault, read_term, write_bytes, write_term};

/// A writer that takes at most `max_write_bytes` bytes per write, and fails after `writes_before_fault` writes.
#[derive(Drop)]
struct FailingWriter {
    /// The bytes that it has taken so far.
    taken: Vec<u8>,
    /// The most bytes that one write takes.
    max_write_bytes: usize,
    /// The number of further writes that succeed before one fails.
    writes_before_fault: usize,
}

impl Write for FailingWriter {
    fn write(&mut self, buf: &[u8]) -> io::Result<usize> {
        if self.writes_before_fault == 0 {
            return Err(Error::from(ErrorKind::Other));
        }
        self.writes_before_fault -= 1;
        let n = buf.len().min(self.max_write_bytes);
        match self.taken.extend_from_slice(&buf[..n]) {
            Ok(()) => Ok(n),
            Err(_) => Err(Error::from(ErrorKind::Other)),
        }
    }

    fn flush(&mut self) -> io::Result<()> {
        Ok(())
    }
}

/// Writes a term. Returns whether `write_term` returned the fault of the writer.
fn fails_to_write(term: &Term, out: &mut FailingWriter) -> bool {
    let written = write_term(term, out);
    let failed = matches!(&written, Err(WriteFault::Io(_)));
    drop(written);
    failed
}

/// Returns whether a writer that takes `count` single bytes and then fails has taken the first `count` bytes of the
/// text.
fn failing_writer_takes_prefix(alloc: Global, term: &Term, text: &str, count: usize) -> bool {
    let mut out = FailingWriter {
        taken: Vec::new(alloc),
        max_write_bytes: 1,
        writes_before_fault: count,
    };
    let failed = fails_to_write(term, &mut out);
    let is_prefix = out.taken.len() == count && text.as_bytes().starts_with(out.taken.as_slice());
    drop(out);
    failed && is_prefix
}

/// Writes a term to a vector of bytes, `out`. Returns whether this succeeded.
fn writes_to_vec(term: &Term, out: &mut Vec<u8>) -> bool {
    let written = write_term(term, out);
    let succeeds = written.is_ok();
    drop(written);
    succeeds
}

/// Returns whether `write_term` writes a term as this text.
pub fn is_written_as(alloc: Global, term: &Term, text: &str) -> bool {
    let mut out = Vec::new(alloc);
    let succeeds = writes_to_vec(term, &mut out);
    let same = out.as_slice() == text.as_bytes();
    drop(out);
    succeeds && same
}

/// Returns whether a failing writer has taken a prefix of the text, for each number of bytes below the text's length.
fn failing_writers_take_prefixes(alloc: Global, term: &Term, text: &str) -> bool {
    for count in 0..text.len() {
        if !failing_writer_takes_prefix(alloc, term, text, count) {
            return false;
        }
    }
    true
}

/// Returns whether the term of a text is written as this text, and each failing writer has taken a prefix of the text.
fn writes_text_or_prefix(alloc: Global, text: &str) -> bool {
    match read_term(alloc, text) {
        Ok((term, _)) => {
            let holds = is_written_as(alloc, &term, text)
                && failing_writers_take_prefixes(alloc, &term, text);
            drop(term);
            holds
        }
        Err(_) => false,
    }
}

#[test]
fn a_failing_writer_takes_a_prefix_of_the_text(rt: HostRuntime) {
    assert!(rt; writes_text_or_prefix(rt.alloc(), "{a,'B',[<0.1.0>,#Tid<2>],<<1,2>>,-3}"));
}

/// The most bytes that a writer takes at a time.
const PART: usize = 1_000;

/// Returns whether a writer takes the whole text, and no further write would succeed.
fn takes_whole_text(text: &str, out: &mut FailingWriter) -> bool {
    let written = write_bytes(text.as_bytes(), out);
    let succeeds = written.is_ok();
    drop(written);
    succeeds && out.taken.as_slice() == text.as_bytes() && out.writes_before_fault == 0
}

/// Returns whether a text is written in 100 parts of `PART` bytes.
fn is_written_in_parts(alloc: Global, text: &str) -> bool {
    let mut out = FailingWriter {
        taken: Vec::new(alloc),
        max_write_bytes: PART,
        writes_before_fault: 100,
    };
    let takes_whole = takes_whole_text(text, &mut out);
    drop(out);
    takes_whole
}

/// Returns whether 100,000 bytes are written in 100 parts.
fn long_text_is_written_in_parts(alloc: Global) -> Result<bool, AllocError> {
    let text = repeat_text(alloc, "0123456789", 10_000)?;
    let written = is_written_in_parts(alloc, text.as_str());
    drop(text);
    Ok(written)
}

/// Checks `write_bytes` to a writer that takes a hundredth of the bytes at a time.
#[test]
fn a_text_is_written_in_a_hundred_parts(rt: HostRuntime) {
    assert!(rt; long_text_is_written_in_parts(rt.alloc()) == Ok(true));
}

/// Returns whether `write_term` fails with `WriteFault::Zero` if the writer takes no bytes. The writer itself does not
/// fail: 9 of its writes may succeed.
fn fault_is_zero(alloc: Global) -> bool {
    let mut stuck = FailingWriter {
        taken: Vec::new(alloc),
        max_write_bytes: 0,
        writes_before_fault: 9,
    };
    let term = Term::Int(7);
    let written = write_term(&term, &mut stuck);
    drop(term);
    drop(stuck);
    let is_zero = matches!(&written, Err(WriteFault::Zero));
    drop(written);
    is_zero
}

#[test]
fn a_writer_that_takes_nothing_is_a_fault(rt: HostRuntime) {
    assert!(rt; fault_is_zero(rt.alloc()));
}
