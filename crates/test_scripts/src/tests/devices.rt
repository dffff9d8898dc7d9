//! Readers and writers for scripts. They may read or write only a few bytes at a time, or fail.
use std::alloc::Global;
use std::cell::Cell;
use std::io::{self, Error, ErrorKind, Read, Write};

/// How the reader and the writer of a script behave.
#[derive(Clone, Copy)]
pub struct Devices {
    /// The greatest number of bytes that one read returns.
    pub max_read_bytes: usize,
    /// The greatest number of bytes that one write takes.
    pub max_write_bytes: usize,
    /// The number of reads before one fails.
    pub reads_before_fault: u32,
    /// The number of writes before one fails.
    pub writes_before_fault: u32,
    /// Whether each flush fails.
    pub fails_to_flush: bool,
}

/// Devices that read and write any number of bytes at a time, and never fail.
pub const GOOD_DEVICES: Devices = Devices {
    max_read_bytes: usize::MAX,
    max_write_bytes: usize::MAX,
    reads_before_fault: u32::MAX,
    writes_before_fault: u32::MAX,
    fails_to_flush: false,
};

/// How much a writer has written and flushed, which the reader checks at each read.
#[derive(Drop)]
pub struct FlushLog {
    /// How many bytes were written.
    written: Cell<usize>,
    /// How many of them were flushed.
    flushed: Cell<usize>,
    /// How many had been flushed when a read failed, or `None` if no read failed.
    flushed_at_fault: Cell<Option<usize>>,
    /// Whether some read began before all written bytes were flushed.
    is_read_unflushed: Cell<bool>,
}

impl FlushLog {
    /// Returns a log in which nothing was written.
    pub fn new() -> FlushLog {
        FlushLog {
            written: Cell::new(0),
            flushed: Cell::new(0),
            flushed_at_fault: Cell::new(None),
            is_read_unflushed: Cell::new(false),
        }
    }

    /// Returns whether `count` bytes were written and flushed, and each read began after a flush of all bytes written
    /// so far. If a read failed, all `count` bytes must have been flushed before it.
    pub fn is_all_flushed(&self, count: usize) -> bool {
        self.written.get() == count
            && self.flushed.get() == count
            && !self.is_read_unflushed.get()
            && self.flushed_at_fault.get().unwrap_or(count) == count
    }
}

/// A reader of a script.
#[derive(Drop)]
pub struct Source<'a> {
    /// The rest of the script, which is not read yet.
    pub left: &'a [u8],
    /// The greatest number of bytes that one read returns.
    pub max_read_bytes: usize,
    /// The number of reads that still succeed before one fails.
    pub reads_before_fault: u32,
    /// The log that the writer of the same script keeps.
    pub log: &'a FlushLog,
}

impl Read for Source<'_> {
    // Reads the next bytes of the script, or fails. Logs whether all written bytes were flushed before.
    fn read(&mut self, buf: &mut [u8]) -> io::Result<usize> {
        let log = self.log;
        if log.flushed.get() != log.written.get() {
            log.is_read_unflushed.set(true);
        }
        if self.reads_before_fault == 0 {
            log.flushed_at_fault.set(Some(log.flushed.get()));
            return Err(Error::from(ErrorKind::Other));
        }
        self.reads_before_fault -= 1;
        let count = self.left.len().min(buf.len()).min(self.max_read_bytes);
        buf[..count].copy_from_slice(&self.left[..count]);
        self.left = &self.left[count..];
        Ok(count)
    }
}

/// A writer of answers.
#[derive(Drop)]
pub struct Target<'a> {
    /// All bytes that were written.
    pub taken: Vec<u8>,
    /// The greatest number of bytes that one write takes.
    pub max_write_bytes: usize,
    /// The number of writes that still succeed before one fails.
    pub writes_before_fault: u32,
    /// Whether each flush fails.
    pub fails_to_flush: bool,
    /// What is written and flushed, for the reader of the same script.
    pub log: &'a FlushLog,
}

impl Write for Target<'_> {
    // Takes at most `max_write_bytes` bytes and logs how many were written in all, or fails.
    fn write(&mut self, buf: &[u8]) -> io::Result<usize> {
        if self.writes_before_fault == 0 {
            return Err(Error::from(ErrorKind::Other));
        }
        self.writes_before_fault -= 1;
        let count = buf.len().min(self.max_write_bytes);
        match self.taken.extend_from_slice(&buf[..count]) {
            Ok(()) => {
                self.log.written.set(self.taken.len());
                Ok(count)
            }
            Err(_) => Err(Error::from(ErrorKind::Other)),
        }
    }

    // Logs that all bytes written so far are flushed, or fails.
    fn flush(&mut self) -> io::Result<()> {
        if self.fails_to_flush {
            return Err(Error::from(ErrorKind::Other));
        }
        self.log.flushed.set(self.taken.len());
        Ok(())
    }
}
