//! Input and output that wait if the system would not block.
use std::io::{self, ErrorKind, Read, Write};
use std::thread;
use std::time::{Clock, Duration};

/// How many milliseconds to wait before the next try.
const PAUSE: u64 = 1;

/// A reader or writer that tries again while the operation would block. So it takes a pipe or a terminal whose other
/// user has made it non-blocking.
#[derive(Drop)]
pub(crate) struct Waiting<'a, S, C> {
    pub(crate) stream: S,
    pub(crate) clock: &'a C,
}

impl<S: Read, C: Clock> Read for Waiting<'_, S, C> {
    fn read(&mut self, buf: &mut [u8]) -> io::Result<usize> {
        for _try in 0..u64::MAX {
            match self.stream.read(buf) {
                Err(error) if error.kind() == ErrorKind::WouldBlock => {
                    thread::sleep(self.clock, Duration::from_millis(PAUSE));
                }
                result => return result,
            }
        }
        Err(io::Error::from(ErrorKind::WouldBlock))
    }
}

impl<S: Write, C: Clock> Write for Waiting<'_, S, C> {
    fn write(&mut self, buf: &[u8]) -> io::Result<usize> {
        for _try in 0..u64::MAX {
            match self.stream.write(buf) {
                Err(error) if error.kind() == ErrorKind::WouldBlock => {
                    thread::sleep(self.clock, Duration::from_millis(PAUSE));
                }
                result => return result,
            }
        }
        Err(io::Error::from(ErrorKind::WouldBlock))
    }

    fn flush(&mut self) -> io::Result<()> {
        self.stream.flush()
    }
}
