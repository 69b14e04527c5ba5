//! A writer of the tests.

use std::alloc::Global;
use std::io;
use std::io::{ErrorKind, Write};

/// A writer that takes at most `most` bytes a write. It gives `error` `left` times before the first write,
/// `times` times before each other, and `flush_left` times before a flush.
#[derive(Drop)]
pub(crate) struct Sink {
    pub(crate) held: Vec<u8>,
    pub(crate) most: usize,
    pub(crate) error: ErrorKind,
    pub(crate) left: u64,
    pub(crate) times: u64,
    pub(crate) flush_left: u64,
    pub(crate) flushes: u64,
    /// A write found no memory.
    pub(crate) lacks_memory: bool,
}

impl Sink {
    /// A writer that takes one byte a write. It is interrupted `left` times before the first write, `times`
    /// times before each other, and `flush_left` times before a flush.
    pub(crate) fn new(alloc: Global, left: u64, times: u64, flush_left: u64) -> Sink {
        Sink {
            held: Vec::new(alloc),
            most: 1,
            error: ErrorKind::Interrupted,
            left,
            times,
            flush_left,
            flushes: 0,
            lacks_memory: false,
        }
    }
}

// An error, where errors are left. Then one less is left.
fn refuse(left: &mut u64, error: ErrorKind) -> io::Result<()> {
    if *left == 0 {
        return Ok(());
    }
    *left -= 1;
    Err(io::Error::from(error))
}

impl Write for Sink {
    fn write(&mut self, buf: &[u8]) -> io::Result<usize> {
        refuse(&mut self.left, self.error)?;
        self.left = self.times;
        let n = buf.len().min(self.most);
        match self.held.extend_from_slice(&buf[..n]) {
            Ok(()) => Ok(n),
            Err(refused) => {
                self.lacks_memory = true;
                Err(io::Error::from(refused))
            }
        }
    }

    fn flush(&mut self) -> io::Result<()> {
        refuse(&mut self.flush_left, self.error)?;
        self.flushes = self.flushes.saturating_add(1);
        Ok(())
    }
}
