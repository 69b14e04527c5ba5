//! Readers and writers that are slow, interrupted, cut.

use std::io;
use std::io::{ErrorKind, Read, Write};

/// Interruptions of calls: `each` of them before each call that goes on.
#[derive(Drop)]
pub(crate) struct Pauses {
    /// How often each call is interrupted.
    pub(crate) each: u64,
    /// How often the next call is still interrupted.
    pub(crate) left: u64,
}

impl Pauses {
    /// An error where a call is interrupted.
    fn pause(&mut self) -> io::Result<()> {
        match self.left.checked_sub(1) {
            Some(left) => {
                self.left = left;
                Err(io::Error::from(ErrorKind::Interrupted))
            }
            None => {
                self.left = self.each;
                Ok(())
            }
        }
    }
}

/// A reader of a text that gives at most `most` bytes a read. After the text it fails, or ends.
#[derive(Drop)]
pub(crate) struct CutReader<'a> {
    pub(crate) text: &'a [u8],
    /// The most bytes of a read.
    pub(crate) most: usize,
    /// The reader fails after its text, in place of ending.
    pub(crate) fails: bool,
    pub(crate) pauses: Pauses,
}

impl Read for CutReader<'_> {
    fn read(&mut self, buf: &mut [u8]) -> io::Result<usize> {
        self.pauses.pause()?;
        if self.fails && self.text.is_empty() {
            return Err(io::Error::from(ErrorKind::ConnectionReset));
        }
        let size = buf.len().min(self.most);
        self.text.read(&mut buf[..size])
    }
}

/// A writer that takes at most `most` bytes a write and `room` bytes in all, and then fails.
#[derive(Drop)]
pub(crate) struct CutWriter {
    pub(crate) held: Vec<u8>,
    /// The most bytes of a write.
    pub(crate) most: usize,
    /// How many bytes the writer still takes.
    pub(crate) room: usize,
    pub(crate) pauses: Pauses,
    /// How many writes took bytes.
    pub(crate) writes: u64,
    /// How many bytes the writer held at each flush.
    pub(crate) flushed: Vec<usize>,
}

impl Write for CutWriter {
    fn write(&mut self, buf: &[u8]) -> io::Result<usize> {
        self.pauses.pause()?;
        let n = buf.len().min(self.room).min(self.most);
        if n == 0 {
            return Err(io::Error::from(ErrorKind::BrokenPipe));
        }
        self.held.extend_from_slice(&buf[..n])?;
        self.room -= n;
        self.writes = self.writes.saturating_add(1);
        Ok(n)
    }

    fn flush(&mut self) -> io::Result<()> {
        self.pauses.pause()?;
        self.flushed.push(self.held.len())?;
        Ok(())
    }
}
